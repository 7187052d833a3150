//! The functions that a function creates, in the order in which they are analysed.
ghost use Rattle.std.specs.Prelude.{◌≡◌, ◌++◌, option_map, OnOk, IfOk};
ghost use Rattle.alias_nested.specs.Created.{created_by, created_by_all, created_functions};

use alias_base::{FunctionId, InstructionId, List};
use alias_hir::hir::{HirFunction, Instruction};
use alias_rules::function_rules::ids::created;
use std::alloc::{AllocError, Global};

fn push_created(
    found: &mut List<FunctionId>,
    instruction: Option<&Instruction>,
) -> Result<(), AllocError>
    ensures { OnOk result (found.new ≡ found.old ++ created_by (option_map (λ i. i.now) instruction.entry)) }
{
    if let Some(instruction) = instruction {
        if let Some(id) = created(&instruction.value) {
            found.push(id)?;
        }
    }
    Ok(())
}

fn push_all_created(
    found: &mut List<FunctionId>,
    func: &HirFunction,
    ids: &[InstructionId],
) -> Result<(), AllocError>
    ensures { OnOk result (found.new ≡ found.old ++ created_by_all func.now ids.now) }
{
    for id in ids {
        push_created(found, func.instructions.get(id.0 as usize))?;
    }
    Ok(())
}

/// The functions that a function creates: its blocks in stored order, the instructions of each in order.
pub fn created_functions(alloc: Global, func: &HirFunction) -> Result<List<FunctionId>, AllocError>
    ensures { IfOk result (λ ids. ids ≡ created_functions func.now) }
{
    let mut found = List::new(alloc);
    for (_, block) in func.body.blocks.iter() {
        push_all_created(&mut found, func, block.instructions.as_slice())?;
    }
    Ok(found)
}
