//! Functions that write locals, and where they are frozen.
ghost use Rattle.std.specs.Prelude.{◌≡◌, ◌++◌, option_map, OnOk};
ghost use Rattle.alias_lint.specs.Frozen.{instruction_checked, instructions_checked, block_checked, frozen_lints};

use crate::lines::pushing::{push_all, push_lints};
use crate::{Lint, Site};
use alias_base::{BlockId, InstructionId, List};
use alias_hir::env::Environment;
use alias_hir::hir::{BasicBlock, HirFunction, Instruction};
use alias_validate::freezing::{mark_after, report_operands, visit_value};
use alias_validate::marks::Marks;
use alias_validate::mutation::ContextMutation;
use alias_visit::terminals::each_terminal_operand;
use std::alloc::{AllocError, Global};

fn check_instruction(
    alloc: Global,
    env: &Environment,
    block: BlockId,
    id: InstructionId,
    instruction: Option<&Instruction>,
    marks: &mut Marks<ContextMutation>,
    lints: &mut List<Lint>,
) -> Result<(), AllocError>
    ensures { OnOk result ((marks.new, lints.new) ≡ instruction_checked env.now block id (marks.old, lints.old) (option_map (λ i. i.now) instruction.entry)) }
{
    match instruction {
        Some(instruction) => {
            let mut reports = List::new(alloc);
            visit_value(alloc, env, marks, &instruction.value, &mut reports)?;
            let site = Site {
                function: None,
                block,
                instruction: Some(id),
            };
            push_lints(lints, site, reports)?;
            let lvalue = instruction.lvalue.identifier;
            mark_after(alloc, env, lvalue, &instruction.value, marks)
        }
        None => Ok(()),
    }
}

fn check_instructions(
    alloc: Global,
    env: &Environment,
    func: &HirFunction,
    block: BlockId,
    ids: &[InstructionId],
    marks: &mut Marks<ContextMutation>,
    lints: &mut List<Lint>,
) -> Result<(), AllocError>
    ensures { OnOk result ((marks.new, lints.new) ≡ instructions_checked env.now func.now block (marks.old, lints.old) ids.now) }
{
    for id in ids {
        let instruction = func.instructions.get(id.0 as usize);
        check_instruction(alloc, env, block, *id, instruction, marks, lints)?;
    }
    Ok(())
}

/// The instructions of a block, then its terminal.
fn check_block(
    alloc: Global,
    env: &Environment,
    func: &HirFunction,
    id: BlockId,
    block: &BasicBlock,
    marks: &mut Marks<ContextMutation>,
    lints: &mut List<Lint>,
) -> Result<(), AllocError>
    ensures { OnOk result ((marks.new, lints.new) ≡ block_checked env.now func.now (marks.old, lints.old) (id, block.now)) }
{
    let ids = block.instructions.as_slice();
    check_instructions(alloc, env, func, id, ids, marks, lints)?;
    let operands = each_terminal_operand(alloc, &block.terminal)?;
    let mut reports = List::new(alloc);
    report_operands(alloc, env, marks, operands.as_slice(), &mut reports)?;
    let site = Site {
        function: None,
        block: id,
        instruction: None,
    };
    push_lints(lints, site, reports)
}

/// Appends each operand that is frozen while it is a function that writes a local.
pub(crate) fn push_frozen(
    alloc: Global,
    env: &Environment,
    func: &HirFunction,
    lints: &mut List<Lint>,
) -> Result<(), AllocError>
    ensures { OnOk result (lints.new ≡ lints.old ++ frozen_lints env.now func.now) }
{
    let mut marks = Marks::new(alloc);
    let mut found = List::new(alloc);
    for (id, block) in func.body.blocks.iter() {
        check_block(alloc, env, func, *id, block, &mut marks, &mut found)?;
    }
    push_all(lints, found)
}
