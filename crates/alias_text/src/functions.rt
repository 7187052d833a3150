//! The effects of blocks and functions, as lines.
ghost use Rattle.std.specs.Prelude.{◌≡◌, ◌++◌, OnOk};
ghost use Rattle.std.specs.List.{AllByRecursion};
ghost use Rattle.alias_base.specs.Find.{value_at};
ghost use Rattle.alias_text.specs.Lines.{effect_line, effect_lines, end_line, end_lines, instruction_lines, terminal_lines, block_head, listed_lines, block_lines, function_name, function_head};
ghost use Rattle.alias_text.specs.Fitting.{Small, SmallBlock, SmallInstruction, SmallName};

use crate::effects::push_effect;
use alias_base::{BlockId, FunctionId, InstructionId, Text};
use alias_hir::effect::AliasingEffect;
use alias_hir::hir::{BasicBlock, HirFunction, Instruction};
use alias_hir::terminal::Terminal;
use std::alloc::AllocError;

fn push_effect_line(out: &mut Text, number: u32, effect: &AliasingEffect) -> Result<(), AllocError>
    ensures { OnOk result (out.new ≡ out.old ++ effect_line number effect.now) }
{
    out.push_number(number as u64)?;
    out.push_str(" ")?;
    push_effect(out, effect)?;
    out.push_str("\n")
}

fn push_effect_lines(
    out: &mut Text,
    number: u32,
    effects: &[AliasingEffect],
) -> Result<(), AllocError>
    ensures { OnOk result (out.new ≡ out.old ++ effect_lines number effects.now) }
{
    for effect in effects {
        push_effect_line(out, number, effect)?;
    }
    Ok(())
}

fn push_end_line(out: &mut Text, effect: &AliasingEffect) -> Result<(), AllocError>
    ensures { OnOk result (out.new ≡ out.old ++ end_line effect.now) }
{
    out.push_str("end ")?;
    push_effect(out, effect)?;
    out.push_str("\n")
}

fn push_end_lines(out: &mut Text, effects: &[AliasingEffect]) -> Result<(), AllocError>
    ensures { OnOk result (out.new ≡ out.old ++ end_lines effects.now) }
{
    for effect in effects {
        push_end_line(out, effect)?;
    }
    Ok(())
}

/// Appends the lines of the effects that were recorded of one instruction of the list: none where no
/// instruction has that number.
fn push_instruction(
    out: &mut Text,
    instructions: &[Instruction],
    id: InstructionId,
) -> Result<(), AllocError>
    ensures text { OnOk result (out.new ≡ out.old ++ instruction_lines instructions.now id) }
    ensures fits { Small id.0 }
{
    match instructions.get(id.0 as usize) {
        Some(instruction) => match &instruction.effects {
            Some(effects) => push_effect_lines(out, id.0, effects.as_slice()),
            None => Ok(()),
        },
        None => Ok(()),
    }
}

fn push_instructions(
    out: &mut Text,
    instructions: &[Instruction],
    ids: &[InstructionId],
) -> Result<(), AllocError>
    ensures text { OnOk result (out.new ≡ out.old ++ listed_lines instructions.now ids.now) }
    ensures fits { OnOk result (AllByRecursion SmallInstruction ids.now) }
{
    for id in ids {
        push_instruction(out, instructions, *id)?;
    }
    Ok(())
}

fn push_terminal(out: &mut Text, terminal: &Terminal) -> Result<(), AllocError>
    ensures { OnOk result (out.new ≡ out.old ++ terminal_lines terminal.now) }
{
    match terminal.effects() {
        Some(effects) => push_end_lines(out, effects.as_slice()),
        None => Ok(()),
    }
}

/// Appends the line that stands over a block's lines. An `Err` is out of memory: `out` may then hold a part of it.
pub fn push_block_head(out: &mut Text, block: BlockId) -> Result<(), AllocError>
    ensures text { OnOk result (out.new ≡ out.old ++ block_head block) }
    ensures fits { OnOk result (Small block.0) }
{
    out.push_str("block ")?;
    out.push_number(block.0 as u64)?;
    out.push_str("\n")
}

/// Appends the lines of the effects of the block's instructions in the block's order, and those of its terminal: none
/// where the block isn't there. An `Err` is out of memory: `out` may then hold a part of it.
pub fn push_block_lines(
    out: &mut Text,
    func: &HirFunction,
    block: BlockId,
) -> Result<(), AllocError>
    ensures text { OnOk result (out.new ≡ out.old ++ block_lines func.now.instructions (value_at func.now.body.blocks block)) }
    ensures fits { OnOk result (SmallBlock (value_at func.now.body.blocks block)) }
{
    match func.body.blocks.get(block) {
        Some(found) => {
            push_instructions(
                out,
                func.instructions.as_slice(),
                found.instructions.as_slice(),
            )?;
            push_terminal(out, &found.terminal)
        }
        None => Ok(()),
    }
}

/// Appends `root`, or the number of a nested function. An `Err` is out of memory: `out` may then hold a part of it.
pub fn push_function_name(out: &mut Text, function: Option<FunctionId>) -> Result<(), AllocError>
    ensures text { OnOk result (out.new ≡ out.old ++ function_name function) }
    ensures fits { SmallName function }
{
    match function {
        None => out.push_str("root"),
        Some(id) => out.push_number(id.0 as u64),
    }
}

/// Appends the line that stands over a function's blocks. An `Err` is out of memory: `out` may then hold a
/// part of it.
pub fn push_function_head(out: &mut Text, function: Option<FunctionId>) -> Result<(), AllocError>
    ensures text { OnOk result (out.new ≡ out.old ++ function_head function) }
    ensures fits { OnOk result (SmallName function) }
{
    out.push_str("function ")?;
    push_function_name(out, function)?;
    out.push_str("\n")
}
