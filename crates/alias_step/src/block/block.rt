//! The step of a block.

ghost use Rattle.std.specs.Prelude.{◌≡◌, [], IfOk, OnOk, option_map};
ghost use Rattle.alias_step.specs.block.Blocks.{infer_phis, step_start, after_instruction, infer_instruction, infer_instruction_at, apply_signatures, after_terminal, apply_terminal, block_start, finished, infer_block};
ghost use Rattle.alias_step.specs.block.Contexts.{held};
ghost use Rattle.alias_step.specs.block.Faults.{BlockLeaves, fault_at};

use crate::apply_signature;
use crate::block::actions::terminal_action;
use crate::block::context::BlockContext;
use crate::block::faults::{BlockFault, BlockRefusal};
use crate::block::recorded::{BlockEffects, no_effects, push_recorded, terminal_recorded_as};
use alias_apply::{MadeIdentifiers, StepProgress};
use alias_base::{BlockId, InstructionId, List};
use alias_hir::hir::{BasicBlock, Instruction, Phi};
use alias_lattice::{InferenceState, MissingLookup};
use alias_tables::{EffectFault, Tables};
use std::alloc::{AllocError, Global};

/// How far the step of a block has come. What it adds to are tables beside it.
#[derive(Drop)]
pub struct BlockProgress {
    pub state: InferenceState,
    /// What was recorded of the block.
    pub effects: BlockEffects,
    /// The first look at an identifier without a value.
    pub missing: Option<MissingLookup>,
}

/// Each phi takes the values of its operands, in order.
fn infer_phis(phis: &List<Phi>, state: &mut InferenceState) -> Result<(), AllocError>
    ensures { OnOk result (state.new ≡ infer_phis phis.now state.old) }
{
    for phi in phis.as_slice() {
        state.infer_phi(phi.place.identifier, &phi.operands)?;
    }
    Ok(())
}

/// The fault of an instruction, as one of its block's.
fn fault_at(instruction: InstructionId, fault: EffectFault) -> BlockFault
    ensures { result ≡ fault_at instruction fault }
{
    match fault {
        EffectFault::Refused(refusal) => BlockFault::Refused(BlockRefusal::Instruction {
            instruction,
            refusal,
        }),
        EffectFault::Memory(e) => BlockFault::Memory(e),
    }
}

/// An instruction and a terminal begin with nothing made and nothing recorded.
fn step_start(alloc: Global, state: InferenceState, missing: Option<MissingLookup>) -> StepProgress
    ensures { result ≡ record { state = state; made = []; recorded = []; missing = missing } }
{
    StepProgress {
        state,
        made: MadeIdentifiers::new(alloc),
        recorded: List::new(alloc),
        missing,
    }
}

/// The progress after an instruction, with what was recorded before it.
fn after_instruction(
    id: InstructionId,
    before: BlockEffects,
    step: StepProgress,
) -> Result<BlockProgress, AllocError>
    ensures { IfOk result (λ progress. progress ≡ after_instruction id before step) }
{
    let mut effects = before;
    push_recorded(&mut effects.instructions, id, step.recorded)?;
    Ok(BlockProgress {
        state: step.state,
        effects,
        missing: step.missing,
    })
}

/// The step of an instruction.
fn infer_instruction(
    context: &BlockContext<'_>,
    id: InstructionId,
    instruction: &Instruction,
    progress: BlockProgress,
    tables: &mut Tables,
) -> Result<BlockProgress, BlockFault>
    ensures { BlockLeaves (infer_instruction (held context.now) id instruction.now progress tables.old) result tables.new }
{
    let BlockProgress {
        state,
        effects,
        missing,
    } = progress;
    let mut step = step_start(tables.alloc(), state, missing);
    match apply_signature(context.env, context.facts, instruction, &mut step, tables) {
        Ok(()) => Ok(after_instruction(id, effects, step)?),
        Err(fault) => Err(fault_at(id, fault)),
    }
}

fn infer_instruction_at(
    context: &BlockContext<'_>,
    id: InstructionId,
    instruction: Option<&Instruction>,
    progress: BlockProgress,
    tables: &mut Tables,
) -> Result<BlockProgress, BlockFault>
    ensures { BlockLeaves (infer_instruction_at (held context.now) id (option_map (λ i. i.now) instruction.entry) progress tables.old) result tables.new }
{
    match instruction {
        Some(instruction) => infer_instruction(context, id, instruction, progress, tables),
        None => Ok(progress),
    }
}

/// The steps of a block's instructions, in order.
fn apply_signatures(
    context: &BlockContext<'_>,
    ids: &[InstructionId],
    progress: BlockProgress,
    tables: &mut Tables,
) -> Result<BlockProgress, BlockFault>
    ensures { BlockLeaves (apply_signatures (held context.now) ids.now progress tables.old) result tables.new }
{
    let mut progress = progress;
    for id in ids {
        let instruction = context.func.instructions.get(id.0 as usize);
        progress = infer_instruction_at(context, *id, instruction, progress, tables)?;
    }
    Ok(progress)
}

/// The progress after the terminal, with what was recorded before it.
fn after_terminal(
    alloc: Global,
    id: BlockId,
    before: BlockEffects,
    step: StepProgress,
) -> Result<BlockProgress, AllocError>
    ensures { IfOk result (λ progress. progress ≡ after_terminal id before step) }
{
    Ok(BlockProgress {
        effects: BlockEffects {
            instructions: before.instructions,
            terminal: terminal_recorded_as(alloc, id, step.recorded)?,
        },
        state: step.state,
        missing: step.missing,
    })
}

/// The step of a block's terminal, after its instructions.
fn apply_terminal(
    context: &BlockContext<'_>,
    id: BlockId,
    block: &BasicBlock,
    progress: BlockProgress,
    tables: &mut Tables,
) -> Result<BlockProgress, BlockFault>
    ensures { BlockLeaves (apply_terminal (held context.now) id block.now progress tables.old) result tables.new }
{
    let BlockProgress {
        state,
        effects,
        missing,
    } = progress;
    let mut step = step_start(tables.alloc(), state, missing);
    terminal_action(context, block, &mut step, tables)?;
    Ok(after_terminal(tables.alloc(), id, effects, step)?)
}

/// The end of a block's step: a missing lookup refuses it.
fn finished(
    progress: BlockProgress,
    tables: &Tables,
) -> Result<(InferenceState, BlockEffects), BlockFault>
    ensures { BlockLeaves (finished progress tables.now) result tables.now }
{
    // The clause speaks of the tables; the body doesn't need them.
    let _tables = tables;
    match progress.missing {
        Some(lookup) => Err(BlockFault::Refused(BlockRefusal::Uninitialized(lookup))),
        None => Ok((progress.state, progress.effects)),
    }
}

/// The step of a block from a state: the state after it, and what was recorded. The tables grow at their ends.
pub fn infer_block(
    context: &BlockContext<'_>,
    name: BlockId,
    block: &BasicBlock,
    tables: &mut Tables,
    state: InferenceState,
) -> Result<(InferenceState, BlockEffects), BlockFault>
    ensures { BlockLeaves (infer_block (held context.now) name block.now state tables.old) result tables.new }
{
    let mut state = state;
    infer_phis(&block.phis, &mut state)?;
    let progress = BlockProgress {
        state,
        effects: no_effects(tables.alloc()),
        missing: None,
    };
    let progress = apply_signatures(context, block.instructions.as_slice(), progress, tables)?;
    let progress = apply_terminal(context, name, block, progress, tables)?;
    finished(progress, tables)
}
