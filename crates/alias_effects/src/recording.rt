//! What was recorded of a function, on its instructions and terminals.
ghost use Rattle.std.specs.Prelude.{◌≡◌};
ghost use Rattle.alias_effects.specs.Recording.{with_recorded, recorded_instructions, with_terminal_at, with_terminal, recorded_terminals};

use alias_base::{BlockMap, List};
use alias_hir::effect::AliasingEffects;
use alias_hir::hir::{BasicBlock, Instruction};
use alias_step::block::{InstructionEffects, TerminalEffects};

fn record_instruction(instructions: &mut List<Instruction>, recorded: InstructionEffects)
    ensures { instructions.new ≡ with_recorded recorded instructions.old }
{
    let InstructionEffects {
        instruction,
        effects,
    } = recorded;
    let index = instruction.0 as usize;
    if index < instructions.len() {
        instructions.item_mut(index).effects = Some(effects);
    }
}

/// The instructions carry what was recorded of them.
#[tactic(auto, using(crate::proofs::Recordings::recorded_instructions_append))]
pub fn record_instructions(instructions: &mut List<Instruction>, recorded: List<InstructionEffects>)
    ensures { instructions.new ≡ recorded_instructions recorded instructions.old }
{
    // From the back, where `pop` moves an item out and no other moves.
    let mut left = recorded;
    'left: while let Some(last) = left.pop() {
        record_instruction(instructions, last);
    }
}

fn record_terminal_at(blocks: &mut BlockMap<BasicBlock>, index: usize, effects: AliasingEffects)
    ensures { blocks.new ≡ with_terminal_at effects blocks.old index }
{
    if let Some(block) = blocks.get_index_mut(index) {
        block.terminal.set_effects(effects);
    }
}

fn record_terminal(blocks: &mut BlockMap<BasicBlock>, recorded: TerminalEffects)
    ensures { blocks.new ≡ with_terminal recorded blocks.old }
{
    let TerminalEffects { block, effects } = recorded;
    if let Some(index) = blocks.position(block) {
        record_terminal_at(blocks, index, effects);
    }
}

/// The terminals carry what was recorded of them.
#[tactic(auto, using(crate::proofs::Recordings::recorded_terminals_append))]
pub fn record_terminals(blocks: &mut BlockMap<BasicBlock>, recorded: List<TerminalEffects>)
    ensures { blocks.new ≡ recorded_terminals recorded blocks.old }
{
    // From the back, as above.
    let mut left = recorded;
    'left: while let Some(last) = left.pop() {
        record_terminal(blocks, last);
    }
}
