//! The effects of the places of phis, terminals and blocks, and of a whole function.
ghost use Rattle.std.specs.Prelude.{◌≡◌, map, OnOk};
ghost use Rattle.alias_range_pass.specs.places.Blocks.{with_effect, operand_with, effect_set_at, phi_placed, terminal_effect, terminal_placed, ends_placed, first_order, block_placed, function_placed};
ghost use Rattle.alias_range_pass.specs.places.Causes.{EndsCaused};
ghost use Rattle.alias_range_pass.specs.places.Keeping.{EnvKept, OrdersFit, but_effects};

use crate::places::instructions::place_instructions;
use crate::places::ranges::merge_phis;
use crate::places::table::source_effect;
use alias_base::{BlockMap, EvaluationOrder, List};
use alias_hir::env::{Environment, Identifier};
use alias_hir::hir::{BasicBlock, HirFunction, Instruction, Phi};
use alias_hir::place::{Effect, Place};
use alias_hir::terminal::Terminal;
use alias_visit::terminals_mut::for_each_terminal_operand_mut;
use std::alloc::{AllocError, Global};

fn set_effect(place: &mut Place, effect: Effect)
    ensures { place.new ≡ with_effect effect place.old }
{
    place.effect = effect;
}

fn set_operand(operands: &mut BlockMap<Place>, index: usize, effect: Effect)
    ensures { operands.new ≡ effect_set_at effect index operands.old }
{
    if let Some(place) = operands.get_index_mut(index) {
        set_effect(place, effect);
    }
}

fn set_phi_operands(operands: &mut BlockMap<Place>, effect: Effect)
    ensures { operands.new ≡ map (operand_with effect) operands.old }
{
    for index in 0..operands.len() {
        set_operand(operands, index, effect);
    }
}

/// Sets the effects of a phi's places, where `first` is the first order of its block.
fn place_phi(identifiers: &List<Identifier>, first: EvaluationOrder, phi: &mut Phi)
    ensures { phi.new ≡ phi_placed identifiers.now first phi.old }
{
    set_effect(&mut phi.place, Effect::Store);
    let effect = source_effect(identifiers, first, phi.place.identifier);
    set_phi_operands(&mut phi.operands, effect);
}

fn place_phis(identifiers: &List<Identifier>, first: EvaluationOrder, phis: &mut [Phi])
    ensures { phis.new ≡ map (phi_placed identifiers.now first) phis.old }
{
    for phi in phis.iter_mut() {
        place_phi(identifiers, first, phi);
    }
}

fn terminal_effect(is_function_expression: bool, terminal: &Terminal) -> Effect
    ensures { result ≡ terminal_effect is_function_expression terminal.now }
{
    match terminal {
        Terminal::Return { .. } => {
            if is_function_expression {
                Effect::Read
            } else {
                Effect::Freeze
            }
        }
        Terminal::Goto { .. }
        | Terminal::If { .. }
        | Terminal::Branch { .. }
        | Terminal::Switch { .. }
        | Terminal::For { .. }
        | Terminal::ForOf { .. }
        | Terminal::ForIn { .. }
        | Terminal::DoWhile { .. }
        | Terminal::While { .. }
        | Terminal::Logical { .. }
        | Terminal::Ternary { .. }
        | Terminal::Optional { .. }
        | Terminal::Throw { .. }
        | Terminal::Unreachable { .. }
        | Terminal::Try { .. }
        | Terminal::MaybeThrow { .. }
        | Terminal::Label { .. }
        | Terminal::Sequence { .. }
        | Terminal::Scope { .. }
        | Terminal::PrunedScope { .. } => Effect::Read,
    }
}

/// Sets the effects of a terminal's places.
fn place_terminal(is_function_expression: bool, terminal: &mut Terminal)
    ensures { terminal.new ≡ terminal_placed is_function_expression terminal.old }
{
    let effect = terminal_effect(is_function_expression, terminal);
    for_each_terminal_operand_mut(
        terminal,
        &mut |place: &mut Place| {
            set_effect(place, effect);
        },
    );
}

/// Sets the effects of the places of a block's phis and of its terminal.
fn place_ends(
    is_function_expression: bool,
    identifiers: &List<Identifier>,
    first: EvaluationOrder,
    block: &mut BasicBlock,
)
    ensures { block.new ≡ ends_placed is_function_expression identifiers.now first block.old }
{
    place_phis(identifiers, first, block.phis.as_mut_slice());
    place_terminal(is_function_expression, &mut block.terminal);
}

/// The order of a block's first instruction, or of its terminal where it has none.
fn first_order(instructions: &List<Instruction>, block: &BasicBlock) -> EvaluationOrder
    ensures { result ≡ first_order instructions.now block.now }
{
    let last = block.terminal.evaluation_order();
    match block.instructions.as_slice() {
        [] => last,
        [id, ..] => match instructions.get(id.0 as usize) {
            None => last,
            Some(instruction) => instruction.id,
        },
    }
}

/// Places the block in a slot.
#[tactic(auto, using(crate::specs::places::KeepLaws::keeps_trans, crate::specs::places::KeepLaws::keeps_same, crate::specs::places::KeepLaws::merged_keeps, crate::specs::places::StayLaws::block_stays))]
fn place_block(
    alloc: Global,
    is_function_expression: bool,
    slot: usize,
    func: &mut HirFunction,
    env: &mut Environment,
) -> Result<(), AllocError>
    requires { OrdersFit func.old.instructions }
    ensures ok { OnOk result ((func.new, env.new) ≡ block_placed is_function_expression slot (func.old, env.old)) }
    ensures fit { OrdersFit func.new.instructions }
    ensures still { but_effects func.new ≡ but_effects func.old }
    ensures kept { EnvKept env.old env.new }
{
    let Some(block) = func.body.blocks.get_index_mut(slot) else {
        return Ok(());
    };
    let first = first_order(&func.instructions, block);
    merge_phis(&mut env.identifiers, block.phis.as_slice(), first);
    place_ends(is_function_expression, &env.identifiers, first, block);
    place_instructions(
        alloc,
        &mut func.instructions,
        block.instructions.as_slice(),
        env,
    )?;
    Ok(())
}

fn place_blocks(
    alloc: Global,
    is_function_expression: bool,
    func: &mut HirFunction,
    env: &mut Environment,
) -> Result<(), AllocError>
    requires { OrdersFit func.old.instructions }
    ensures ok { OnOk result ((func.new, env.new) ≡ function_placed is_function_expression (func.old, env.old)) }
    ensures still { but_effects func.new ≡ but_effects func.old }
    ensures kept { EnvKept env.old env.new }
{
    for slot in 0..func.body.blocks.len() {
        place_block(alloc, is_function_expression, slot, func, env)?;
    }
    Ok(())
}

/// Sets the effects of a function's places, block by block in stored order, and the starts and ends of ranges that are
/// unset. What is returned is frozen, but not in function expressions. Of the environment the identifiers' ranges and the
/// context places of the functions that are created change, and no end falls; one that rises has its cause. After an
/// `Err` a part is done.
pub fn place_function(
    alloc: Global,
    func: &mut HirFunction,
    env: &mut Environment,
    is_function_expression: bool,
) -> Result<(), AllocError>
    requires { OrdersFit func.old.instructions }
    ensures ok { OnOk result ((func.new, env.new) ≡ function_placed is_function_expression (func.old, env.old)) }
    ensures still { but_effects func.new ≡ but_effects func.old }
    ensures kept { EnvKept env.old env.new }
    ensures cause { OnOk result (EndsCaused func.old.instructions env.old.identifiers env.new.identifiers) }
{
    place_blocks(alloc, is_function_expression, func, env)?;
    Ok(())
}
