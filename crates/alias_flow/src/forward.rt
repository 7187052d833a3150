//! Flows whose edges all go to later blocks.
ghost use Rattle.std.specs.Prelude.{◌≡◌, ◌<◌, ℕ, nat_lt, true, IfOk, OnOk, List, Option, length};
ghost use Rattle.std.specs.List.{list_all, AllByRecursion};
ghost use Rattle.alias_flow.specs.Machine.{up, send_all, solution};
ghost use Rattle.alias_flow.specs.ForwardPasses.{forward_turn, forward_round};
ghost use Rattle.alias_flow.specs.Runs.{solver_state, RunGives, EndsWith};
ghost use Rattle.alias_flow.specs.Solutions.{goes_forward, IsForward, SolvesInOrder};

use crate::flow::{Flow, SolveFault};
use crate::nothing::nothing_yet;
use crate::sending::{send_copy, send_state};
use alias_lattice::Lattice;
use std::alloc::{AllocError, Global};

/// Sends the state along the edges: itself along the last one, and before that what joins it or copies it.
fn send_along<S: Lattice + Drop>(
    waiting: &mut [Option<S>],
    state: S,
    edges: &[u32],
) -> Result<(), AllocError>
    requires { AllByRecursion (λ e. e < length waiting.old) edges.now }
    ensures { OnOk result (waiting.new ≡ send_all S.join state waiting.old edges.now) }
{
    let [before @ .., last] = edges else {
        return Ok(());
    };
    for to in before {
        send_copy(waiting, &state, *to)?;
    }
    send_state(waiting, state, *last)
}

/// The turn of the block: it steps from the state that waits at it, if one does.
fn turn<F: Flow>(
    waiting: &mut [Option<F::State>],
    flow: &mut F,
    block: u32,
) -> Result<(), SolveFault<F::Fault>>
    requires block { block < (F.rules flow.old).blocks }
    requires length { length waiting.old ≡ (F.rules flow.old).blocks }
    ensures run { RunGives F.cause (forward_turn F.State.join (F.rules flow.old) (solver_state waiting.old (F.tables flow.old) (F.recorded flow.old)) block) result (solver_state waiting.new (F.tables flow.new) (F.recorded flow.new)) }
    ensures same { F.rules flow.new ≡ F.rules flow.old }
    ensures borrows { F.borrows flow.new ≡ F.borrows flow.old }
{
    let Some(mut state) = waiting[block as usize].take() else {
        return Ok(());
    };
    if let Err(fault) = flow.step(block, &mut state) {
        return Err(fault.at(block));
    }
    let edges = flow.edges(block)?;
    send_along(waiting, state, edges.as_slice())?;
    Ok(())
}

/// The turns of all blocks, in stored order.
#[tactic(auto, using(crate::proofs::Rounds::up_more))]
fn forward_round<F: Flow>(
    waiting: &mut [Option<F::State>],
    flow: &mut F,
    count: u32,
) -> Result<(), SolveFault<F::Fault>>
    requires count { count ≡ (F.rules flow.old).blocks }
    requires length { length waiting.old ≡ (F.rules flow.old).blocks }
    ensures run { RunGives F.cause (forward_round F.State.join (F.rules flow.old) (solver_state waiting.old (F.tables flow.old) (F.recorded flow.old)) (up 0 count)) result (solver_state waiting.new (F.tables flow.new) (F.recorded flow.new)) }
    ensures same { F.rules flow.new ≡ F.rules flow.old }
    ensures borrows { F.borrows flow.new ≡ F.borrows flow.old }
{
    for block in 0..count {
        turn(waiting, flow, block)?;
    }
    Ok(())
}

/// Each edge of the block goes to a later block.
fn block_goes_forward<F: Flow>(flow: &F, block: u32) -> Result<bool, AllocError>
    requires { block < (F.rules flow.now).blocks }
    ensures { IfOk result (λ forward. forward ≡ list_all (λ e. nat_lt block e) ((F.rules flow.now).flow.edges block)) }
{
    let edges = flow.edges(block)?;
    Ok(edges.as_slice().iter().all(|to| *to > block))
}

/// Whether each edge of each block goes to a later block, which `solve_forward` asks for. The one error is
/// out of memory.
#[tactic(auto, using(crate::proofs::Rounds::up_more, crate::proofs::EachEdge::forward_is))]
pub fn is_forward<F: Flow>(flow: &F) -> Result<bool, AllocError>
    ensures answer { IfOk result (λ forward. forward ≡ goes_forward (F.rules flow.now)) }
    ensures forward { IfOk result (λ forward. forward ≡ true → IsForward (F.rules flow.now)) }
{
    let count = flow.blocks();
    for block in 0..count {
        if !block_goes_forward(flow, block)? {
            return Ok(false);
        }
    }
    Ok(true)
}

/// Solves a flow each of whose edges goes to a later block. Its blocks are visited in stored order, each at
/// most once, and no entry state outlives its visit: a state moves along the last edge of its block. The
/// tables and what the flow records end as `solve` would leave them. An `Err` says which visit was refused,
/// where `solve` would say so too, or that memory ran out; it leaves what the flow does as it was, and its
/// tables and what it records as some visits left them.
pub fn solve_forward<F: Flow>(alloc: Global, flow: &mut F) -> Result<(), SolveFault<F::Fault>>
    requires forward { IsForward (F.rules flow.old) }
    ensures end { EndsWith F.cause (solution F.State.join F.State.below (F.rules flow.old) (F.tables flow.old) (F.recorded flow.old)) result (F.tables flow.new) (F.recorded flow.new) (SolvesInOrder F.State.proper F.State.below (F.rules flow.old).flow (F.tables flow.new) (F.recorded flow.new)) }
    ensures same { F.rules flow.new ≡ F.rules flow.old }
    ensures borrows { F.borrows flow.new ≡ F.borrows flow.old }
{
    let count = flow.blocks();
    let entry = flow.entry();
    let mut states = nothing_yet(alloc, count)?;
    let initial = flow.initial()?;
    let waiting = states.as_mut_slice();
    send_state(waiting, initial, entry)?;
    forward_round(waiting, flow, count)
}
