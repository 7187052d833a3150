//! The solution of a flow.
ghost use Rattle.std.specs.Prelude.{◌≡◌, ◌<◌, ℕ, IfOk, OnOk, List, Option, length, vec_len};
ghost use Rattle.alias_lattice.specs.Flows.{IsSolution, AreJoins};
ghost use Rattle.alias_flow.specs.Machine.{up, solution};
ghost use Rattle.alias_flow.specs.WorkLists.{work_list_visit, work_list_round, work_list_rounds};
ghost use Rattle.alias_flow.specs.WorkListViews.{work_list_of};
ghost use Rattle.alias_flow.specs.Runs.{solver_state, settled, RunGives, RoundsGive, EndGives, IsSettled};
ghost use Rattle.alias_flow.specs.Solutions.{entry_at, RecordsSteps, KeepsOthers, IsForward};

use crate::flow::{Flow, Solution, SolveFault};
use crate::work_list::WorkList;
use alias_lattice::Lattice;
use std::alloc::Global;

/// A visit of the block.
fn visit<F: Flow>(
    work_list: &mut WorkList<F::State>,
    flow: &mut F,
    block: u32,
) -> Result<(), SolveFault<F::Fault>>
    requires block { block < (F.rules flow.old).blocks }
    requires joined_input { vec_len work_list.old.joined_input ≡ (F.rules flow.old).blocks }
    requires dirty { vec_len work_list.old.dirty ≡ (F.rules flow.old).blocks }
    ensures run { RunGives F.cause (work_list_visit F.State.join F.State.below (F.rules flow.old) (solver_state (work_list_of work_list.old) (F.tables flow.old) (F.recorded flow.old)) block) result (solver_state (work_list_of work_list.new) (F.tables flow.new) (F.recorded flow.new)) }
    ensures same { F.rules flow.new ≡ F.rules flow.old }
    ensures borrows { F.borrows flow.new ≡ F.borrows flow.old }
    ensures lengths { OnOk result ((vec_len work_list.new.joined_input ≡ vec_len work_list.old.joined_input) × (vec_len work_list.new.dirty ≡ vec_len work_list.old.dirty)) }
{
    let Some(mut state) = work_list.input_of(block)? else {
        return Ok(());
    };
    if let Err(fault) = flow.step(block, &mut state) {
        return Err(fault.at(block));
    }
    work_list.note_visit(block)?;
    let edges = flow.edges(block)?;
    work_list.send_along(state, edges.as_slice())?;
    Ok(())
}

/// One round: a visit of each block that is dirty when its turn comes.
#[tactic(auto, using(crate::proofs::Rounds::up_more))]
fn round<F: Flow>(
    work_list: &mut WorkList<F::State>,
    flow: &mut F,
    count: u32,
) -> Result<(), SolveFault<F::Fault>>
    requires count { count ≡ (F.rules flow.old).blocks }
    requires joined_input { vec_len work_list.old.joined_input ≡ (F.rules flow.old).blocks }
    requires dirty { vec_len work_list.old.dirty ≡ (F.rules flow.old).blocks }
    ensures run { RunGives F.cause (work_list_round F.State.join F.State.below (F.rules flow.old) (solver_state (work_list_of work_list.old) (F.tables flow.old) (F.recorded flow.old)) (up 0 count)) result (solver_state (work_list_of work_list.new) (F.tables flow.new) (F.recorded flow.new)) }
    ensures same { F.rules flow.new ≡ F.rules flow.old }
    ensures borrows { F.borrows flow.new ≡ F.borrows flow.old }
    ensures lengths { OnOk result ((vec_len work_list.new.joined_input ≡ vec_len work_list.old.joined_input) × (vec_len work_list.new.dirty ≡ vec_len work_list.old.dirty)) }
{
    for block in 0..count {
        if work_list.is_dirty(block) {
            visit(work_list, flow, block)?;
        }
    }
    Ok(())
}

/// Rounds over all blocks while one is dirty, 100 at most.
#[tactic(auto, using(crate::proofs::Rounds::rounds_more))]
fn rounds<F: Flow>(
    work_list: &mut WorkList<F::State>,
    flow: &mut F,
    count: u32,
) -> Result<(), SolveFault<F::Fault>>
    requires count { count ≡ (F.rules flow.old).blocks }
    requires joined_input { vec_len work_list.old.joined_input ≡ (F.rules flow.old).blocks }
    requires dirty { vec_len work_list.old.dirty ≡ (F.rules flow.old).blocks }
    ensures run { RoundsGive F.cause (work_list_rounds F.State.join F.State.below (F.rules flow.old) 100 (solver_state (work_list_of work_list.old) (F.tables flow.old) (F.recorded flow.old))) result (work_list_rounds F.State.join F.State.below (F.rules flow.old) 0 (solver_state (work_list_of work_list.new) (F.tables flow.new) (F.recorded flow.new))) }
    ensures same { F.rules flow.new ≡ F.rules flow.old }
    ensures borrows { F.borrows flow.new ≡ F.borrows flow.old }
{
    'rounds: for _ in 0..100u32 {
        if !work_list.any_dirty() {
            return Ok(());
        }
        round(work_list, flow, count)?;
    }
    Ok(())
}

/// What the last round leaves: the solution, unless a block is still dirty.
fn settled<S: Lattice + Drop, E>(work_list: WorkList<S>) -> Result<Solution<S>, SolveFault<E>>
    ensures { result ≡ settled (work_list_of work_list) }
{
    if work_list.any_dirty() {
        let visits = work_list.visits();
        return Err(SolveFault::NotSettled { visits });
    }
    Ok(work_list.into_solution())
}

/// Solves the flow. The initial state is sent to the entry. A visit of a block steps from the join of all
/// that was sent to it, and sends the out state along each of its edges. A block is dirty where that join
/// isn't the state of its last visit. Each round goes once over the blocks in stored order and visits those
/// that are dirty, and rounds go on until none is.
///
/// The entry states of the answer, one for each block or none where it isn't reached, solve the flow under
/// the tables that it ends with, and are the joins of what arrives where all edges go forward. What the flow
/// records of a block that isn't reached stays. An `Err` says which visit was refused, that blocks were still
/// dirty after 100 rounds, which never comes where all edges go forward, or that memory ran out. It leaves
/// what the flow does as it was, and its tables and what it records as some visits left them.
pub fn solve<F: Flow>(
    alloc: Global,
    flow: &mut F,
) -> Result<Solution<F::State>, SolveFault<F::Fault>>
    ensures end { EndGives F.cause (solution F.State.join F.State.below (F.rules flow.old) (F.tables flow.old) (F.recorded flow.old)) result (F.tables flow.new) (F.recorded flow.new) }
    ensures solves { IfOk result (λ solution. IsSolution F.State.below (F.rules flow.new).flow (F.tables flow.new) (entry_at solution.entries)) }
    ensures keeps { IfOk result (λ solution. RecordsSteps (F.rules flow.new).flow (F.tables flow.new) (entry_at solution.entries) (F.recorded flow.new)) }
    ensures others { IfOk result (λ solution. KeepsOthers (entry_at solution.entries) (F.recorded flow.old) (F.recorded flow.new)) }
    ensures count { IfOk result (λ solution. length solution.entries ≡ (F.rules flow.old).blocks) }
    ensures same { F.rules flow.new ≡ F.rules flow.old }
    ensures joins { IsForward (F.rules flow.old) → IfOk result (λ solution. AreJoins F.State.below (F.rules flow.old).flow F.State.proper (F.tables flow.new) (entry_at solution.entries)) }
    ensures settles { IsForward (F.rules flow.old) → IsSettled result }
    ensures borrows { F.borrows flow.new ≡ F.borrows flow.old }
{
    let count = flow.blocks();
    let entry = flow.entry();
    let mut work_list = WorkList::start(alloc, count)?;
    let initial = flow.initial()?;
    work_list.send_state(initial, entry)?;
    rounds(&mut work_list, flow, count)?;
    settled(work_list)
}
