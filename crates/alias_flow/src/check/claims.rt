//! The check of entry states against a flow, of whose steps somebody makes claims.
ghost use Rattle.std.specs.Prelude.{◌≡◌, ◌<◌, ℕ, Option, Some, None, IfOk, length, slice_index_or, slice_set};
ghost use Rattle.alias_flow.specs.Machine.{up};
ghost use Rattle.alias_flow.specs.Runs.{solver_state};
ghost use Rattle.alias_lattice.specs.Flows.{Stepped};
ghost use Rattle.alias_flow.specs.check.Checks.{ChecksInto, outcome_checked, block_checked, blocks_checked, solution_checked};
ghost use Rattle.alias_flow.specs.check.Claims.{AreClaims, begun_checked};

use crate::Flow;
use crate::check::check::{begin, not_joined, pass_on, refused};
use crate::check::entries::entry_of;
use crate::check::fault::Unsolved;
use alias_lattice::Lattice;
use std::alloc::{AllocError, Global};

/// A flow of whose steps claims are made.
pub trait ClaimedFlow<C>: Flow {
    /// How a step differs from what is claimed of it.
    type Difference: Drop;

    /// How the last step of a block differs from what is claimed of it, if it does.
    ghost found: { Self → C → ℕ → Option Self.Difference };

    /// How the last step of the block differs from what is claimed of it, if it does. The one error is out of memory.
    fn difference(
        &self,
        alloc: Global,
        claims: &C,
        block: u32,
    ) -> Result<Option<Self::Difference>, AllocError>
        ensures { IfOk result (λ difference. difference ≡ found self.now claims.now block) };
}

/// What follows the step of the block to the out state.
fn check_out<C, F: ClaimedFlow<C>>(
    alloc: Global,
    flow: &F,
    entries: &[Option<F::State>],
    claims: &C,
    arriving: &mut [Option<F::State>],
    block: u32,
    out: &F::State,
) -> Result<(), Unsolved<F::Fault, F::Difference>>
    requires block { block < (F.rules flow.now).blocks }
    requires arriving { length arriving.old ≡ (F.rules flow.now).blocks }
    ensures { (differs : _) (before : _) (k : _) → AreClaims F.tables F.recorded F.found claims.now differs → slice_index_or (F.recorded flow.now) block None ≡ Some k → F.recorded flow.now ≡ slice_set before block (Some k) → ChecksInto F.cause (outcome_checked F.State.join F.State.below (F.rules flow.now) differs entries.now block (solver_state arriving.old (F.tables flow.now) before) (Stepped out.now (F.tables flow.now) k)) result (solver_state arriving.new (F.tables flow.now) (F.recorded flow.now)) }
{
    if let Some(difference) = flow.difference(alloc, claims, block)? {
        return Err(Unsolved::Differs { block, difference });
    }
    match pass_on(flow, entries, arriving, block, out)? {
        Some(successor) => Err(Unsolved::NotBelow { block, successor }),
        None => Ok(()),
    }
}

/// The check of a block: its step from its entry state, if it has one.
fn check_block<C, F: ClaimedFlow<C>>(
    alloc: Global,
    flow: &mut F,
    entries: &[Option<F::State>],
    claims: &C,
    arriving: &mut [Option<F::State>],
    block: u32,
) -> Result<(), Unsolved<F::Fault, F::Difference>>
    requires block { block < (F.rules flow.old).blocks }
    requires arriving { length arriving.old ≡ (F.rules flow.old).blocks }
    ensures checks { (differs : _) → AreClaims F.tables F.recorded F.found claims.now differs → ChecksInto F.cause (block_checked F.State.join F.State.below (F.rules flow.old) differs entries.now block (solver_state arriving.old (F.tables flow.old) (F.recorded flow.old))) result (solver_state arriving.new (F.tables flow.new) (F.recorded flow.new)) }
    ensures same { F.rules flow.new ≡ F.rules flow.old }
    ensures borrows { F.borrows flow.new ≡ F.borrows flow.old }
{
    let Some(state) = entry_of(entries, block) else {
        return Ok(());
    };
    let mut out = state.try_clone()?;
    match flow.step(block, &mut out) {
        Ok(()) => check_out(alloc, &*flow, entries, claims, arriving, block, &out),
        Err(fault) => Err(refused(block, fault)),
    }
}

/// The checks of all blocks, in stored order.
fn check_blocks<C, F: ClaimedFlow<C>>(
    alloc: Global,
    flow: &mut F,
    entries: &[Option<F::State>],
    claims: &C,
    arriving: &mut [Option<F::State>],
    count: u32,
) -> Result<(), Unsolved<F::Fault, F::Difference>>
    requires count { count ≡ (F.rules flow.old).blocks }
    requires arriving { length arriving.old ≡ (F.rules flow.old).blocks }
    ensures checks { (differs : _) → AreClaims F.tables F.recorded F.found claims.now differs → ChecksInto F.cause (blocks_checked F.State.join F.State.below (F.rules flow.old) differs entries.now (up 0 count) (solver_state arriving.old (F.tables flow.old) (F.recorded flow.old))) result (solver_state arriving.new (F.tables flow.new) (F.recorded flow.new)) }
    ensures same { F.rules flow.new ≡ F.rules flow.old }
    ensures borrows { F.borrows flow.new ≡ F.borrows flow.old }
{
    for block in 0..count {
        check_block(alloc, flow, entries, claims, arriving, block)?;
    }
    Ok(())
}

/// The checks of all blocks from what has arrived at first, and then of the joins.
fn check_begun<C, F: ClaimedFlow<C>>(
    alloc: Global,
    flow: &mut F,
    entries: &[Option<F::State>],
    claims: &C,
    arriving: &mut [Option<F::State>],
) -> Result<(), Unsolved<F::Fault, F::Difference>>
    requires { length arriving.old ≡ (F.rules flow.old).blocks }
    ensures checks { (differs : _) → AreClaims F.tables F.recorded F.found claims.now differs → ChecksInto F.cause (begun_checked F.State.join F.State.below (F.rules flow.old) differs entries.now (solver_state arriving.old (F.tables flow.old) (F.recorded flow.old))) result (solver_state arriving.new (F.tables flow.new) (F.recorded flow.new)) }
    ensures same { F.rules flow.new ≡ F.rules flow.old }
    ensures borrows { F.borrows flow.new ≡ F.borrows flow.old }
{
    let count = flow.blocks();
    check_blocks(alloc, flow, entries, claims, arriving, count)?;
    match not_joined(&*flow, entries, arriving)? {
        Some(block) => Err(Unsolved::NotJoin { block }),
        None => Ok(()),
    }
}

/// Checks the entry states, one for each block or none, and what is claimed of the steps from them. What is found is what
/// `solution_checked` says, by whatever tells how a recorded step differs from the claims.
pub fn check_entries<C, F: ClaimedFlow<C>>(
    alloc: Global,
    flow: &mut F,
    entries: &[Option<F::State>],
    claims: &C,
) -> Result<(), Unsolved<F::Fault, F::Difference>>
    ensures checks { (differs : _) → AreClaims F.tables F.recorded F.found claims.now differs → (progress : _) × ChecksInto F.cause (solution_checked F.State.join F.State.below (F.rules flow.old) differs entries.now (F.tables flow.old) (F.recorded flow.old)) result (solver_state progress (F.tables flow.new) (F.recorded flow.new)) }
    ensures same { F.rules flow.new ≡ F.rules flow.old }
    ensures borrows { F.borrows flow.new ≡ F.borrows flow.old }
{
    let Some(mut arriving) = begin(alloc, &*flow, entries)? else {
        return Err(Unsolved::Initial);
    };
    check_begun(alloc, flow, entries, claims, arriving.as_mut_slice())
}
