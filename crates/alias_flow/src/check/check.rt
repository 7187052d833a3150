//! The pieces of a check of entry states against a flow.
ghost use Rattle.std.specs.Prelude.{◌≡◌, ◌<◌, None, IfOk, length, option_map};
ghost use Rattle.alias_flow.specs.Machine.{send_all, up};
ghost use Rattle.alias_flow.specs.check.Checks.{refused_at, first_not_above, first_not_joined, begins, not_joined};

use crate::check::arriving::{arrive, arrive_all};
use crate::check::entries::{first_not_above, is_below_entry, is_joined_at};
use crate::check::fault::Unsolved;
use crate::{Flow, StepFault, is_forward, nothing_yet};
use alias_lattice::Lattice;
use std::alloc::{AllocError, Global};

/// Why the step of the block gave no state.
pub fn refused<E, D>(block: u32, fault: StepFault<E>) -> Unsolved<E, D>
    ensures { result ≡ refused_at block fault }
{
    match fault {
        StepFault::Refused(fault) => Unsolved::Step { block, fault },
        StepFault::Memory(e) => Unsolved::Memory(e),
    }
}

/// What has arrived at first: the initial state at the entry. `None` where the entry has no state that it is below.
pub fn begin<F: Flow>(
    alloc: Global,
    flow: &F,
    entries: &[Option<F::State>],
) -> Result<Option<Vec<Option<F::State>>>, AllocError>
    ensures { IfOk result (λ arriving. option_map (λ xs. xs.items) arriving ≡ begins F.State.join F.State.below (F.rules flow.now) entries.now) }
{
    let count = flow.blocks();
    let entry = flow.entry();
    let initial = flow.initial()?;
    if !is_below_entry(entries, &initial, entry) {
        return Ok(None);
    }
    let mut arriving = nothing_yet(alloc, count)?;
    arrive(arriving.as_mut_slice(), &initial, entry)?;
    Ok(Some(arriving))
}

/// The out state of the block arrives at its successors. Answers the first of them whose entry state it isn't below, if there
/// is one; then nothing arrives.
pub fn pass_on<F: Flow>(
    flow: &F,
    entries: &[Option<F::State>],
    arriving: &mut [Option<F::State>],
    block: u32,
    out: &F::State,
) -> Result<Option<u32>, AllocError>
    requires block { block < (F.rules flow.now).blocks }
    requires arriving { length arriving.old ≡ (F.rules flow.now).blocks }
    ensures answer { IfOk result (λ successor. successor ≡ first_not_above F.State.below entries.now out.now ((F.rules flow.now).flow.edges block)) }
    ensures arriving { IfOk result (λ successor. successor ≡ None → arriving.new ≡ send_all F.State.join out.now arriving.old ((F.rules flow.now).flow.edges block)) }
{
    let edges = flow.edges(block)?;
    match first_not_above(entries, out, edges.as_slice()) {
        Some(successor) => Ok(Some(successor)),
        None => {
            arrive_all(arriving, out, edges.as_slice())?;
            Ok(None)
        }
    }
}

/// The first of so many blocks whose entry state isn't below what has arrived there.
#[tactic(auto, using(crate::proofs::check::Rounds::up_next))]
fn first_not_joined<S: Lattice + Drop>(
    entries: &[Option<S>],
    arriving: &[Option<S>],
    count: u32,
) -> Option<u32>
    ensures { result ≡ first_not_joined S.below entries.now arriving.now (up 0 count) }
{
    for block in 0..count {
        if !is_joined_at(entries, arriving, block) {
            return Some(block);
        }
    }
    None
}

/// Where all edges go forward, the first block whose entry state isn't below what has arrived there.
pub fn not_joined<F: Flow>(
    flow: &F,
    entries: &[Option<F::State>],
    arriving: &[Option<F::State>],
) -> Result<Option<u32>, AllocError>
    ensures { IfOk result (λ block. block ≡ not_joined F.State.below (F.rules flow.now) entries.now arriving.now) }
{
    if is_forward(flow)? {
        Ok(first_not_joined(entries, arriving, flow.blocks()))
    } else {
        Ok(None)
    }
}
