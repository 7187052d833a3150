//! What arrives at blocks, and what stands there.
ghost use Rattle.std.specs.Prelude.{◌≡◌, ◌<◌, OnOk, length};
ghost use Rattle.std.specs.List.{AllByRecursion};
ghost use Rattle.alias_flow.specs.Machine.{send_all};
ghost use Rattle.alias_flow.specs.check.Checks.{is_below_entry, first_not_above};
ghost use Rattle.alias_passage.specs.Passes.{forward_edges, back_edges};

use alias_flow::sending::{send_copy, send_state};
use alias_lattice::Lattice;
use std::alloc::AllocError;

/// Copies of the state arrive over those edges of the block that go forward.
fn arrive_copied<S: Lattice + Drop>(
    arriving: &mut [Option<S>],
    state: &S,
    block: u32,
    edges: &[u32],
) -> Result<(), AllocError>
    requires { AllByRecursion (λ e. e < length arriving.old) edges.now }
    ensures sent { OnOk result (arriving.new ≡ send_all S.join state.now arriving.old (forward_edges block edges.now)) }
    ensures length { OnOk result (length arriving.new ≡ length arriving.old) }
{
    for edge in edges {
        if block < *edge {
            send_copy(arriving, state, *edge)?;
        }
    }
    Ok(())
}

/// The state arrives over those edges of the block that go forward: the state itself over the last edge, and copies of it
/// over the others.
#[tactic(auto, using(crate::proofs::Sending::sends_last, crate::proofs::Sending::all_but_last))]
pub(crate) fn arrive_forward<S: Lattice + Drop>(
    arriving: &mut [Option<S>],
    state: S,
    block: u32,
    edges: &[u32],
) -> Result<(), AllocError>
    requires { AllByRecursion (λ e. e < length arriving.old) edges.now }
    ensures { OnOk result (arriving.new ≡ send_all S.join state arriving.old (forward_edges block edges.now)) }
{
    let Some((last, others)) = edges.split_last() else {
        return Ok(());
    };
    arrive_copied(arriving, &state, block, others)?;
    if block < *last {
        send_state(arriving, state, *last)?;
    }
    Ok(())
}

/// Whether the block has an entry state that the state is below.
fn is_below_entry<S: Lattice + Drop>(entries: &[Option<S>], state: &S, block: u32) -> bool
    ensures { result ≡ is_below_entry S.below entries.now state.now block }
{
    match entries.get(block as usize) {
        Some(Some(entry)) => state.is_below(entry),
        _ => false,
    }
}

/// The first of the blocks that edges of the block go back to, whose entry state the state isn't below.
pub(crate) fn first_not_above<S: Lattice + Drop>(
    entries: &[Option<S>],
    state: &S,
    block: u32,
    edges: &[u32],
) -> Option<u32>
    ensures { result ≡ first_not_above S.below entries.now state.now (back_edges block edges.now) }
{
    for edge in edges {
        let is_back = *edge <= block;
        if is_back && !is_below_entry(entries, state, *edge) {
            return Some(*edge);
        }
    }
    None
}
