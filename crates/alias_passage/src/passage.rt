//! How far a pass has come.
ghost use Rattle.std.specs.Prelude.{◌≡◌, ◌++◌, ◌∷◌, ◌<◌, [], Some, None, IfOk, OnOk, length, slice_set};
ghost use Rattle.alias_flow.specs.Solutions.{entry_at};
ghost use Rattle.alias_passage.specs.Passes.{or_empty, passage_begun};

use alias_base::List;
use alias_flow::sending::send_state;
use alias_flow::{Flow, nothing_yet};
use alias_lattice::Lattice;
use std::alloc::{AllocError, Global};

/// What has arrived at the blocks whose turn is to come, the states that the others were entered with, and what those have
/// beyond what arrived.
#[derive(Drop)]
pub struct Passage<S, B> {
    pub arriving: List<Option<S>>,
    pub entries: List<Option<S>>,
    pub beyond: List<B>,
}

/// At first the initial state arrives at the entry. The one error is out of memory.
pub fn begin<F: Flow, B: Drop>(alloc: Global, flow: &F) -> Result<Passage<F::State, B>, AllocError>
    ensures { IfOk result (λ passage. passage ≡ passage_begun F.State.join (F.rules flow.now)) }
{
    let count = flow.blocks();
    let entry = flow.entry();
    let mut arriving = List::from_vec(nothing_yet(alloc, count)?);
    let initial = flow.initial()?;
    send_state(arriving.as_mut_slice(), initial, entry)?;
    Ok(Passage {
        arriving,
        entries: List::from_vec(nothing_yet(alloc, count)?),
        beyond: List::new(alloc),
    })
}

/// What arrived at the block, which is taken out: a copy of the empty state where nothing did.
pub(crate) fn take_arrived<S: Lattice + Drop, B: Drop>(
    passage: &mut Passage<S, B>,
    empty: &S,
    block: u32,
) -> Result<S, AllocError>
    requires { block < length passage.old.arriving }
    ensures arrived { IfOk result (λ arrived. arrived ≡ or_empty empty.now (entry_at passage.old.arriving block)) }
    ensures taken { OnOk result (passage.new ≡ record { arriving = slice_set passage.old.arriving block None; entries = passage.old.entries; beyond = passage.old.beyond }) }
{
    match passage.arriving.replace(block as usize, None) {
        Some(arrived) => Ok(arrived),
        None => empty.try_clone(),
    }
}

/// Notes the state that the block is entered with.
pub(crate) fn note_entry<S: Drop, B: Drop>(
    passage: &mut Passage<S, B>,
    block: u32,
    state: S,
    beyond: B,
) -> Result<(), AllocError>
    requires { block < length passage.old.entries }
    ensures { OnOk result (passage.new ≡ record { arriving = passage.old.arriving; entries = slice_set passage.old.entries block (Some state); beyond = passage.old.beyond ++ beyond ∷ [] }) }
{
    passage.beyond.push(beyond)?;
    let _none = passage.entries.replace(block as usize, Some(state));
    Ok(())
}
