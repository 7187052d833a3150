//! Entry states, as somebody says them.
ghost use Rattle.std.specs.Prelude.{◌≡◌, Some, option_map};
ghost use Rattle.alias_flow.specs.Solutions.{entry_at};
ghost use Rattle.alias_flow.specs.check.Checks.{is_below_entry, first_not_above, is_joined};

use alias_lattice::Lattice;

/// The entry state of the block, if it has one.
pub(crate) fn entry_of<S>(entries: &[Option<S>], block: u32) -> Option<&S>
    ensures { option_map (λ state. state.now) result ≡ entry_at entries.now block }
{
    match entries.get(block as usize) {
        Some(Some(entry)) => Some(entry),
        _ => None,
    }
}

/// Whether the block has an entry state that the state is below.
pub(crate) fn is_below_entry<S: Lattice + Drop>(
    entries: &[Option<S>],
    state: &S,
    block: u32,
) -> bool
    ensures { result ≡ is_below_entry S.below entries.now state.now block }
{
    match entries.get(block as usize) {
        Some(Some(entry)) => state.is_below(entry),
        _ => false,
    }
}

/// The first of the blocks whose entry state the state isn't below.
pub(crate) fn first_not_above<S: Lattice + Drop>(
    entries: &[Option<S>],
    state: &S,
    blocks: &[u32],
) -> Option<u32>
    ensures { result ≡ first_not_above S.below entries.now state.now blocks.now }
{
    for block in blocks {
        if !is_below_entry(entries, state, *block) {
            return Some(*block);
        }
    }
    None
}

/// Whether the block has no entry state, or one that is below what has arrived.
pub(crate) fn is_joined_at<S: Lattice + Drop>(
    entries: &[Option<S>],
    arriving: &[Option<S>],
    block: u32,
) -> bool
    ensures { result ≡ is_joined S.below (entry_at entries.now block) (entry_at arriving.now block) }
{
    match entries.get(block as usize) {
        Some(Some(state)) => is_below_entry(arriving, state, block),
        _ => true,
    }
}

/// Tells the prover that all entry states are proper. Does nothing.
pub fn all_known<S: Lattice + Drop>(entries: &[Option<S>])
    ensures { (b : _) (s : S) → entry_at entries.now b ≡ Some s → S.proper s }
{
    for entry in entries {
        if let Some(state) = entry {
            // Does nothing: it tells the prover that this is a proper value.
            state.recall_proper();
        }
    }
}
