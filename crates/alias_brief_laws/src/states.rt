//! Entry states of solutions.
ghost use Rattle.alias_brief_laws.specs.Accepted.{AreEntriesProper, AreStatesProper};

use alias_effects::{BlockEntry, Solved};
use alias_lattice::Lattice;

/// Tells the prover that the entry states are proper. Does nothing.
fn entries_known(entries: &[BlockEntry])
    ensures { AreEntriesProper entries.now }
{
    for entry in entries {
        // Does nothing: it tells the prover that this is a proper value.
        entry.state.recall_proper();
    }
}

/// Tells the prover that the entry states of all solutions are proper. Does nothing.
pub(crate) fn states_known(solved: &[Solved])
    ensures { AreStatesProper solved.now }
{
    for one in solved {
        entries_known(one.entries.as_slice());
    }
}
