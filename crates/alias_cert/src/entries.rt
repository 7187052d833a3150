//! Entry states that are handed out.
ghost use Rattle.alias_cert.specs.Known.{AreKnown};

use alias_effects::BlockEntry;
use alias_lattice::Lattice;

/// Tells the prover that all entry states are proper. Does nothing.
pub fn entries_known(entries: &[BlockEntry])
    ensures { AreKnown entries.now }
{
    for entry in entries {
        // Does nothing: it tells the prover that this is a proper value.
        entry.state.recall_proper();
    }
}
