//! Values of lines that are proper.
ghost use Rattle.alias_follow.specs.lines.Known.{AreKnown, AreLinesKnown};

use alias_certificate::{CertBlock, CertValue};
use alias_lattice::Lattice;

/// Tells the prover that the values are proper. Does nothing.
fn values_known(values: &[CertValue])
    ensures { AreKnown values.now }
{
    for value in values {
        // Does nothing: it tells the prover that this is a proper value.
        value.value.recall_proper();
    }
}

/// Tells the prover that the values of all lines are proper. Does nothing.
pub(crate) fn lines_known(lines: &[CertBlock])
    ensures { AreLinesKnown lines.now }
{
    for line in lines {
        values_known(line.values.as_slice());
    }
}
