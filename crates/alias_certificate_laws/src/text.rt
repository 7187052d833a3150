//! What `certify` prints of an inference reads back as the certificate of that inference.

ghost use Rattle.std.specs.Prelude.{◌≡◌, ℕ, List, decimal, IsUtf8};
ghost use Rattle.alias_base.specs.Answer.{Gives};
ghost use Rattle.alias_lattice.specs.Reasons.{reasons_in, ReasonBits};
ghost use Rattle.alias_text.specs.Certificates.{site_text, reasons_text, key_text};
ghost use Rattle.alias_text.specs.declared.detail.Detail.TheVariants.{Certify};
ghost use Rattle.alias_text.specs.Results.{result_text};
ghost use Rattle.alias_cert_text.specs.Certificates.{certificate_of_text};
ghost use Rattle.alias_cert_text.specs.Faults.{is_memory};
ghost use Rattle.alias_cert_text.specs.Keys.{key_of};
ghost use Rattle.alias_cert_text.specs.Lines.{line_of};
ghost use Rattle.alias_cert_text.specs.Reasons.{reasons_of};
ghost use Rattle.alias_cert_text.specs.declared.line.Line.{Line};
ghost use Rattle.alias_cert_text.specs.Sites.{site_of};
ghost use Rattle.alias_cert_text.specs.Words.{number_of};
ghost use Rattle.alias_certificate_laws.specs.text.Certifying.{certificate_of};
ghost use Rattle.alias_text.specs.Fitting.{AreFitting, Small, SmallKey, SmallSite};
ghost use Rattle.alias_certificate_laws.specs.text.Inverses.{IsInverse};
ghost use Rattle.alias_certificate_laws.specs.text.Spelled.{IsSpelled};

use alias_cert_text::{CertFault, read_certificate};
use alias_certificate::Certificate;
use alias_effects::Solved;
use alias_hir::effect::AliasingEffect;
use alias_hir::env::Unit;
use alias_hir::report::Report;
use std::alloc::Global;

/// A law: the text that `certify` prints of what was inferred of a unit reads as the certificate of just that.
pub fn reads_back(
    text: &str,
    unit: &Unit,
    solved: &[Solved],
    summary: &[AliasingEffect],
    reports: &[Report],
)
    requires printed { text.now ≡ result_text Certify unit.now solved.now summary.now reports.now }
    requires fitting { AreFitting unit.now solved.now }
    ensures { certificate_of_text text.now ≡ Ok (certificate_of unit.now solved.now summary.now) }
{}

/// Reads the text that `certify` prints of what was inferred of a unit: gives the certificate of just that, or out of
/// memory.
pub fn read_printed(
    alloc: Global,
    text: &str,
    unit: &Unit,
    solved: &[Solved],
    summary: &[AliasingEffect],
    reports: &[Report],
) -> Result<Certificate, CertFault>
    requires printed { text.now ≡ result_text Certify unit.now solved.now summary.now reports.now }
    requires fitting { AreFitting unit.now solved.now }
    ensures { Gives is_memory (Ok (certificate_of unit.now solved.now summary.now)) result }
{
    reads_back(text, unit, solved, summary, reports);
    read_certificate(alloc, text.as_bytes())
}

/// A law: a number, a site, a set of reasons and a key of a temporary are read of just the texts that are printed of them.
pub fn pieces_read_back()
    ensures numbers { IsInverse Small decimal number_of }
    ensures sites { IsInverse SmallSite site_text site_of }
    ensures reasons { IsInverse ReasonBits (λ set. reasons_text (reasons_in set)) reasons_of }
    ensures keys { IsInverse SmallKey key_text key_of }
{}

/// A law: a text is read as a line only where it is UTF-8 and spells that line, in the words of what is printed.
pub fn lines_are_spelled()
    ensures { (text : List ℕ) (said : Line) → line_of text ≡ Some said → IsUtf8 text × IsSpelled said text }
{}
