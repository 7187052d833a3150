//! `verify`: whether a text is one that follows for a unit from what it says.
ghost use Rattle.std.specs.Prelude.{length};
ghost use Rattle.alias_base.specs.Answer.{Gives};
ghost use Rattle.alias_brief.specs.Briefs.{brief_text};
ghost use Rattle.alias_brief.specs.Differences.{first_difference};
ghost use Rattle.alias_brief.specs.Verifying.{compared_by, FollowsAs, Verifies, is_memory};
ghost use Rattle.alias_unit_completeness.specs.Refusals.{IsForwardUnit};
ghost use Rattle.alias_verify.specs.Printing.{PrintsIfOk, PrintsForIfOk};

use crate::forward::is_forward_unit;
use alias_base::{List, Text};
use alias_brief::difference::first_difference;
use alias_brief::{VerifyFault, text_of};
use alias_brief_text_laws::laws::briefs_read_back;
use alias_cert_text::read_certificate;
use alias_certificate::Certificate;
use alias_follow::{Followed, follow};
use alias_forward_laws::laws::forward_units_alike_law;
use alias_rules::check::Checked;
use std::alloc::Global;

/// How many functions the unit has, where the text is that of what follows for it.
fn compare(alloc: Global, followed: &Followed, text: &[u8]) -> Result<usize, VerifyFault>
    ensures compared { Gives is_memory (compared_by (length followed.now.inferred.solved) (first_difference (brief_text followed.now) text.now)) result }
    ensures printed { PrintsIfOk followed.now text.now result }
{
    let expected = text_of(alloc, followed)?;
    match first_difference(expected.as_str(), text) {
        None => Ok(followed.inferred.solved.len()),
        Some(difference) => Err(VerifyFault::Differs {
            number: difference.number,
            line: Text::from_str(alloc, difference.line)?,
        }),
    }
}

/// How many functions the unit has, where the text is what follows for it from what is given of its functions.
fn verify_given(
    alloc: Global,
    unit: Checked,
    given: &Certificate,
    text: &[u8],
) -> Result<usize, VerifyFault>
    ensures follows { FollowsAs given.now text.now unit result }
    ensures printed { PrintsForIfOk given.now.functions unit text.now result }
{
    let followed = follow(alloc, unit, given)?;
    compare(alloc, &followed, text)
}

/// How many functions the unit has, where the text is read first, and what follows from what it says is compared with it.
fn verify_read(alloc: Global, unit: Checked, text: &[u8]) -> Result<usize, VerifyFault>
    ensures { Verifies text.now unit result }
{
    let given = read_certificate(alloc, text)?;
    verify_given(alloc, unit, &given, text)
}

/// How many functions the unit has, where the same follows for it whatever the text says. It is read only where it isn't
/// the one that follows: a line that isn't in the grammar is the first fault then.
fn verify_forward(alloc: Global, unit: Checked, text: &[u8]) -> Result<usize, VerifyFault>
    requires { IsForwardUnit unit }
    ensures { Verifies text.now unit result }
{
    // Looked at for what the clauses say: the unit is well formed.
    let _unit = unit.unit();
    // These do nothing: they tell the prover that what follows doesn't depend on what is given, and that its text reads as
    // a certificate.
    forward_units_alike_law();
    briefs_read_back();
    let nothing = Certificate {
        functions: List::new(alloc),
    };
    match verify_given(alloc, unit, &nothing, text) {
        Ok(functions) => Ok(functions),
        Err(fault) => {
            let _said = read_certificate(alloc, text)?;
            Err(fault)
        }
    }
}

/// How many functions a unit that is well formed has, where the text is exactly the one that follows for it from the entry
/// states and the temporaries that the text itself says: then these solve the flow of each function. The unit is dropped on
/// `Err`.
///
/// Each reached block of a function steps once. Where no edge of the unit goes back the text is compared without being read.
/// docs/MODEL.md has the rules, and docs/FORMAT.md the text.
pub fn verify(alloc: Global, unit: Checked, text: &[u8]) -> Result<usize, VerifyFault>
    ensures { Verifies text.now unit result }
{
    if is_forward_unit(unit.unit()) {
        verify_forward(alloc, unit, text)
    } else {
        verify_read(alloc, unit, text)
    }
}
