//! What follows for a unit, and whether a text is what follows for it.
ghost use Rattle.std.specs.Prelude.{◌≡◌, Ok};
ghost use Rattle.alias_hir.specs.declared.env.Unit.{Unit as HirUnit};
ghost use Rattle.alias_read.specs.Units.{UnitReading};
ghost use Rattle.alias_rules.specs.Functions.{rules_hold};
ghost use Rattle.alias_run.specs.Findings.{IsBriefedOf, IsVerifiedAs};

use crate::answer::Answer;
use crate::outcome::{Outcome, done, ended};
use crate::status::{Status, brief_status};
use alias_base::List;
use alias_brief::brief;
use alias_brief_laws::laws::brief_accepted;
use alias_effects::Solved;
use alias_hir::env::Unit;
use alias_nested::Inferred;
use alias_rules::check::{Checked, check_unit};
use alias_straight::read_unit;
use alias_verify::verify;
use std::alloc::Global;

/// The solutions of what was inferred: the unit and all else is dropped.
fn solutions_of(inferred: Inferred) -> List<Solved>
    ensures { result ≡ inferred.solved }
{
    let Inferred { solved, .. } = inferred;
    solved
}

/// The text that follows for a unit that is well formed from these solutions.
fn brief_from(alloc: Global, unit: Checked, solved: &[Solved]) -> Outcome
    ensures { IsBriefedOf solved.now unit result.status result.answer }
{
    // Looked at for what the clause of `unit` says: the unit is well formed.
    let _unit = unit.unit();
    match brief(alloc, unit, solved) {
        Ok(text) => {
            // Does nothing: it tells the prover that `verify` accepts the text.
            brief_accepted(text.as_str(), solved);
            done(Answer::Briefed(text))
        }
        Err(fault) => ended(brief_status(fault)),
    }
}

/// The text that follows for a unit from these solutions.
fn brief_unit(alloc: Global, unit: Unit, solved: &[Solved]) -> Outcome
    ensures { rules_hold unit ≡ Ok tt → IsBriefedOf solved.now unit result.status result.answer }
{
    match check_unit(alloc, unit) {
        Ok(checked) => brief_from(alloc, checked, solved),
        Err(fault) => ended(Status::from(fault)),
    }
}

/// The text that follows for the unit that these bytes spell from these solutions.
fn brief_again(alloc: Global, again: &[u8], solved: &[Solved]) -> Outcome
    ensures { (u : HirUnit) → UnitReading again.now u → rules_hold u ≡ Ok tt → IsBriefedOf solved.now u result.status result.answer }
{
    match read_unit(alloc, again) {
        Ok(unit) => brief_unit(alloc, unit, solved),
        Err(fault) => ended(Status::from(fault)),
    }
}

/// The text that follows for the unit that these bytes spell from what was inferred of it. The inference took the unit over,
/// and so it is read once more.
pub(crate) fn brief_inferred(alloc: Global, again: &[u8], inferred: Inferred) -> Outcome
    ensures { (u : HirUnit) → UnitReading again.now u → rules_hold u ≡ Ok tt → IsBriefedOf inferred.solved u result.status result.answer }
{
    let found = solutions_of(inferred);
    brief_again(alloc, again, found.as_slice())
}

/// Whether a text is exactly the one that follows for a unit from what it says itself.
pub(crate) fn verify_checked(alloc: Global, unit: Checked, text: &[u8]) -> Outcome
    ensures { IsVerifiedAs text.now unit result.status result.answer }
{
    match verify(alloc, unit, text) {
        Ok(functions) => done(Answer::Verified(functions)),
        Err(fault) => ended(Status::from(fault)),
    }
}
