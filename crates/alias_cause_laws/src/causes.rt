//! What holds of the causes of ranges, in what is inferred of a unit that is well formed.

ghost use Rattle.std.specs.Prelude.{◌≡◌, Ok};
ghost use Rattle.alias_cause_laws.specs.causes.Causes.{EachHasCause};
ghost use Rattle.alias_nested.specs.Units.{UnitAnalysis, unit_analysed};
ghost use Rattle.alias_rules.specs.Functions.{rules_hold};

use alias_hir::env::Unit;

/// In what is inferred of a unit that is well formed no explanation says that a range ends without a cause: of each identifier that stands
/// in a function and is none of its context places, the end was unset as the function's range pass began, and is the one that
/// this pass left. Does nothing.
pub fn cause_laws(unit: &Unit)
    ensures { (a : UnitAnalysis) → rules_hold unit.now ≡ Ok tt → unit_analysed unit.now ≡ Ok a → EachHasCause a.inferred }
{
    // A law does nothing with what it is given: its clause is what it is for.
    let _unit = unit;
}
