//! What holds of what is inferred of a unit that is well formed.

ghost use Rattle.std.specs.Prelude.{◌≡◌, Ok};
ghost use Rattle.alias_rules.specs.Functions.{rules_hold};
ghost use Rattle.alias_nested.specs.Units.{UnitAnalysis, unit_analysed};
ghost use Rattle.alias_inferred_laws.specs.inferred.Explanations.{NeverTooMany};
ghost use Rattle.alias_inferred_laws.specs.inferred.Reports.{LintsAreReports};
ghost use Rattle.alias_inferred_laws.specs.inferred.Solutions.{SolutionsAreCarried};

use alias_hir::env::Unit;

/// The root of what is inferred of a unit that is well formed has lints, and without their places these are the reports, in
/// order. Does nothing.
pub fn lint_laws(unit: &Unit)
    ensures { (a : UnitAnalysis) → rules_hold unit.now ≡ Ok tt → unit_analysed unit.now ≡ Ok a → LintsAreReports a.inferred }
{
    // A law does nothing with what it is given: its clause is what it is for.
    let _unit = unit;
}

/// No explanation in what is inferred of a unit that is well formed is refused for want of numbers. Does nothing.
pub fn explain_laws(unit: &Unit)
    ensures { (a : UnitAnalysis) → rules_hold unit.now ≡ Ok tt → unit_analysed unit.now ≡ Ok a → NeverTooMany a.inferred }
{
    let _unit = unit;
}

/// Each function of what is inferred of a unit that is well formed carries, as it is handed out, the effects of its solution: nothing after
/// its effects pass changed these. Does nothing.
pub fn carry_laws(unit: &Unit)
    ensures { (a : UnitAnalysis) → rules_hold unit.now ≡ Ok tt → unit_analysed unit.now ≡ Ok a → SolutionsAreCarried a }
{
    let _unit = unit;
}
