//! What holds of what is handed out of a unit that is well formed.

ghost use Rattle.std.specs.Prelude.{◌≡◌, Ok};
ghost use Rattle.alias_rules.specs.Functions.{rules_hold};
ghost use Rattle.alias_nested.specs.Units.{UnitAnalysis, unit_analysed, InfersUnit};
ghost use Rattle.alias_nested.specs.declared.infer.Inferred.{Inferred};
ghost use Rattle.alias_inferred_laws.specs.handed.Handed.{EarlierStay, IsSolvedInOrder};

use alias_hir::env::Unit;

/// What a call hands out that infers a unit that is well formed: a solution of each function once, innermost first, and of the root last. As the effects
/// pass on a function began, each function that was analysed before it, among them those that it creates, was what it is in the unit that is handed out,
/// its summary and its parameters too, but for the effects of its context places. Does nothing.
pub fn handed_laws(unit: &Unit)
    ensures earlier { (a : UnitAnalysis) → rules_hold unit.now ≡ Ok tt → unit_analysed unit.now ≡ Ok a → EarlierStay a }
    ensures solved { (i : Inferred) → rules_hold unit.now ≡ Ok tt → InfersUnit (unit_analysed unit.now) (Ok i) → IsSolvedInOrder unit.now i }
{
    // A law does nothing with what it is given: its clause is what it is for.
    let _unit = unit;
}
