//! What holds of what is handed out of a unit that is well formed, beside its solutions.

ghost use Rattle.std.specs.Prelude.{◌≡◌, Ok};
ghost use Rattle.std.specs.List.{AllByRecursion};
ghost use Rattle.alias_cause_laws.specs.handed.Captures.{CreatedAreSummarized};
ghost use Rattle.alias_cause_laws.specs.handed.Carried.{NoMoreIsCarried};
ghost use Rattle.alias_cause_laws.specs.handed.HandedOut.{IsHandedOut};
ghost use Rattle.alias_cause_laws.specs.handed.Seen.{EachLooksAsHanded};
ghost use Rattle.alias_cause_laws.specs.handed.Spans.{ParamsStay};
ghost use Rattle.alias_cause_laws.specs.handed.Tables.{DeclareAsGiven};
ghost use Rattle.alias_nested.specs.Analysis.{SolvesItsFlow};
ghost use Rattle.alias_nested.specs.Units.{UnitAnalysis, unit_analysed};
ghost use Rattle.alias_rules.specs.Functions.{rules_hold};

use alias_hir::env::Unit;

/// In what is inferred of a unit that is well formed an instruction of which the solution of its function has no effects
/// carries none, and neither does such a terminal. Does nothing.
pub fn carry_laws(unit: &Unit)
    ensures { (a : UnitAnalysis) → rules_hold unit.now ≡ Ok tt → unit_analysed unit.now ≡ Ok a → NoMoreIsCarried a }
{
    // A law does nothing with what it is given: its clause is what it is for.
    let _unit = unit;
}

/// In what is inferred of a unit each effects pass found what the unit declares, with an identifier and a type for each
/// temporary of the passes before it, and nothing else; and so it stands in what is handed out. Does nothing.
pub fn table_laws(unit: &Unit)
    ensures { (a : UnitAnalysis) → unit_analysed unit.now ≡ Ok a → DeclareAsGiven unit.now a }
{
    let _unit = unit;
}

/// In what is inferred of a unit that is well formed the parameters of a nested function have, once it is analysed, the
/// ranges that they have in what is handed out: so each effects pass of a later function finds them. Does nothing.
pub fn span_laws(unit: &Unit)
    ensures { (a : UnitAnalysis) → rules_hold unit.now ≡ Ok tt → unit_analysed unit.now ≡ Ok a → ParamsStay a }
{
    let _unit = unit;
}

/// In what is inferred of a unit that is well formed each effects pass found the functions that its function creates as
/// they are handed out, but that their context places had the effects which their summaries give: those that the summary
/// captures or mutates were captured, and no others. Does nothing.
pub fn capture_laws(unit: &Unit)
    ensures { (a : UnitAnalysis) → rules_hold unit.now ≡ Ok tt → unit_analysed unit.now ≡ Ok a → CreatedAreSummarized a }
{
    let _unit = unit;
}

/// In what is inferred of a unit that is well formed each effects pass began over an environment that looks to it like one
/// that is computed of what is handed out, without the temporaries from its own on. Does nothing.
pub fn look_laws(unit: &Unit)
    ensures { (a : UnitAnalysis) → rules_hold unit.now ≡ Ok tt → unit_analysed unit.now ≡ Ok a → EachLooksAsHanded a }
{
    let _unit = unit;
}

/// What is handed out of a unit that is well formed, where its solutions solve their flows: each function once, in order,
/// with the effects of its solution and no others, solved over tables that are in what is handed out. Does nothing.
pub fn handed_laws(unit: &Unit)
    ensures { (a : UnitAnalysis) → rules_hold unit.now ≡ Ok tt → unit_analysed unit.now ≡ Ok a → AllByRecursion SolvesItsFlow a.functions → IsHandedOut unit.now a }
{
    let _unit = unit;
}
