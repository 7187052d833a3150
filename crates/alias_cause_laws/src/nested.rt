//! What holds of ranges and summaries, of a function that the range pass ran on, and of the nested functions of what is inferred of a unit that
//! is well formed.

ghost use Rattle.std.specs.Prelude.{◌≡◌, Bool, true, Ok};
ghost use Rattle.alias_nested.specs.Units.{UnitAnalysis, unit_analysed};
ghost use Rattle.alias_cause_laws.specs.nested.Leaving.{LeavesRanges};
ghost use Rattle.alias_cause_laws.specs.nested.Nested.{NestedAreRanged};
ghost use Rattle.alias_range_pass.specs.Passes.{Ranged, range_pass};
ghost use Rattle.alias_rules.specs.Fitting.{function_fits};
ghost use Rattle.alias_rules.specs.Functions.{rules_hold};

use alias_hir::env::{Environment, Unit};
use alias_hir::hir::HirFunction;

/// What the range pass leaves of a function that the inference takes, by its equation: ranges end past the recorded mutations that legal paths
/// join to their identifiers, and cover the heap; what such a path leads to with Definite is marked as Definite; each end is that of before or has a
/// cause; and the summary ends with the flows. Does nothing.
pub fn range_pass_laws(env: &Environment, func: &HirFunction)
    ensures { (b : Bool) (r : Ranged) → function_fits func.now env.now ≡ true → range_pass b func.now env.now ≡ Ok r → LeavesRanges b func.now env.now r }
{
    // A law does nothing with what it is given: its clause is what it is for.
    let _env = env;
    let _func = func;
}

/// Of each nested function of what is inferred of a unit that is well formed, in the unit that is handed out: but for its context places, whose
/// ranges are those of the functions around it, ranges end past the recorded mutations that legal paths join to their identifiers, and cover the
/// heap, and each end is unset or has a cause; what such a path leads to with Definite is marked as Definite; and the summary ends with the
/// function's flows. Does nothing.
pub fn nested_range_laws(unit: &Unit)
    ensures { (a : UnitAnalysis) → rules_hold unit.now ≡ Ok tt → unit_analysed unit.now ≡ Ok a → NestedAreRanged a }
{
    let _unit = unit;
}
