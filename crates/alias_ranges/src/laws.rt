//! What holds of the summary and of the reports of the range pass.

ghost use Rattle.std.specs.Prelude.{◌≡◌, Bool, true, Some, Ok};
ghost use Rattle.std.specs.List.{list_all};
ghost use Rattle.alias_rules.specs.Fitting.{effect_within_tables, function_fits, holds_no_call, reports_no_invariant};
ghost use Rattle.alias_range_pass.specs.Passes.{Ranged, range_pass};

use alias_hir::env::Environment;
use alias_hir::hir::HirFunction;

/// Over a function that fits, the summary that the pass answers names entries of the tables and holds no call, and no
/// report that is recorded after it says that an invariant was broken. Over a function expression, reports stay. Does
/// nothing.
pub fn pass_fits(env: &Environment, func: &HirFunction)
    requires { function_fits func.now env.now ≡ true }
    ensures within { (b : Bool) (r : Ranged) → range_pass b func.now env.now ≡ Ok r → list_all (effect_within_tables env.now) r.summary ≡ true }
    ensures calls { (b : Bool) (r : Ranged) → range_pass b func.now env.now ≡ Ok r → holds_no_call (Some r.summary) ≡ true }
    ensures expression { (r : Ranged) → range_pass true func.now env.now ≡ Ok r → r.after.1.errors ≡ env.now.errors }
    ensures sound { (b : Bool) (r : Ranged) → range_pass b func.now env.now ≡ Ok r → reports_no_invariant r.after.1 ≡ true }
{
    // A law does nothing with what it is given: its clause is what it is for.
    let _env = env;
    let _func = func;
}
