//! What an effects pass looks at: what is declared, and the functions that its function creates, and no other ones.
#![tactic(auto)]

ghost use Rattle.std.specs.Prelude.{◌≡◌, Bool, true, Ok};
ghost use Rattle.alias_base.specs.declared.ids.FunctionId.{FunctionId};
ghost use Rattle.alias_effects.specs.Inference.{pass_end, end_tables};
ghost use Rattle.alias_effects.specs.Solutions.{IsSolved, IsSolvedUnder};
ghost use Rattle.alias_effects.specs.declared.output.PassEnd.{PassEnd};
ghost use Rattle.alias_effects_laws.specs.entries.Named.{BlocksCreate};
ghost use Rattle.alias_rules.specs.Fitting.{function_fits};
ghost use Rattle.alias_seen_laws.specs.Beside.{Others, with_others, HasSame};

use alias_hir::env::Environment;
use alias_hir::hir::HirFunction;

/// What the effects pass of a function hands out solves the function's flow over any other environment too that declares the same, and where
/// the functions that the function's blocks create are the same, with parameters that are written alike: those that a test holds of,
/// where it holds of each of these. Other functions, ranges and reports are not looked at. Does nothing.
pub fn beside_laws(env: &Environment, func: &HirFunction, is_function_expression: bool)
    requires { function_fits func.now env.now ≡ true }
    ensures { (has : FunctionId → Bool) (o : Others) (e : PassEnd) → BlocksCreate (λ f. has f ≡ true) func.now → HasSame (λ f. has f ≡ true) env.now o → pass_end env.now func.now is_function_expression ≡ Ok e → IsSolved env.now func.now is_function_expression e.solved → IsSolvedUnder (with_others env.now o) func.now is_function_expression (end_tables e) e.solved }
{
    // A law does nothing with what it is given: its clause is what it is for.
    let _env = env;
    let _func = func;
    let _is_function_expression = is_function_expression;
}
