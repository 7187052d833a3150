//! The summaries that the range pass answers are in order.

ghost use Rattle.std.specs.Prelude.{◌≡◌, Option, Ok};
ghost use Rattle.alias_base.specs.declared.ids.FunctionId.{FunctionId};
ghost use Rattle.alias_rules.specs.function_rules.Rules.{places_distinct};
ghost use Rattle.alias_range_pass.specs.Passes.{Ranged, range_pass};
ghost use Rattle.alias_completeness.specs.Callable.{IsSummary};

use alias_hir::env::Environment;
use alias_hir::hir::HirFunction;

/// The summary that the range pass answers of a function whose own identifiers are distinct is in order: reports, then writes of
/// context places and parameters, then one new value for what is returned, and then the flows, of which those into what is returned
/// are aliases, and others captures. Does nothing.
pub fn summary_laws(env: &Environment, func: &HirFunction, is_function_expression: bool)
    ensures { (f : Option FunctionId) (r : Ranged) → places_distinct f func.now ≡ Ok tt → range_pass is_function_expression func.now env.now ≡ Ok r → IsSummary func.now.returns.identifier.0 r.summary }
{
    // A law does nothing with what it is given: its clause is what it is for.
    let _env = env;
    let _func = func;
    let _is_function_expression = is_function_expression;
}
