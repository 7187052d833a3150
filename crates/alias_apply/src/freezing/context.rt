//! The context places of nested functions.

ghost use Rattle.std.specs.Prelude.{◌≡◌};
ghost use Rattle.alias_apply.specs.freezing.Contexts.{context_of};

use alias_base::FunctionId;
use alias_hir::env::Environment;
use alias_hir::place::Place;

/// The places that the nested function takes from around it. None where its number is past the end of the table.
pub fn context_of(env: &Environment, function: FunctionId) -> &[Place]
    ensures { result.now ≡ context_of env.now function }
{
    match env.functions.get(function.0 as usize) {
        Some(function) => function.context.as_slice(),
        None => &[],
    }
}
