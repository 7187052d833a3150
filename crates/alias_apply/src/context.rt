//! What the steps of effects know.

ghost use Rattle.std.specs.Prelude.{◌≡◌, option_map};
ghost use Rattle.alias_apply.specs.Contexts.{held, hoisted_access, summary_of};

use alias_base::{FunctionId, IdentifierId};
use alias_facts::{Hoisted, declaration_of};
use alias_hir::effect::AliasingEffects;
use alias_hir::env::Environment;
use alias_hir::place::Place;

/// What the steps of a function's effects know, and don't change.
#[derive(Clone, Copy)]
pub struct StepContext<'a> {
    pub env: &'a Environment,
    pub hoisted: &'a Hoisted,
}

/// `None` where the identifier's declaration isn't hoisted, else the place that reads it first, if one does. A temporary,
/// which the tables don't have, has no declaration, and so isn't hoisted.
pub fn hoisted_access(context: &StepContext<'_>, id: IdentifierId) -> Option<Option<Place>>
    ensures { result ≡ hoisted_access (held context.now) id }
{
    match declaration_of(context.env, id) {
        Some(declaration) => context.hoisted.get(declaration),
        None => None,
    }
}

/// The summary of the nested function, if it has one.
pub fn summary_of(env: &Environment, function: FunctionId) -> Option<&AliasingEffects>
    ensures { option_map (λ s. s.now) result ≡ summary_of env.now function }
{
    match env.functions.get(function.0 as usize) {
        Some(function) => function.aliasing_effects.as_ref(),
        None => None,
    }
}
