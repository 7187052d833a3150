//! Which list of effects a call stands for, where it stands for one.

ghost use Rattle.std.specs.Prelude.{◌≡◌, option_map};
ghost use Rattle.alias_apply.specs.freezing.Sites.{in_order};
ghost use Rattle.alias_tables.specs.Tables.{Leaves};
ghost use Rattle.alias_step.specs.Operands.{held_call};
ghost use Rattle.alias_step.specs.Expansions.{function_of_site, only_function, called_function, expansion_of_summary, expansion_of_function, expansion_of_called, signature_of_type, expansion_of_config};

use crate::call::Call;
use alias_base::{FunctionId, TypeId};
use alias_calls::{compute_effects_for_aliasing_signature_config, compute_effects_for_summary};
use alias_hir::effect::AliasingEffects;
use alias_hir::env::Environment;
use alias_hir::hir::HirFunction;
use alias_hir::place::Place;
use alias_hir::signature::{AliasingSignatureConfig, FunctionSignature};
use alias_lattice::{InferenceState, Lattice, Site, SiteSet};
use alias_tables::{EffectFault, Tables};

fn function_of_site(site: Site) -> Option<FunctionId>
    ensures { result ≡ function_of_site site }
{
    match site {
        Site::Function(f) => Some(f),
        _ => None,
    }
}

/// The function of the sites, where there is exactly one.
fn only_function(sites: &SiteSet) -> Option<FunctionId>
    ensures { result ≡ only_function (in_order sites.now) }
{
    // Does nothing: it tells the prover that this is a proper value.
    sites.recall_proper();
    match sites.next_site(None) {
        Some(first) => match sites.next_site(Some(first)) {
            Some(_) => None,
            None => function_of_site(first),
        },
        None => None,
    }
}

/// The function that the place is, where it has exactly one site.
pub(crate) fn called_function(state: &InferenceState, place: Place) -> Option<FunctionId>
    ensures { result ≡ called_function state.now place }
{
    match state.values_for(place.identifier) {
        Some(sites) => only_function(sites),
        None => None,
    }
}

fn expansion_of_summary(
    env: &Environment,
    tables: &mut Tables,
    call: &Call<'_>,
    f: FunctionId,
    function: &HirFunction,
    summary: Option<&AliasingEffects>,
) -> Result<Option<AliasingEffects>, EffectFault>
    ensures { Leaves (expansion_of_summary env.now (held_call call.now) f function.now (option_map (λ s. s.now) summary.entry) tables.old) result tables.new }
{
    match summary {
        Some(effects) => compute_effects_for_summary(
            env,
            tables,
            f,
            function,
            effects.as_slice(),
            call.site.into,
            call.args,
        ),
        None => Ok(None),
    }
}

fn expansion_of_function(
    env: &Environment,
    tables: &mut Tables,
    call: &Call<'_>,
    f: FunctionId,
    function: Option<&HirFunction>,
) -> Result<Option<AliasingEffects>, EffectFault>
    ensures { Leaves (expansion_of_function env.now (held_call call.now) f (option_map (λ g. g.now) function.entry) tables.old) result tables.new }
{
    match function {
        Some(function) => {
            let summary = function.aliasing_effects.as_ref();
            expansion_of_summary(env, tables, call, f, function, summary)
        }
        None => Ok(None),
    }
}

/// The list of the summary of the function that is called, if there is one.
pub(crate) fn expansion_of_called(
    env: &Environment,
    tables: &mut Tables,
    call: &Call<'_>,
    called: Option<FunctionId>,
) -> Result<Option<AliasingEffects>, EffectFault>
    ensures { Leaves (expansion_of_called env.now (held_call call.now) called tables.old) result tables.new }
{
    match called {
        Some(f) => expansion_of_function(env, tables, call, f, env.functions.get(f.0 as usize)),
        None => Ok(None),
    }
}

/// The signature of a type, if the type has one.
pub(crate) fn signature_of_type(env: &Environment, ty: Option<TypeId>) -> Option<&FunctionSignature>
    ensures { option_map (λ s. s.now) result ≡ signature_of_type env.now ty }
{
    match ty {
        Some(ty) => match env.types.get(ty.0 as usize) {
            Some(ty) => env.get_function_signature(ty),
            None => None,
        },
        None => None,
    }
}

/// The list of the aliasing part of a signature, if there is one.
pub(crate) fn expansion_of_config(
    env: &Environment,
    tables: &mut Tables,
    call: &Call<'_>,
    config: Option<&AliasingSignatureConfig>,
) -> Result<Option<AliasingEffects>, EffectFault>
    ensures { Leaves (expansion_of_config env.now (held_call call.now) (option_map (λ p. p.now) config.entry) tables.old) result tables.new }
{
    match config {
        Some(config) => compute_effects_for_aliasing_signature_config(
            env, tables, config, call.site, call.args,
        ),
        None => Ok(None),
    }
}
