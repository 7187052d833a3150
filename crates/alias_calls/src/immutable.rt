//! Whether the arguments of a call are immutable.

ghost use Rattle.std.specs.Prelude.{◌≡◌, option_map, None};
ghost use Rattle.std.specs.List.{list_any};
ghost use Rattle.alias_apply.specs.Progress.{first_missing};
ghost use Rattle.alias_calls.specs.Immutable.{is_mutating, writes_nothing, is_long_in, param_place, is_long_param, writes_param, is_writing_site, has_writing_site, is_still, verdict_of_place, verdict_by, signature_at, verdict_of, immutables};
ghost use Rattle.alias_apply.specs.freezing.Sites.{in_order, sites_at};

use alias_base::IdentifierId;
use alias_hir::effect::ValueKind;
use alias_hir::env::{Environment, Identifier};
use alias_hir::hir::{HirFunction, ParamPattern};
use alias_hir::place::{Effect, Place, PlaceOrSpreadOrHole};
use alias_hir::signature::FunctionSignature;
use alias_hir::types::type_of;
use alias_lattice::{InferenceState, Lattice, MissingLookup, Site, SiteSet};

/// Whether all arguments are immutable, and the first missing lookup on the way.
#[derive(Clone, Copy, Debug, PartialEq, Eq)]
pub struct Checked {
    pub holds: bool,
    pub missing: Option<MissingLookup>,
}

/// What one argument says of it. `None` where it leaves the answer to the others.
#[derive(Clone, Copy, Debug, PartialEq, Eq)]
pub struct Verdict {
    pub answer: Option<bool>,
    pub missing: Option<MissingLookup>,
}

fn is_mutating(effect: Effect) -> bool
    ensures { result ≡ is_mutating effect }
{
    matches!(
        effect,
        Effect::Store
            | Effect::Mutate
            | Effect::ConditionallyMutate
            | Effect::ConditionallyMutateIterator
    )
}

fn any_mutating(effects: &[Effect]) -> bool
    ensures { result ≡ list_any is_mutating effects.now }
{
    effects.iter().any(|effect| is_mutating(*effect))
}

/// Whether calls of the signature write no argument.
fn writes_nothing(signature: &FunctionSignature) -> bool
    ensures { result ≡ writes_nothing signature.now }
{
    let writes_rest = match signature.rest_param {
        Some(effect) => is_mutating(effect),
        None => false,
    };
    !(any_mutating(signature.positional_params.as_slice()) || writes_rest)
}

fn is_long_in(identifier: Option<&Identifier>) -> bool
    ensures { result ≡ is_long_in (option_map (λ i. i.now) identifier.entry) }
{
    match identifier {
        Some(known) => {
            let range = known.mutable_range;
            range.start.0 < range.end.0 && 1 < range.end.0 - range.start.0
        }
        None => false,
    }
}

fn param_place(param: &ParamPattern) -> Place
    ensures { result ≡ param_place param.now }
{
    match param {
        ParamPattern::Place(place) => *place,
        ParamPattern::Spread(spread) => spread.place,
    }
}

/// Whether the parameter is written in the function: its range ends above its start + 1.
fn is_long_param(env: &Environment, param: &ParamPattern) -> bool
    ensures { result ≡ is_long_param env.now param.now }
{
    is_long_in(
        env.identifiers
            .get(param_place(param).identifier.0 as usize),
    )
}

fn any_long_param(env: &Environment, params: &[ParamPattern]) -> bool
    ensures { result ≡ list_any (is_long_param env.now) params.now }
{
    params.iter().any(|param| is_long_param(env, param))
}

fn writes_param(env: &Environment, function: Option<&HirFunction>) -> bool
    ensures { result ≡ writes_param env.now (option_map (λ f. f.now) function.entry) }
{
    match function {
        Some(function) => any_long_param(env, function.params.as_slice()),
        None => false,
    }
}

/// Whether the site is a function that writes a parameter.
fn is_writing_site(env: &Environment, site: Site) -> bool
    ensures { result ≡ is_writing_site env.now site }
{
    match site {
        Site::Function(f) => writes_param(env, env.functions.get(f.0 as usize)),
        _ => false,
    }
}

/// Whether some site of the set is a function that writes a parameter.
fn has_writing_site(env: &Environment, sites: &SiteSet) -> bool
    ensures { result ≡ has_writing_site env.now (in_order sites.now) }
{
    // Does nothing: it tells the prover that this is a proper value.
    sites.recall_proper();
    let mut after = None;
    'sites: while let Some(site) = sites.next_site(after) {
        if is_writing_site(env, site) {
            return true;
        }
        after = Some(site);
    }
    false
}

/// Whether some site of the place is a function that writes a parameter.
fn has_writing_value(env: &Environment, state: &InferenceState, place: &Place) -> bool
    ensures { result ≡ has_writing_site env.now (sites_at state.now place.now.identifier) }
{
    match state.values_for(place.identifier) {
        Some(sites) => has_writing_site(env, sites),
        None => false,
    }
}

fn is_still(kind: ValueKind) -> bool
    ensures { result ≡ is_still kind }
{
    matches!(kind, ValueKind::Primitive | ValueKind::Frozen)
}

fn first_missing(first: Option<MissingLookup>, next: Option<MissingLookup>) -> Option<MissingLookup>
    ensures { result ≡ first_missing first next }
{
    match first {
        Some(lookup) => Some(lookup),
        None => next,
    }
}

/// The kind of the place is to be Primitive or Frozen, and none of its sites a function that writes a parameter.
fn verdict_of_place(
    env: &Environment,
    state: &InferenceState,
    place: &Place,
    missing: Option<MissingLookup>,
) -> Verdict
    ensures { result ≡ verdict_of_place env.now state.now place.now missing }
{
    let lookup = state.kind_with_span(place.identifier, None);
    let goes_on = is_still(lookup.value.kind) && !has_writing_value(env, state, place);
    Verdict {
        answer: if goes_on { None } else { Some(false) },
        missing: first_missing(missing, lookup.missing),
    }
}

/// A function with a signature answers at once.
fn verdict_by(
    signature: Option<&FunctionSignature>,
    env: &Environment,
    state: &InferenceState,
    place: &Place,
    missing: Option<MissingLookup>,
) -> Verdict
    ensures { result ≡ verdict_by (option_map (λ s. s.now) signature.entry) env.now state.now place.now missing }
{
    match signature {
        Some(signature) => Verdict {
            answer: Some(writes_nothing(signature)),
            missing,
        },
        None => verdict_of_place(env, state, place, missing),
    }
}

/// The signature of the function that the identifier is, if its type has one.
fn signature_at(env: &Environment, id: IdentifierId) -> Option<&FunctionSignature>
    ensures { option_map (λ s. s.now) result ≡ signature_at env.now id }
{
    match type_of(env, id) {
        Some(ty) => env.get_function_signature(ty),
        None => None,
    }
}

fn verdict_of(
    env: &Environment,
    state: &InferenceState,
    argument: &PlaceOrSpreadOrHole,
    missing: Option<MissingLookup>,
) -> Verdict
    ensures { result ≡ verdict_of env.now state.now argument.now missing }
{
    match argument {
        PlaceOrSpreadOrHole::Place(place) => {
            verdict_by(
                signature_at(env, place.identifier),
                env,
                state,
                place,
                missing,
            )
        }
        PlaceOrSpreadOrHole::Spread(spread) => verdict_of_place(env, state, &spread.place, missing),
        PlaceOrSpreadOrHole::Hole => Verdict {
            answer: None,
            missing,
        },
    }
}

/// Whether the arguments are immutable, and the first missing lookup on the way.
pub(crate) fn immutables(
    env: &Environment,
    state: &InferenceState,
    args: &[PlaceOrSpreadOrHole],
) -> Checked
    ensures { result ≡ immutables env.now state.now args.now None }
{
    let mut missing = None;
    for argument in args {
        let verdict = verdict_of(env, state, argument, missing);
        missing = verdict.missing;
        if let Some(holds) = verdict.answer {
            return Checked { holds, missing };
        }
    }
    Checked {
        holds: true,
        missing,
    }
}
