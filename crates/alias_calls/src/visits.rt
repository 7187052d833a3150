//! What the places of a call are used for.

ghost use Rattle.std.specs.Prelude.{◌≡◌, ◌++◌, ◌∷◌, [], slice_get, OnOk};
ghost use Rattle.alias_calls.specs.Visits.{iterated, visit, spread_effect, is_refused, argument_effect, or_effect, rest_use, with_refused, visit_argument, visit_arguments};

use alias_base::List;
use alias_hir::effect::{AliasingEffect, AliasingEffects, ValueReason};
use alias_hir::env::Environment;
use alias_hir::place::{Effect, Place, PlaceOrSpreadOrHole};
use alias_hir::signature::FunctionSignature;
use alias_hir::types::is_builtin_collection_at;
use std::alloc::AllocError;

/// The effects so far, the places that were stored into and those that were captured, and the first place that is
/// refused.
#[derive(Drop)]
pub struct Visits {
    pub out: AliasingEffects,
    pub stored: List<Place>,
    pub captured: List<Place>,
    pub refused: Option<Place>,
}

/// Appends a write of an iterator, unless it is one of an array, a set or a map.
fn push_iterated(
    env: &Environment,
    out: &mut AliasingEffects,
    place: Place,
) -> Result<(), AllocError>
    ensures { OnOk result (out.new ≡ out.old ++ iterated env.now place) }
{
    if !is_builtin_collection_at(env, place.identifier) {
        out.push(AliasingEffect::MutateTransitiveConditionally { value: place })?;
    }
    Ok(())
}

pub(crate) fn push(out: &mut AliasingEffects, effect: AliasingEffect) -> Result<(), AllocError>
    ensures { OnOk result (out.new ≡ out.old ++ effect ∷ []) }
{
    out.push(effect)?;
    Ok(())
}

/// What is done with a place that is used so.
pub(crate) fn visit(
    env: &Environment,
    into: Place,
    reason: ValueReason,
    place: Place,
    effect: Effect,
    visits: &mut Visits,
) -> Result<(), AllocError>
    ensures { OnOk result (visits.new ≡ visit env.now into reason place effect visits.old) }
{
    let value = place;
    match effect {
        Effect::Store => {
            push(
                &mut visits.out,
                AliasingEffect::Mutate {
                    value,
                    reason: None,
                },
            )?;
            visits.stored.push(place)?;
            Ok(())
        }
        Effect::Capture => {
            visits.captured.push(place)?;
            Ok(())
        }
        Effect::ConditionallyMutate => push(
            &mut visits.out,
            AliasingEffect::MutateTransitiveConditionally { value },
        ),
        Effect::ConditionallyMutateIterator => {
            push_iterated(env, &mut visits.out, place)?;
            push(
                &mut visits.out,
                AliasingEffect::Capture { from: place, into },
            )
        }
        Effect::Freeze => push(&mut visits.out, AliasingEffect::Freeze { value, reason }),
        Effect::Mutate => push(&mut visits.out, AliasingEffect::MutateTransitive { value }),
        Effect::Read => push(
            &mut visits.out,
            AliasingEffect::ImmutableCapture { from: place, into },
        ),
        Effect::Unknown => Ok(()),
    }
}

fn spread_effect(effect: Effect) -> Effect
    ensures { result ≡ spread_effect effect }
{
    match effect {
        Effect::Mutate => Effect::Mutate,
        Effect::ConditionallyMutate => Effect::ConditionallyMutate,
        Effect::Unknown
        | Effect::Freeze
        | Effect::Read
        | Effect::Capture
        | Effect::ConditionallyMutateIterator
        | Effect::Store => Effect::ConditionallyMutateIterator,
    }
}

fn is_refused(effect: Effect) -> bool
    ensures { result ≡ is_refused effect }
{
    match effect {
        Effect::Freeze => true,
        Effect::Unknown
        | Effect::Read
        | Effect::Capture
        | Effect::ConditionallyMutateIterator
        | Effect::ConditionallyMutate
        | Effect::Mutate
        | Effect::Store => false,
    }
}

/// What an argument is used for by the effect of its parameter, and whether it is a spread that is refused.
pub fn get_argument_effect(effect: Effect, is_spread: bool) -> (Effect, bool)
    ensures { result ≡ argument_effect effect is_spread }
{
    if is_spread {
        (spread_effect(effect), is_refused(effect))
    } else {
        (effect, false)
    }
}

fn or_effect(effect: Option<Effect>, other: Effect) -> Effect
    ensures { result ≡ or_effect effect other }
{
    match effect {
        Some(effect) => effect,
        None => other,
    }
}

/// What a further argument is used for.
fn rest_use(signature: &FunctionSignature) -> Effect
    ensures { result ≡ rest_use signature.now }
{
    or_effect(signature.rest_param, Effect::ConditionallyMutate)
}

fn positional_use(signature: &FunctionSignature, index: usize) -> Effect
    ensures { result ≡ or_effect (slice_get signature.now.positional_params index) (rest_use signature.now) }
{
    match signature.positional_params.get(index) {
        Some(effect) => *effect,
        None => rest_use(signature),
    }
}

fn refuse_first(visits: &mut Visits, is_refused: bool, place: Place)
    ensures { visits.new ≡ with_refused is_refused place visits.old }
{
    if is_refused && visits.refused.is_none() {
        visits.refused = Some(place);
    }
}

fn visit_argument(
    env: &Environment,
    signature: &FunctionSignature,
    into: Place,
    reason: ValueReason,
    index: usize,
    argument: &PlaceOrSpreadOrHole,
    visits: &mut Visits,
) -> Result<(), AllocError>
    ensures { OnOk result (visits.new ≡ visit_argument env.now signature.now into reason index argument.now visits.old) }
{
    match argument {
        PlaceOrSpreadOrHole::Place(place) => {
            let effect = positional_use(signature, index);
            visit(env, into, reason, *place, effect, visits)
        }
        PlaceOrSpreadOrHole::Spread(spread) => {
            let (effect, refused) = get_argument_effect(rest_use(signature), true);
            refuse_first(visits, refused, spread.place);
            visit(env, into, reason, spread.place, effect, visits)
        }
        PlaceOrSpreadOrHole::Hole => Ok(()),
    }
}

pub(crate) fn visit_arguments(
    env: &Environment,
    signature: &FunctionSignature,
    into: Place,
    reason: ValueReason,
    args: &[PlaceOrSpreadOrHole],
    visits: &mut Visits,
) -> Result<(), AllocError>
    ensures { OnOk result (visits.new ≡ visit_arguments env.now signature.now into reason 0 args.now visits.old) }
{
    let mut index = 0usize;
    for argument in args {
        visit_argument(env, signature, into, reason, index, argument, visits)?;
        index += 1;
    }
    Ok(())
}
