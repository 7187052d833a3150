//! The effects of a call by the aliasing part of its signature.

ghost use Rattle.std.specs.Prelude.{◌≡◌, ◌++◌, [], slice_get, option_map, IfOk, OnOk};
ghost use Rattle.alias_hir.specs.ReportNumbers.{same_text};
ghost use Rattle.alias_tables.specs.GrowingLaws.{Grows};
ghost use Rattle.alias_tables.specs.Steps.{each};
ghost use Rattle.alias_tables.specs.Tables.{Leaves};
ghost use Rattle.alias_calls.specs.Arguments.{first_of};
ghost use Rattle.alias_calls.specs.Calls.{held_config};
ghost use Rattle.alias_calls.specs.Configs.{name_index, or_places, substituted_first, substituted, inner_argument, inner_arguments, with_apply, impure_step, with_impures, with_config_effect, with_config_effects, with_temporary, config_expansion};
ghost use Rattle.alias_calls.specs.Copies.{Collects, Extended, with_each, with_pairs, with_freezes};

use crate::arguments::{has_further, substituted_arguments};
use crate::call::{CallSite, ConfigCall};
use crate::copies::{PairKind, PlaceKind, push_at, push_freezes, push_pairs};
use alias_apply::reports::impure_part_report;
use alias_base::{List, Text, TryClone};
use alias_hir::effect::{AliasingEffect, AliasingEffects, ValueReason};
use alias_hir::env::Environment;
use alias_hir::place::{Place, PlaceOrSpreadOrHole};
use alias_hir::signature::{AliasingEffectConfig, AliasingSignatureConfig, ApplyArgConfig};
use alias_tables::temp_key::Name;
use alias_tables::{EffectFault, Tables, TempKey};
use std::alloc::{AllocError, Global};

fn is_text(text: &Text, other: &Text) -> bool
    ensures { result ≡ same_text text.now other.now }
{
    *text == *other
}

/// The number of the name in the list, or of the end.
fn name_index(name: &Text, names: &[Text]) -> usize
    ensures { result ≡ name_index name.now names.now }
{
    let mut index = 0usize;
    for other in names {
        if is_text(other, name) {
            return index;
        }
        index += 1;
    }
    index
}

/// What a name of an aliasing part stands for before the arguments: the target, or else the receiver, where it is their
/// name. The one error is out of memory.
fn substituted_first(
    alloc: Global,
    config: &AliasingSignatureConfig,
    site: CallSite,
    name: &Text,
) -> Result<List<Place>, AllocError>
    ensures { IfOk result (λ l. l ≡ substituted_first config.now site name.now) }
{
    let mut places = List::new(alloc);
    if is_text(&config.returns, name) {
        places.push(site.into)?;
    } else if is_text(&config.receiver, name) {
        places.push(site.receiver)?;
    }
    Ok(places)
}

/// The one place, or else the others. The one error is out of memory.
fn or_places(
    alloc: Global,
    place: Option<Place>,
    others: List<Place>,
) -> Result<List<Place>, AllocError>
    ensures { IfOk result (λ l. l ≡ or_places place others) }
{
    match place {
        Some(place) => {
            let mut places = List::new(alloc);
            places.push(place)?;
            Ok(places)
        }
        None => Ok(others),
    }
}

fn place_at(places: &[Place], index: usize) -> Option<Place>
    ensures { result ≡ slice_get places.now index }
{
    match places.get(index) {
        Some(place) => Some(*place),
        None => None,
    }
}

/// What a name stands for: a place of its own, or else what the arguments say.
fn substituted(alloc: Global, call: &ConfigCall<'_>, name: &Text) -> Result<List<Place>, AllocError>
    ensures { IfOk result (λ l. l ≡ substituted (held_config call.now) name.now) }
{
    let config = call.config;
    let mut places = substituted_first(alloc, config, call.site, name)?;
    substituted_arguments(
        alloc,
        name,
        config.params.as_slice(),
        config.rest.as_ref(),
        call.args,
        &mut places,
    )?;
    let index = name_index(name, call.names);
    or_places(alloc, place_at(call.places, index), places)
}

/// The first of the places.
fn first_of(places: &[Place]) -> Option<Place>
    ensures { result ≡ first_of places.now }
{
    match places {
        [] => None,
        [first, ..] => Some(*first),
    }
}

/// The first place that a name stands for, if there is one.
fn first_substituted(
    alloc: Global,
    call: &ConfigCall<'_>,
    name: &Text,
) -> Result<Option<Place>, AllocError>
    ensures { IfOk result (λ p. p ≡ first_of (substituted (held_config call.now) name.now)) }
{
    let places = substituted(alloc, call, name)?;
    Ok(first_of(places.as_slice()))
}

/// Appends an argument of an inner call. One that is named and has no place is dropped.
fn push_inner_argument(
    alloc: Global,
    call: &ConfigCall<'_>,
    inner: &mut List<PlaceOrSpreadOrHole>,
    argument: &ApplyArgConfig,
) -> Result<(), AllocError>
    ensures { OnOk result (inner.new ≡ inner.old ++ inner_argument (held_config call.now) argument.now) }
{
    match argument {
        ApplyArgConfig::Hole => {
            inner.push(PlaceOrSpreadOrHole::Hole)?;
            Ok(())
        }
        ApplyArgConfig::Place(name) => match first_substituted(alloc, call, name)? {
            Some(place) => {
                inner.push(PlaceOrSpreadOrHole::Place(place))?;
                Ok(())
            }
            None => Ok(()),
        },
    }
}

fn inner_arguments(
    alloc: Global,
    call: &ConfigCall<'_>,
    arguments: &[ApplyArgConfig],
) -> Result<List<PlaceOrSpreadOrHole>, AllocError>
    ensures { IfOk result (λ l. l ≡ inner_arguments (held_config call.now) arguments.now) }
{
    let mut inner = List::new(alloc);
    for argument in arguments {
        push_inner_argument(alloc, call, &mut inner, argument)?;
    }
    Ok(inner)
}

/// Appends an impure call, with its report.
#[tactic(auto, unfolding(crate::specs::Configs::impure_step))]
fn push_impure(
    tables: &mut Tables,
    out: &mut AliasingEffects,
    place: Place,
) -> Result<(), EffectFault>
    ensures answer { Extended (impure_step place out.old tables.old) result out.new tables.new }
    ensures grown { Grows tables.old.reports tables.new.reports }
{
    let report = impure_part_report(tables.alloc())?;
    let error = tables.intern_report(place.identifier, report)?;
    out.push(AliasingEffect::Impure { place, error })?;
    Ok(())
}

fn push_impures(
    tables: &mut Tables,
    out: &mut AliasingEffects,
    places: &[Place],
) -> Result<(), EffectFault>
    ensures answer { Extended (each impure_step places.now out.old tables.old) result out.new tables.new }
    ensures grown { Grows tables.old.reports tables.new.reports }
{
    for place in places {
        push_impure(tables, out, *place)?;
    }
    Ok(())
}

/// Appends an impure call for each place that the name stands for.
fn push_impures_of(
    tables: &mut Tables,
    call: &ConfigCall<'_>,
    out: &mut AliasingEffects,
    name: &Text,
) -> Result<bool, EffectFault>
    ensures answer { Collects (with_impures (substituted (held_config call.now) name.now) out.old tables.old) result out.new tables.new }
    ensures grown { Grows tables.old.reports tables.new.reports }
{
    let places = substituted(tables.alloc(), call, name)?;
    push_impures(tables, out, places.as_slice())?;
    Ok(true)
}

/// Appends a freeze of each place that the name stands for, unless one is refused.
fn push_freezes_of(
    env: &Environment,
    tables: &Tables,
    call: &ConfigCall<'_>,
    out: &mut AliasingEffects,
    reason: ValueReason,
    name: &Text,
) -> Result<bool, EffectFault>
    ensures { Collects (with_freezes env.now call.now.args.now reason (substituted (held_config call.now) name.now) out.old tables.now) result out.new tables.now }
{
    let places = substituted(tables.alloc(), call, name)?;
    push_freezes(env, tables, call.args, out, reason, places.as_slice())
}

/// Appends an effect for each place that the name stands for.
fn push_each(
    tables: &Tables,
    call: &ConfigCall<'_>,
    out: &mut AliasingEffects,
    kind: PlaceKind,
    name: &Text,
) -> Result<bool, EffectFault>
    ensures { Collects (with_each kind (substituted (held_config call.now) name.now) out.old tables.now) result out.new tables.now }
{
    let places = substituted(tables.alloc(), call, name)?;
    push_at(out, kind, places.as_slice())?;
    Ok(true)
}

/// Appends an effect for each pair of places that the names stand for.
fn push_each_pair(
    tables: &Tables,
    call: &ConfigCall<'_>,
    out: &mut AliasingEffects,
    kind: PairKind,
    from: &Text,
    into: &Text,
) -> Result<bool, EffectFault>
    ensures { Collects (with_pairs kind (substituted (held_config call.now) from.now) (substituted (held_config call.now) into.now) out.old tables.now) result out.new tables.now }
{
    let sources = substituted(tables.alloc(), call, from)?;
    let targets = substituted(tables.alloc(), call, into)?;
    push_pairs(out, kind, sources.as_slice(), targets.as_slice())?;
    Ok(true)
}

/// The places of a call that an aliasing part makes, as far as it has them.
#[derive(Clone, Copy, Debug, PartialEq, Eq)]
struct InnerPlaces {
    receiver: Option<Place>,
    function: Option<Place>,
    into: Option<Place>,
}

/// Appends a call, where receiver, function and target have places.
fn push_apply(
    tables: &Tables,
    call: &ConfigCall<'_>,
    out: &mut AliasingEffects,
    places: InnerPlaces,
    mutates_function: bool,
    arguments: &[ApplyArgConfig],
) -> Result<bool, EffectFault>
    ensures { Collects (with_apply (held_config call.now) places.receiver places.function places.into mutates_function arguments.now out.old tables.now) result out.new tables.now }
{
    let Some(receiver) = places.receiver else {
        return Ok(false);
    };
    let Some(function) = places.function else {
        return Ok(false);
    };
    let Some(into) = places.into else {
        return Ok(false);
    };
    let args = inner_arguments(tables.alloc(), call, arguments)?;
    out.push(AliasingEffect::Apply {
        receiver,
        function,
        mutates_function,
        args,
        into,
        signature: None,
        span: call.site.span,
    })?;
    Ok(true)
}

/// Appends an effect of the part for each combination of the places that its names stand for, and says whether the
/// list goes on.
fn push_config_effect(
    env: &Environment,
    tables: &mut Tables,
    call: &ConfigCall<'_>,
    out: &mut AliasingEffects,
    effect: &AliasingEffectConfig,
) -> Result<bool, EffectFault>
    ensures answer { Collects (with_config_effect env.now (held_config call.now) effect.now out.old tables.old) result out.new tables.new }
    ensures grown { Grows tables.old.reports tables.new.reports }
{
    match effect {
        AliasingEffectConfig::Freeze { value, reason } => {
            push_freezes_of(env, tables, call, out, *reason, value)
        }
        AliasingEffectConfig::Create {
            into,
            value,
            reason,
        } => push_each(tables, call, out, PlaceKind::Create(*value, *reason), into),
        AliasingEffectConfig::CreateFrom { from, into } => {
            push_each_pair(tables, call, out, PairKind::CreateFrom, from, into)
        }
        AliasingEffectConfig::Assign { from, into } => {
            push_each_pair(tables, call, out, PairKind::Assign, from, into)
        }
        AliasingEffectConfig::Alias { from, into } => {
            push_each_pair(tables, call, out, PairKind::Alias, from, into)
        }
        AliasingEffectConfig::Capture { from, into } => {
            push_each_pair(tables, call, out, PairKind::Capture, from, into)
        }
        AliasingEffectConfig::ImmutableCapture { from, into } => {
            push_each_pair(tables, call, out, PairKind::ImmutableCapture, from, into)
        }
        AliasingEffectConfig::Impure { place } => push_impures_of(tables, call, out, place),
        AliasingEffectConfig::Mutate { value } => {
            push_each(tables, call, out, PlaceKind::Mutate(None), value)
        }
        AliasingEffectConfig::MutateTransitiveConditionally { value } => push_each(
            tables,
            call,
            out,
            PlaceKind::MutateTransitiveConditionally,
            value,
        ),
        AliasingEffectConfig::Apply {
            receiver,
            function,
            mutates_function,
            args,
            into,
        } => {
            let places = InnerPlaces {
                receiver: first_substituted(tables.alloc(), call, receiver)?,
                function: first_substituted(tables.alloc(), call, function)?,
                into: first_substituted(tables.alloc(), call, into)?,
            };
            push_apply(
                tables,
                call,
                out,
                places,
                *mutates_function,
                args.as_slice(),
            )
        }
    }
}

/// Appends the effects of the part, and says whether the list goes on to its end.
fn push_config_effects(
    env: &Environment,
    tables: &mut Tables,
    call: &ConfigCall<'_>,
    out: &mut AliasingEffects,
    effects: &[AliasingEffectConfig],
) -> Result<bool, EffectFault>
    ensures answer { Collects (with_config_effects env.now (held_config call.now) effects.now out.old tables.old) result out.new tables.new }
    ensures grown { Grows tables.old.reports tables.new.reports }
{
    for effect in effects {
        if !push_config_effect(env, tables, call, out, effect)? {
            return Ok(false);
        }
    }
    Ok(true)
}

/// The list that the effects of the part give, if they give one. On every answer the reports have at most grown at their
/// end.
pub fn config_effects(
    env: &Environment,
    tables: &mut Tables,
    call: &ConfigCall<'_>,
) -> Result<Option<AliasingEffects>, EffectFault>
    ensures answer { Leaves (with_config_effects env.now (held_config call.now) call.now.config.now.effects [] tables.old) result tables.new }
    ensures grown { Grows tables.old.reports tables.new.reports }
{
    let mut out = List::new(tables.alloc());
    let effects = call.config.effects.as_slice();
    if push_config_effects(env, tables, call, &mut out, effects)? {
        return Ok(Some(out));
    }
    Ok(None)
}

/// Appends the temporary of the name, made or found.
fn push_temporary(
    env: &Environment,
    tables: &mut Tables,
    site: CallSite,
    places: &mut List<Place>,
    name: &Text,
) -> Result<(), EffectFault>
    ensures { Extended (with_temporary env.now site name.now places.old tables.old) result places.new tables.new }
{
    let text = name.try_clone(tables.alloc())?;
    let key = TempKey::Named(site.into.identifier, Name { text });
    let place = tables.temporary(env, key, site.receiver.span)?;
    places.push(place)?;
    Ok(())
}

fn push_temporaries(
    env: &Environment,
    tables: &mut Tables,
    site: CallSite,
    places: &mut List<Place>,
    names: &[Text],
) -> Result<(), EffectFault>
    ensures { Extended (each (with_temporary env.now site) names.now places.old tables.old) result places.new tables.new }
{
    for name in names {
        push_temporary(env, tables, site, places, name)?;
    }
    Ok(())
}

/// The list of a call by the aliasing part of its signature, if the part gives one.
pub fn compute_effects_for_aliasing_signature_config(
    env: &Environment,
    tables: &mut Tables,
    config: &AliasingSignatureConfig,
    site: CallSite,
    args: &[PlaceOrSpreadOrHole],
) -> Result<Option<AliasingEffects>, EffectFault>
    ensures { Leaves (config_expansion env.now config.now site args.now tables.old) result tables.new }
{
    if has_further(config.params.as_slice(), args) && !config.rest.is_some() {
        return Ok(None);
    }
    let mut temporaries = List::new(tables.alloc());
    let names = config.temporaries.as_slice();
    push_temporaries(env, tables, site, &mut temporaries, names)?;
    let call = ConfigCall {
        config,
        site,
        args,
        names,
        places: temporaries.as_slice(),
    };
    config_effects(env, tables, &call)
}
