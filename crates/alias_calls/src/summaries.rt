//! The effects of a call by the summary of a function.

ghost use Rattle.std.specs.Prelude.{◌≡◌, ◌∷◌, [], Option, Some, None, IfOk};
ghost use Rattle.std.specs.List.{list_any};
ghost use Rattle.alias_tables.specs.Tables.{Leaves};
ghost use Rattle.alias_calls.specs.Calls.{held_summary};
ghost use Rattle.alias_calls.specs.Copies.{Collects, with_each, with_pairs, with_freezes};
ghost use Rattle.alias_calls.specs.Summaries.{same_id, plain_params, last_spread, rest_or_temporary, names_with, summary_names, substituted_context, returned, substituted_for, copied, with_copied, with_copies, with_all_copies, is_spread, needs_rest, names_expansion, summary_expansion};
ghost use Rattle.alias_calls.specs.declared.summaries.SummaryEffect.TheVariants.{OfPair, OfPlace};

use crate::arguments::substituted_arguments;
use crate::call::{SummaryCall, SummaryNames};
use crate::copies::{PairKind, PlaceKind, push_at, push_freezes, push_pairs};
use alias_base::{FunctionId, IdentifierId, List};
use alias_hir::effect::{AliasingEffect, AliasingEffects, ValueReason};
use alias_hir::env::Environment;
use alias_hir::hir::{HirFunction, ParamPattern};
use alias_hir::place::{Place, PlaceOrSpreadOrHole};
use alias_tables::{EffectFault, Tables, TempKey};
use std::alloc::{AllocError, Global};

/// What is copied of an effect of a summary.
#[derive(Clone, Copy, Debug, PartialEq, Eq)]
pub enum SummaryEffect {
    OfPair(PairKind, IdentifierId, IdentifierId),
    OfPlace(PlaceKind, IdentifierId),
    OfFreeze(ValueReason, IdentifierId),
    /// Nothing.
    Passed,
    /// There is no list.
    GivenUp,
}

/// The plain parameters, in order.
pub fn plain_params(
    alloc: Global,
    params: &[ParamPattern],
) -> Result<List<IdentifierId>, AllocError>
    ensures { IfOk result (λ l. l ≡ plain_params params.now) }
{
    let mut plain = List::new(alloc);
    for param in params {
        match param {
            ParamPattern::Place(place) => plain.push(place.identifier)?,
            ParamPattern::Spread(_) => {}
        }
    }
    Ok(plain)
}

/// The last spread parameter.
pub fn last_spread(params: &[ParamPattern]) -> Option<IdentifierId>
    ensures { result ≡ last_spread params.now None }
{
    let mut last = None;
    for param in params {
        match param {
            ParamPattern::Place(_) => {}
            ParamPattern::Spread(spread) => last = Some(spread.place.identifier),
        }
    }
    last
}

/// What further arguments stand for: the spread parameter, or else a temporary.
fn rest_or_temporary(
    env: &Environment,
    tables: &mut Tables,
    rest: Option<IdentifierId>,
    f: FunctionId,
    function: &HirFunction,
) -> Result<IdentifierId, EffectFault>
    ensures { Leaves (rest_or_temporary rest env.now f function.now tables.old) result tables.new }
{
    match rest {
        Some(rest) => Ok(rest),
        None => {
            let place = tables.temporary(env, TempKey::Rest(f), function.span)?;
            Ok(place.identifier)
        }
    }
}

fn names_with(
    alloc: Global,
    function: &HirFunction,
    rest: IdentifierId,
) -> Result<SummaryNames, AllocError>
    ensures { IfOk result (λ s. s ≡ names_with function.now rest) }
{
    Ok(SummaryNames {
        params: plain_params(alloc, function.params.as_slice())?,
        rest: Some(rest),
        returns: function.returns.identifier,
    })
}

/// The names of the function's summary. Where no parameter takes further arguments, a temporary does.
pub fn build_signature_from_function_expression(
    env: &Environment,
    tables: &mut Tables,
    f: FunctionId,
    function: &HirFunction,
) -> Result<SummaryNames, EffectFault>
    ensures { Leaves (summary_names env.now f function.now tables.old) result tables.new }
{
    let rest = last_spread(function.params.as_slice());
    let rest = rest_or_temporary(env, tables, rest, f, function)?;
    Ok(names_with(tables.alloc(), function, rest)?)
}

fn is_same(a: IdentifierId, b: IdentifierId) -> bool
    ensures { result ≡ same_id a b }
{
    a == b
}

/// The one place.
fn just(alloc: Global, place: Place) -> Result<List<Place>, AllocError>
    ensures { IfOk result (λ l. l ≡ place ∷ []) }
{
    let mut places = List::new(alloc);
    places.push(place)?;
    Ok(places)
}

/// A context place stands for itself.
fn substituted_context(
    alloc: Global,
    identifier: IdentifierId,
    context: &[Place],
    before: List<Place>,
) -> Result<List<Place>, AllocError>
    ensures { IfOk result (λ l. l ≡ substituted_context identifier context.now before) }
{
    let mut so_far = before;
    for place in context {
        if is_same(place.identifier, identifier) {
            so_far = just(alloc, *place)?;
        }
    }
    Ok(so_far)
}

fn returned(
    alloc: Global,
    names: &SummaryNames,
    into: Place,
    identifier: IdentifierId,
) -> Result<List<Place>, AllocError>
    ensures { IfOk result (λ l. l ≡ returned names.now into identifier) }
{
    if is_same(names.returns, identifier) {
        return just(alloc, into);
    }
    Ok(List::new(alloc))
}

/// What an identifier of the summary stands for.
fn substituted_for(
    alloc: Global,
    call: &SummaryCall<'_>,
    identifier: IdentifierId,
) -> Result<List<Place>, AllocError>
    ensures { IfOk result (λ l. l ≡ substituted_for (held_summary call.now) identifier) }
{
    let names = call.names;
    let mut places = returned(alloc, names, call.into, identifier)?;
    substituted_arguments(
        alloc,
        &identifier,
        names.params.as_slice(),
        names.rest.as_ref(),
        call.args,
        &mut places,
    )?;
    substituted_context(alloc, identifier, call.context, places)
}

fn of_pair(kind: PairKind, from: &Place, into: &Place) -> SummaryEffect
    ensures { result ≡ OfPair kind from.now.identifier into.now.identifier }
{
    SummaryEffect::OfPair(kind, from.identifier, into.identifier)
}

fn of_place(kind: PlaceKind, place: &Place) -> SummaryEffect
    ensures { result ≡ OfPlace kind place.now.identifier }
{
    SummaryEffect::OfPlace(kind, place.identifier)
}

fn copied(effect: &AliasingEffect) -> SummaryEffect
    ensures { result ≡ copied effect.now }
{
    match effect {
        AliasingEffect::Apply { .. } => SummaryEffect::Passed,
        AliasingEffect::CreateFrom { from, into } => of_pair(PairKind::CreateFrom, from, into),
        AliasingEffect::ImmutableCapture { from, into } => {
            of_pair(PairKind::ImmutableCapture, from, into)
        }
        AliasingEffect::Assign { from, into } => of_pair(PairKind::Assign, from, into),
        AliasingEffect::Alias { from, into } => of_pair(PairKind::Alias, from, into),
        AliasingEffect::Capture { from, into } => of_pair(PairKind::Capture, from, into),
        AliasingEffect::MaybeAlias { from, into } => of_pair(PairKind::MaybeAlias, from, into),
        AliasingEffect::Create {
            into,
            value,
            reason,
        } => of_place(PlaceKind::Create(*value, *reason), into),
        AliasingEffect::Freeze { value, reason } => {
            SummaryEffect::OfFreeze(*reason, value.identifier)
        }
        AliasingEffect::Impure { place, error } => of_place(PlaceKind::Impure(*error), place),
        AliasingEffect::MutateFrozen { place, error } => {
            of_place(PlaceKind::MutateFrozen(*error), place)
        }
        AliasingEffect::MutateGlobal { place, error } => {
            of_place(PlaceKind::MutateGlobal(*error), place)
        }
        AliasingEffect::Render { place } => of_place(PlaceKind::Render, place),
        AliasingEffect::Mutate { value, reason } => of_place(PlaceKind::Mutate(*reason), value),
        AliasingEffect::MutateConditionally { value } => {
            of_place(PlaceKind::MutateConditionally, value)
        }
        AliasingEffect::MutateTransitive { value } => of_place(PlaceKind::MutateTransitive, value),
        AliasingEffect::MutateTransitiveConditionally { value } => {
            of_place(PlaceKind::MutateTransitiveConditionally, value)
        }
        AliasingEffect::CreateFunction { .. } => SummaryEffect::GivenUp,
    }
}

/// Appends an effect for each place that the one of the summary stands for.
fn push_each(
    tables: &Tables,
    call: &SummaryCall<'_>,
    out: &mut AliasingEffects,
    kind: PlaceKind,
    identifier: IdentifierId,
) -> Result<bool, EffectFault>
    ensures { Collects (with_each kind (substituted_for (held_summary call.now) identifier) out.old tables.now) result out.new tables.now }
{
    let places = substituted_for(tables.alloc(), call, identifier)?;
    push_at(out, kind, places.as_slice())?;
    Ok(true)
}

/// Appends an effect for each pair of places that those of the summary stand for.
fn push_each_pair(
    tables: &Tables,
    call: &SummaryCall<'_>,
    out: &mut AliasingEffects,
    kind: PairKind,
    from: IdentifierId,
    into: IdentifierId,
) -> Result<bool, EffectFault>
    ensures { Collects (with_pairs kind (substituted_for (held_summary call.now) from) (substituted_for (held_summary call.now) into) out.old tables.now) result out.new tables.now }
{
    let sources = substituted_for(tables.alloc(), call, from)?;
    let targets = substituted_for(tables.alloc(), call, into)?;
    push_pairs(out, kind, sources.as_slice(), targets.as_slice())?;
    Ok(true)
}

/// Appends a freeze of each place that the one of the summary stands for, unless one is refused.
fn push_freezes_of(
    env: &Environment,
    tables: &Tables,
    call: &SummaryCall<'_>,
    out: &mut AliasingEffects,
    reason: ValueReason,
    identifier: IdentifierId,
) -> Result<bool, EffectFault>
    ensures { Collects (with_freezes env.now call.now.args.now reason (substituted_for (held_summary call.now) identifier) out.old tables.now) result out.new tables.now }
{
    let places = substituted_for(tables.alloc(), call, identifier)?;
    push_freezes(env, tables, call.args, out, reason, places.as_slice())
}

/// Appends what is copied for each combination of the places that its identifiers stand for, and says whether the
/// list goes on.
fn push_copied(
    env: &Environment,
    tables: &Tables,
    call: &SummaryCall<'_>,
    out: &mut AliasingEffects,
    effect: SummaryEffect,
) -> Result<bool, EffectFault>
    ensures { Collects (with_copied env.now (held_summary call.now) effect out.old tables.now) result out.new tables.now }
{
    match effect {
        SummaryEffect::OfPair(kind, from, into) => {
            push_each_pair(tables, call, out, kind, from, into)
        }
        SummaryEffect::OfPlace(kind, place) => push_each(tables, call, out, kind, place),
        SummaryEffect::OfFreeze(reason, value) => {
            push_freezes_of(env, tables, call, out, reason, value)
        }
        SummaryEffect::Passed => Ok(true),
        SummaryEffect::GivenUp => Ok(false),
    }
}

/// Appends copies of the effects of the summary, and says whether the list goes on to its end.
fn push_all_copies(
    env: &Environment,
    tables: &Tables,
    call: &SummaryCall<'_>,
    out: &mut AliasingEffects,
    effects: &[AliasingEffect],
) -> Result<bool, EffectFault>
    ensures { Collects (with_all_copies env.now (held_summary call.now) effects.now out.old tables.now) result out.new tables.now }
{
    for effect in effects {
        if !push_copied(env, tables, call, out, copied(effect))? {
            return Ok(false);
        }
    }
    Ok(true)
}

fn is_spread(argument: &PlaceOrSpreadOrHole) -> bool
    ensures { result ≡ is_spread argument.now }
{
    match argument {
        PlaceOrSpreadOrHole::Spread(_) => true,
        PlaceOrSpreadOrHole::Place(_) | PlaceOrSpreadOrHole::Hole => false,
    }
}

fn has_spread(args: &[PlaceOrSpreadOrHole]) -> bool
    ensures { result ≡ list_any is_spread args.now }
{
    args.iter().any(|argument| is_spread(argument))
}

/// Whether the arguments need a rest: there are more than parameters, of which a hole is one too, or some argument is
/// spread.
fn needs_rest(params: &[IdentifierId], args: &[PlaceOrSpreadOrHole]) -> bool
    ensures { result ≡ needs_rest params.now args.now }
{
    params.len() < args.len() || has_spread(args)
}

/// The list that the names of a summary give for its effects, if they give one.
pub fn compute_effects_for_aliasing_signature(
    env: &Environment,
    tables: &Tables,
    call: &SummaryCall<'_>,
    effects: &[AliasingEffect],
) -> Result<Option<AliasingEffects>, EffectFault>
    ensures { Leaves (names_expansion env.now (held_summary call.now) effects.now tables.now) result tables.now }
{
    let names = call.names;
    if call.args.len() < names.params.len() {
        return Ok(None);
    }
    if needs_rest(names.params.as_slice(), call.args) && !names.rest.is_some() {
        return Ok(None);
    }
    let mut out = List::new(tables.alloc());
    if push_all_copies(env, tables, call, &mut out, effects)? {
        return Ok(Some(out));
    }
    Ok(None)
}

/// The list that the summary of a function gives, if it gives one.
pub fn compute_effects_for_summary(
    env: &Environment,
    tables: &mut Tables,
    f: FunctionId,
    function: &HirFunction,
    effects: &[AliasingEffect],
    into: Place,
    args: &[PlaceOrSpreadOrHole],
) -> Result<Option<AliasingEffects>, EffectFault>
    ensures { Leaves (summary_expansion env.now f function.now effects.now into args.now tables.old) result tables.new }
{
    let names = build_signature_from_function_expression(env, tables, f, function)?;
    let call = SummaryCall {
        names: &names,
        into,
        args,
        context: function.context.as_slice(),
    };
    compute_effects_for_aliasing_signature(env, tables, &call, effects)
}
