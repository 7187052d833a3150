//! The step of each effect but calls.

ghost use Rattle.std.specs.Prelude.{◌≡◌, ◌&&◌, ◌||◌, OnOk, option_map, Option, Some, None};
ghost use Rattle.std.specs.List.{list_any};
ghost use Rattle.alias_hir.specs.declared.place.Place.{Place};
ghost use Rattle.alias_hir.specs.declared.effect.AliasingEffect.TheVariants.{CreateFunction};
ghost use Rattle.alias_hir.specs.Types.{is_ref_at};
ghost use Rattle.alias_tables.specs.Steps.{each};
ghost use Rattle.alias_apply.specs.Contexts.{held};
ghost use Rattle.alias_apply.specs.Progress.{record_of, Follows};
ghost use Rattle.alias_apply.specs.Apply.{apply_simple, intern_and_apply_simple, is_mutable_capture, is_error, has_error, is_mutable_function, function_value, is_capture, is_read_capture, note_read_capture, capture_each, apply_create_function, apply_plain, intern_and_apply_plain, intern_and_apply_all_plain};

use crate::context::{StepContext, summary_of};
use crate::freezing::context_of;
use crate::kinds::{is_read_only, is_writable};
use crate::leaves::apply_aliasing;
use crate::mutation::{apply_freeze, apply_mutate, apply_mutate_conditionally};
use crate::progress::{StepProgress, give, make, record};
use crate::values::{apply_alias, apply_assign, apply_create, apply_create_from, apply_link};
use alias_base::{FunctionId, List};
use alias_hir::effect::{AliasingEffect, AliasingEffects, ValueKind, error_of};
use alias_hir::place::{Effect, Place};
use alias_hir::types::is_ref_at;
use alias_lattice::{AbstractValue, InferenceState, ReasonSet, Site};
use alias_tables::{ContextRead, EffectFault, Tables};
use std::alloc::AllocError;

/// The effects that create no function and are no calls.
fn apply_simple(
    context: &StepContext<'_>,
    step: &mut StepProgress,
    tables: &mut Tables,
    effect: AliasingEffect,
) -> Result<(), EffectFault>
    ensures { Follows (apply_simple (held context.now) effect step.old tables.old) result step.new tables.new }
{
    match effect {
        AliasingEffect::Create {
            into,
            value,
            reason,
        } => apply_create(step, tables, into, value, reason),
        AliasingEffect::CreateFrom { from, into } => apply_create_from(step, tables, from, into),
        AliasingEffect::Assign { from, into } => apply_assign(step, tables, from, into),
        AliasingEffect::Capture { from, into } => {
            apply_link(
                step,
                tables,
                AliasingEffect::Capture { from, into },
                from,
                into,
            )
        }
        AliasingEffect::Alias { from, into } => apply_alias(step, tables, from, into),
        AliasingEffect::Freeze { value, reason } => {
            apply_freeze(context, step, tables, value, reason)?;
            Ok(())
        }
        AliasingEffect::Mutate { value, reason } => apply_mutate(
            context,
            step,
            tables,
            AliasingEffect::Mutate { value, reason },
            value,
        ),
        AliasingEffect::MutateTransitive { value } => apply_mutate(
            context,
            step,
            tables,
            AliasingEffect::MutateTransitive { value },
            value,
        ),
        AliasingEffect::MutateConditionally { value } => apply_mutate_conditionally(
            context,
            step,
            tables,
            AliasingEffect::MutateConditionally { value },
            value,
        ),
        AliasingEffect::MutateTransitiveConditionally { value } => apply_mutate_conditionally(
            context,
            step,
            tables,
            AliasingEffect::MutateTransitiveConditionally { value },
            value,
        ),
        effect => apply_aliasing(step, tables, effect),
    }
}

/// The step of an effect that creates no function and is no call.
pub fn intern_and_apply_simple(
    context: &StepContext<'_>,
    step: &mut StepProgress,
    tables: &mut Tables,
    effect: AliasingEffect,
) -> Result<(), EffectFault>
    ensures { Follows (intern_and_apply_simple (held context.now) effect step.old tables.old) result step.new tables.new }
{
    let first = tables.intern(effect)?;
    apply_simple(context, step, tables, first)
}

fn is_mutable_capture(state: &InferenceState, place: &Place) -> bool
    ensures { result ≡ is_mutable_capture state.now place.now }
{
    state.is_defined(place.identifier)
        && is_writable(state.kind_with_span(place.identifier, None).value.kind)
}

fn any_mutable_capture(state: &InferenceState, places: &[Place]) -> bool
    ensures { result ≡ list_any (is_mutable_capture state.now) places.now }
{
    places.iter().any(|place| is_mutable_capture(state, place))
}

fn is_error(effect: &AliasingEffect) -> bool
    ensures { result ≡ is_error effect.now }
{
    error_of(effect).is_some()
}

fn any_error(effects: &[AliasingEffect]) -> bool
    ensures { result ≡ list_any is_error effects.now }
{
    effects.iter().any(|effect| is_error(effect))
}

fn has_error(summary: Option<&AliasingEffects>) -> bool
    ensures { result ≡ has_error (option_map (λ es. es.now) summary.entry) }
{
    match summary {
        Some(effects) => any_error(effects.as_slice()),
        None => false,
    }
}

fn any_ref(context: &StepContext<'_>, places: &[Place]) -> bool
    ensures { result ≡ list_any (λ (p : Place). is_ref_at context.now.env.now p.identifier) places.now }
{
    places
        .iter()
        .any(|place| is_ref_at(context.env, place.identifier))
}

/// A function is mutable where it takes in what may be written, its summary has an error, or it takes in a ref.
fn is_mutable_function(
    context: &StepContext<'_>,
    function: FunctionId,
    captures: &[Place],
    state: &InferenceState,
) -> bool
    ensures { result ≡ is_mutable_function (held context.now) function captures.now state.now }
{
    any_mutable_capture(state, captures)
        || has_error(summary_of(context.env, function))
        || any_ref(context, context_of(context.env, function))
}

fn function_value(is_mutable: bool) -> AbstractValue
    ensures { result ≡ function_value is_mutable }
{
    AbstractValue {
        kind: if is_mutable {
            ValueKind::Mutable
        } else {
            ValueKind::Frozen
        },
        reason: ReasonSet::default(),
    }
}

fn is_capture(effect: Effect) -> bool
    ensures { result ≡ is_capture effect }
{
    matches!(effect, Effect::Capture)
}

/// Whether the function takes the place in, and its value is only read.
fn is_read_capture(state: &InferenceState, place: &Place) -> bool
    ensures { result ≡ is_read_capture state.now place.now }
{
    is_capture(place.effect)
        && state.is_defined(place.identifier)
        && is_read_only(state.kind_with_span(place.identifier, None).value.kind)
}

fn note_read_capture(
    step: &StepProgress,
    tables: &mut Tables,
    function: FunctionId,
    place: &Place,
) -> Result<(), EffectFault>
    ensures { Follows (note_read_capture function place.now step.now tables.old) result step.now tables.new }
{
    if is_read_capture(&step.state, place) {
        tables.note_read(ContextRead {
            function,
            place: place.identifier,
        })?;
    }
    Ok(())
}

/// Notes which of the places the function only reads.
fn note_read_captures(
    step: &StepProgress,
    tables: &mut Tables,
    function: FunctionId,
    places: &[Place],
) -> Result<(), EffectFault>
    ensures { Follows (each (note_read_capture function) places.now step.now tables.old) result step.now tables.new }
{
    for place in places {
        note_read_capture(step, tables, function, place)?;
    }
    Ok(())
}

/// Each of the places is captured.
fn capture_each(
    context: &StepContext<'_>,
    step: &mut StepProgress,
    tables: &mut Tables,
    into: Place,
    captures: &[Place],
) -> Result<(), EffectFault>
    ensures { Follows (capture_each (held context.now) into captures.now step.old tables.old) result step.new tables.new }
{
    for place in captures {
        intern_and_apply_simple(
            context,
            step,
            tables,
            AliasingEffect::Capture { from: *place, into },
        )?;
    }
    Ok(())
}

fn record_function(
    step: &mut StepProgress,
    tables: &Tables,
    into: Place,
    function_id: FunctionId,
    captures: &[Place],
) -> Result<(), AllocError>
    ensures { OnOk result (step.new ≡ record_of (CreateFunction into function_id captures.now) step.old) }
{
    let captures = List::from_slice(tables.alloc(), captures)?;
    record(
        step,
        AliasingEffect::CreateFunction {
            into,
            function_id,
            captures,
        },
    )
}

fn apply_create_function(
    context: &StepContext<'_>,
    step: &mut StepProgress,
    tables: &mut Tables,
    into: Place,
    function: FunctionId,
    captures: &[Place],
) -> Result<(), EffectFault>
    ensures { Follows (apply_create_function (held context.now) into function captures.now step.old tables.old) result step.new tables.new }
{
    make(step, tables, into.identifier)?;
    record_function(step, tables, into, function, captures)?;
    note_read_captures(step, tables, function, context_of(context.env, function))?;
    let value = function_value(is_mutable_function(context, function, captures, &step.state));
    give(step, &into, Site::Function(function), value)?;
    capture_each(context, step, tables, into, captures)
}

/// All effects but calls, which are stepped elsewhere.
fn apply_plain(
    context: &StepContext<'_>,
    step: &mut StepProgress,
    tables: &mut Tables,
    effect: AliasingEffect,
) -> Result<(), EffectFault>
    ensures { Follows (apply_plain (held context.now) effect step.old tables.old) result step.new tables.new }
{
    match effect {
        AliasingEffect::CreateFunction {
            into,
            function_id,
            captures,
        } => apply_create_function(
            context,
            step,
            tables,
            into,
            function_id,
            captures.as_slice(),
        ),
        AliasingEffect::Apply { .. } => Ok(()),
        effect => apply_simple(context, step, tables, effect),
    }
}

/// The step of an effect that is no call.
pub fn intern_and_apply_plain(
    context: &StepContext<'_>,
    step: &mut StepProgress,
    tables: &mut Tables,
    effect: AliasingEffect,
) -> Result<(), EffectFault>
    ensures { Follows (intern_and_apply_plain (held context.now) effect step.old tables.old) result step.new tables.new }
{
    let first = tables.intern(effect)?;
    apply_plain(context, step, tables, first)
}

/// The steps of the effects of a list that holds no call, in order. No effect is copied.
pub fn intern_and_apply_all_plain(
    context: &StepContext<'_>,
    step: &mut StepProgress,
    tables: &mut Tables,
    effects: AliasingEffects,
) -> Result<(), EffectFault>
    ensures { Follows (intern_and_apply_all_plain (held context.now) effects step.old tables.old) result step.new tables.new }
{
    for effect in effects.into_vec() {
        intern_and_apply_plain(context, step, tables, effect)?;
    }
    Ok(())
}
