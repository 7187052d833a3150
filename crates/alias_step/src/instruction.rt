//! The step of an instruction: what is reported of it, what the summary of the function that it creates writes, the
//! effects of its signature, and a value for its result.

ghost use Rattle.std.specs.Prelude.{◌≡◌, Option, None, option_map, IfOk, OnOk};
ghost use Rattle.std.specs.List.{list_any};
ghost use Rattle.std.specs.Option.{is_some};
ghost use Rattle.alias_hir.specs.declared.place.Place.{Place};
ghost use Rattle.alias_lattice.specs.States.{lookup, sites_of};
ghost use Rattle.alias_signature.specs.Globals.{instruction_report};
ghost use Rattle.alias_signature.specs.Known.{known};
ghost use Rattle.alias_signature.specs.Signatures.{signature_of};
ghost use Rattle.alias_tables.specs.Tables.{Leaves};
ghost use Rattle.alias_apply.specs.Contexts.{held};
ghost use Rattle.alias_apply.specs.Progress.{Follows};
ghost use Rattle.alias_step.specs.Instructions.{written_by, is_frozen_context, record_mutate_frozen, record_write, record_write_if, check_write, check_effects, check_summary, check_created, begun, with_result, apply_instruction, intern_reported, apply_signature_with, apply_signature};
ghost use Rattle.alias_step.specs.Operands.{same_place};

use crate::calls::apply_effects;
use crate::operands::same_place;
use alias_apply::context::summary_of;
use alias_apply::freezing::context_of;
use alias_apply::kinds::{is_frozen, value_with};
use alias_apply::progress::record;
use alias_apply::reports::write_report;
use alias_apply::{MadeIdentifiers, StepContext, StepProgress};
use alias_base::{FunctionId, IdentifierId, List};
use alias_facts::FunctionFacts;
use alias_hir::effect::{AliasingEffect, AliasingEffects, ValueKind, ValueReason};
use alias_hir::env::Environment;
use alias_hir::hir::Instruction;
use alias_hir::place::Place;
use alias_hir::report::{Report, ReportId};
use alias_lattice::{AbstractValue, InferenceState, Site};
use alias_rules::function_rules::ids::created;
use alias_signature::{Known, instruction_report, signature_of};
use alias_tables::{EffectFault, Tables};
use std::alloc::{AllocError, Global};

/// The place that an effect writes for certain.
fn written_by(effect: &AliasingEffect) -> Option<Place>
    ensures { result ≡ written_by effect.now }
{
    match effect {
        AliasingEffect::Mutate { value, .. } => Some(*value),
        AliasingEffect::MutateTransitive { value } => Some(*value),
        _ => None,
    }
}

fn is_among(places: &[Place], place: Place) -> bool
    ensures { result ≡ list_any (λ (p : Place). same_place p place) places.now }
{
    places.iter().any(|other| same_place(*other, place))
}

/// Whether the place is one of the context, and frozen here.
fn is_frozen_context(places: &[Place], state: &InferenceState, place: Place) -> bool
    ensures { result ≡ is_frozen_context places.now state.now place }
{
    is_among(places, place)
        && state.is_defined(place.identifier)
        && is_frozen(state.kind_with_span(place.identifier, None).value.kind)
}

/// Interns the report, and records the effect as it is.
fn record_mutate_frozen(
    step: &mut StepProgress,
    tables: &mut Tables,
    report: Report,
    place: Place,
) -> Result<(), EffectFault>
    ensures { Follows (record_mutate_frozen report place step.old tables.old) result step.new tables.new }
{
    let error = tables.intern_report(place.identifier, report)?;
    record(step, AliasingEffect::MutateFrozen { place, error })?;
    Ok(())
}

fn record_write(
    context: &StepContext<'_>,
    step: &mut StepProgress,
    tables: &mut Tables,
    there: AbstractValue,
    place: Place,
) -> Result<(), EffectFault>
    ensures { Follows (record_write (held context.now) there place step.old tables.old) result step.new tables.new }
{
    let report = write_report(
        tables.alloc(),
        context.env,
        place.identifier,
        place.span,
        &there.reason,
    )?;
    record_mutate_frozen(step, tables, report, place)
}

fn record_write_if(
    context: &StepContext<'_>,
    step: &mut StepProgress,
    tables: &mut Tables,
    is_reported: bool,
    there: AbstractValue,
    place: Place,
) -> Result<(), EffectFault>
    ensures { Follows (record_write_if (held context.now) is_reported there place step.old tables.old) result step.new tables.new }
{
    if is_reported {
        return record_write(context, step, tables, there, place);
    }
    Ok(())
}

fn value_at(state: &InferenceState, place: Place) -> AbstractValue
    ensures { result ≡ lookup state.now place.identifier }
{
    state.kind_with_span(place.identifier, None).value
}

fn check_write(
    context: &StepContext<'_>,
    step: &mut StepProgress,
    tables: &mut Tables,
    places: &[Place],
    place: Option<Place>,
) -> Result<(), EffectFault>
    ensures { Follows (check_write (held context.now) places.now place step.old tables.old) result step.new tables.new }
{
    match place {
        Some(place) => {
            let is_reported = is_frozen_context(places, &step.state, place);
            let there = value_at(&step.state, place);
            record_write_if(context, step, tables, is_reported, there, place)
        }
        None => Ok(()),
    }
}

fn check_effects(
    context: &StepContext<'_>,
    step: &mut StepProgress,
    tables: &mut Tables,
    places: &[Place],
    effects: &[AliasingEffect],
) -> Result<(), EffectFault>
    ensures { Follows (check_effects (held context.now) places.now effects.now step.old tables.old) result step.new tables.new }
{
    for effect in effects {
        check_write(context, step, tables, places, written_by(effect))?;
    }
    Ok(())
}

fn check_summary(
    context: &StepContext<'_>,
    step: &mut StepProgress,
    tables: &mut Tables,
    places: &[Place],
    summary: Option<&AliasingEffects>,
) -> Result<(), EffectFault>
    ensures { Follows (check_summary (held context.now) places.now (option_map (λ es. es.now) summary.entry) step.old tables.old) result step.new tables.new }
{
    match summary {
        Some(effects) => check_effects(context, step, tables, places, effects.as_slice()),
        None => Ok(()),
    }
}

/// Records each write of a frozen context place by the summary of the function that is created, which is an error.
fn check_created(
    context: &StepContext<'_>,
    step: &mut StepProgress,
    tables: &mut Tables,
    function: Option<FunctionId>,
) -> Result<(), EffectFault>
    ensures { Follows (check_created (held context.now) function step.old tables.old) result step.new tables.new }
{
    match function {
        Some(f) => {
            let places = context_of(context.env, f);
            check_summary(context, step, tables, places, summary_of(context.env, f))
        }
        None => Ok(()),
    }
}

/// An instruction begins with nothing made and nothing recorded.
fn begin(alloc: Global, step: &mut StepProgress)
    ensures { step.new ≡ begun step.old }
{
    step.made = MadeIdentifiers::new(alloc);
    step.recorded = List::new(alloc);
}

/// A result without sites gets Default of itself, with Mutable {Other} whatever value it had.
fn give_result(step: &mut StepProgress, result_id: IdentifierId) -> Result<(), AllocError>
    ensures { OnOk result (step.new ≡ with_result (is_some (sites_of step.old.state result_id)) result_id step.old) }
{
    if step.state.is_defined(result_id) {
        return Ok(());
    }
    step.state.give(
        result_id,
        Site::Default(result_id),
        value_with(ValueKind::Mutable, ValueReason::Other),
    )
}

/// The step of what creates this function, has these effects and this result.
fn apply_instruction(
    context: &StepContext<'_>,
    step: &mut StepProgress,
    tables: &mut Tables,
    function: Option<FunctionId>,
    effects: AliasingEffects,
    result_id: IdentifierId,
) -> Result<(), EffectFault>
    ensures { Follows (apply_instruction (held context.now) function effects result_id step.old tables.old) result step.new tables.new }
{
    begin(tables.alloc(), step);
    check_created(context, step, tables, function)?;
    apply_effects(context, step, tables, effects)?;
    give_result(step, result_id)?;
    Ok(())
}

/// Interns the report of the instruction, if something is.
fn intern_reported(
    tables: &mut Tables,
    instruction: &Instruction,
) -> Result<Option<ReportId>, EffectFault>
    ensures { Leaves (intern_reported (instruction_report instruction.now.value instruction.now.span) tables.old) result tables.new }
{
    match instruction_report(tables.alloc(), &instruction.value, instruction.span)? {
        Some((identifier, report)) => {
            let error = tables.intern_report(identifier, report)?;
            Ok(Some(error))
        }
        None => Ok(None),
    }
}

fn signature_with(
    alloc: Global,
    env: &Environment,
    facts: &FunctionFacts,
    error: Option<ReportId>,
    instruction: &Instruction,
) -> Result<AliasingEffects, AllocError>
    ensures { IfOk result (λ effects. effects ≡ signature_of (known env.now facts.now error) instruction.now) }
{
    let known = Known { env, facts, error };
    signature_of(alloc, &known, instruction)
}

/// The step of the instruction with the report of it, if something is.
fn apply_signature_with(
    env: &Environment,
    facts: &FunctionFacts,
    instruction: &Instruction,
    error: Option<ReportId>,
    step: &mut StepProgress,
    tables: &mut Tables,
) -> Result<(), EffectFault>
    ensures { Follows (apply_signature_with env.now facts.now instruction.now error step.old tables.old) result step.new tables.new }
{
    let effects = signature_with(tables.alloc(), env, facts, error, instruction)?;
    let context = StepContext {
        env,
        hoisted: &facts.hoisted,
    };
    apply_instruction(
        &context,
        step,
        tables,
        created(&instruction.value),
        effects,
        instruction.lvalue.identifier,
    )
}

/// The step of an instruction: the report of it is interned, each write of a frozen context place by
/// the function that it creates is recorded as an error, the effects of its signature are stepped in order, and a
/// result without a value gets one. What it records stands in `step.recorded`, and nothing of the instruction before.
/// Refused as its effects are, and where no number is left for a report; out of memory can come at any growth.
pub fn apply_signature(
    env: &Environment,
    facts: &FunctionFacts,
    instruction: &Instruction,
    step: &mut StepProgress,
    tables: &mut Tables,
) -> Result<(), EffectFault>
    ensures { Follows (apply_signature env.now facts.now instruction.now step.old tables.old) result step.new tables.new }
{
    let error = intern_reported(tables, instruction)?;
    apply_signature_with(env, facts, instruction, error, step, tables)
}
