//! The steps of writes, and of freezes.

ghost use Rattle.std.specs.Prelude.{◌≡◌, OnOk};
ghost use Rattle.alias_apply.specs.Contexts.{held};
ghost use Rattle.alias_apply.specs.Progress.{Follows};
ghost use Rattle.alias_apply.specs.Mutation.{intern_and_apply_mutate_frozen, intern_and_apply_mutate_global, report_write, report_hoisted_write, record_result, apply_mutation, apply_mutate, apply_mutate_conditionally, freezes_on, apply_freeze};
ghost use Rattle.alias_tables.specs.Steps.{gives};

use crate::context::{StepContext, hoisted_access};
use crate::freezing::freeze_place_transitively;
use crate::kinds::is_frozen;
use crate::leaves::intern_and_apply_leaf;
use crate::progress::{StepProgress, note_missing, record, value_at};
use crate::reports::{hoisting_report, write_report};
use alias_hir::effect::{AliasingEffect, ValueReason};
use alias_hir::env::Config;
use alias_hir::place::Place;
use alias_hir::report::Report;
use alias_lattice::{AbstractValue, MutateVariant, MutationResult};
use alias_tables::{EffectFault, Tables};
use std::alloc::AllocError;

fn intern_and_apply_mutate_frozen(
    step: &mut StepProgress,
    tables: &mut Tables,
    report: Report,
    place: Place,
) -> Result<(), EffectFault>
    ensures { Follows (intern_and_apply_mutate_frozen report place step.old tables.old) result step.new tables.new }
{
    let error = tables.intern_report(place.identifier, report)?;
    intern_and_apply_leaf(step, tables, AliasingEffect::MutateFrozen { place, error })
}

fn intern_and_apply_mutate_global(
    step: &mut StepProgress,
    tables: &mut Tables,
    report: Report,
    place: Place,
) -> Result<(), EffectFault>
    ensures { Follows (intern_and_apply_mutate_global report place step.old tables.old) result step.new tables.new }
{
    let error = tables.intern_report(place.identifier, report)?;
    intern_and_apply_leaf(step, tables, AliasingEffect::MutateGlobal { place, error })
}

/// A write of a value that isn't to be written.
fn report_write(
    context: &StepContext<'_>,
    step: &mut StepProgress,
    tables: &mut Tables,
    there: AbstractValue,
    place: Place,
) -> Result<(), EffectFault>
    ensures { Follows (report_write (held context.now) there place step.old tables.old) result step.new tables.new }
{
    let report = write_report(
        tables.alloc(),
        context.env,
        place.identifier,
        place.span,
        &there.reason,
    )?;
    if is_frozen(there.kind) {
        intern_and_apply_mutate_frozen(step, tables, report, place)
    } else {
        intern_and_apply_mutate_global(step, tables, report, place)
    }
}

/// A write of a value that may be frozen: of a variable that is hoisted, it comes before the declaration.
fn report_hoisted_write(
    context: &StepContext<'_>,
    step: &mut StepProgress,
    tables: &mut Tables,
    hoisted: Option<Option<Place>>,
    there: AbstractValue,
    place: Place,
) -> Result<(), EffectFault>
    ensures { Follows (report_hoisted_write (held context.now) hoisted there place step.old tables.old) result step.new tables.new }
{
    match hoisted {
        Some(access) => {
            let report = hoisting_report(
                tables.alloc(),
                context.env,
                place.identifier,
                place.span,
                access,
            )?;
            intern_and_apply_mutate_frozen(step, tables, report, place)
        }
        None => report_write(context, step, tables, there, place),
    }
}

/// What the step of a write does, by what the state answers of it.
fn record_result(
    context: &StepContext<'_>,
    step: &mut StepProgress,
    tables: &mut Tables,
    mutation: MutationResult,
    effect: AliasingEffect,
    place: Place,
) -> Result<(), EffectFault>
    ensures { Follows (record_result (held context.now) mutation effect place step.old tables.old) result step.new tables.new }
{
    match mutation {
        MutationResult::Mutate => {
            record(step, effect)?;
            Ok(())
        }
        MutationResult::None | MutationResult::MutateRef => Ok(()),
        MutationResult::MutateFrozen => {
            let there = value_at(step, &place);
            let hoisted = hoisted_access(context, place.identifier);
            report_hoisted_write(context, step, tables, hoisted, there, place)
        }
        MutationResult::MutateGlobal => {
            let there = value_at(step, &place);
            report_write(context, step, tables, there, place)
        }
    }
}

/// The step of a write of the variant: a lookup that is missing is noted, and then what the state answers decides.
fn apply_mutation(
    context: &StepContext<'_>,
    step: &mut StepProgress,
    tables: &mut Tables,
    variant: MutateVariant,
    effect: AliasingEffect,
    place: Place,
) -> Result<(), EffectFault>
    ensures { Follows (apply_mutation (held context.now) variant effect place step.old tables.old) result step.new tables.new }
{
    let mutation = step
        .state
        .mutate_with_span(variant, place.identifier, context.env, place.span);
    note_missing(step, mutation.missing);
    record_result(context, step, tables, mutation.result, effect, place)
}

/// Mutate and MutateTransitive: a ref may be written.
pub fn apply_mutate(
    context: &StepContext<'_>,
    step: &mut StepProgress,
    tables: &mut Tables,
    effect: AliasingEffect,
    place: Place,
) -> Result<(), EffectFault>
    ensures { Follows (apply_mutate (held context.now) effect place step.old tables.old) result step.new tables.new }
{
    apply_mutation(context, step, tables, MutateVariant::Mutate, effect, place)
}

/// The conditional writes: recorded where the value is writable.
pub fn apply_mutate_conditionally(
    context: &StepContext<'_>,
    step: &mut StepProgress,
    tables: &mut Tables,
    effect: AliasingEffect,
    place: Place,
) -> Result<(), EffectFault>
    ensures { Follows (gives (apply_mutate_conditionally (held context.now) effect place step.old) tables.old) result step.new tables.new }
{
    apply_mutation(
        context,
        step,
        tables,
        MutateVariant::MutateConditionally,
        effect,
        place,
    )
}

fn freezes_on(config: Config) -> bool
    ensures { result ≡ freezes_on config }
{
    config.enable_preserve_existing_memoization_guarantees
        || config.enable_transitively_freeze_function_expressions
}

/// Freeze: recorded where it acts, and gone on with where that is asked.
pub fn apply_freeze(
    context: &StepContext<'_>,
    step: &mut StepProgress,
    tables: &Tables,
    value: Place,
    reason: ValueReason,
) -> Result<(), AllocError>
    ensures { OnOk result (step.new ≡ apply_freeze (held context.now) value reason step.old) }
{
    if !step.state.freeze(value.identifier, reason)? {
        return Ok(());
    }
    record(step, AliasingEffect::Freeze { value, reason })?;
    if freezes_on(context.env.config) {
        freeze_place_transitively(
            tables.alloc(),
            &mut step.state,
            context.env,
            value.identifier,
            reason,
        )?;
    }
    Ok(())
}
