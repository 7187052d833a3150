//! A call of which nothing is known.

ghost use Rattle.std.specs.Prelude.{◌≡◌};
ghost use Rattle.alias_apply.specs.Contexts.{held};
ghost use Rattle.alias_apply.specs.Progress.{Follows};
ghost use Rattle.alias_step.specs.Operands.{held_call};
ghost use Rattle.alias_step.specs.Defaults.{mutate_operand, iterate_operand, capture_operand, capture_operand_in_each, apply_operand, apply_operands, apply_by_default};

use crate::call::{Call, Operand};
use crate::operands::{operands, same_place};
use alias_apply::{StepContext, StepProgress, intern_and_apply_simple};
use alias_hir::effect::{AliasingEffect, ValueKind, ValueReason};
use alias_hir::types::is_builtin_collection_at;
use alias_tables::{EffectFault, Tables};

/// An operand may be written, unless it is a function that the call doesn't write.
fn mutate_operand(
    context: &StepContext<'_>,
    step: &mut StepProgress,
    tables: &mut Tables,
    call: &Call<'_>,
    operand: Operand,
) -> Result<(), EffectFault>
    ensures { Follows (mutate_operand (held context.now) (held_call call.now) operand step.old tables.old) result step.new tables.new }
{
    if same_place(operand.place, call.function) && !call.mutates_function {
        return Ok(());
    }
    intern_and_apply_simple(
        context,
        step,
        tables,
        AliasingEffect::MutateTransitiveConditionally {
            value: operand.place,
        },
    )
}

/// A spread is iterated, which may write it unless it is an array, a set or a map.
fn iterate_operand(
    context: &StepContext<'_>,
    step: &mut StepProgress,
    tables: &mut Tables,
    operand: Operand,
) -> Result<(), EffectFault>
    ensures { Follows (iterate_operand (held context.now) operand step.old tables.old) result step.new tables.new }
{
    if operand.is_spread && !is_builtin_collection_at(context.env, operand.place.identifier) {
        return intern_and_apply_simple(
            context,
            step,
            tables,
            AliasingEffect::MutateTransitiveConditionally {
                value: operand.place,
            },
        );
    }
    Ok(())
}

/// An operand may be put into another, and a spread into itself.
fn capture_operand(
    context: &StepContext<'_>,
    step: &mut StepProgress,
    tables: &mut Tables,
    operand: Operand,
    other: Operand,
) -> Result<(), EffectFault>
    ensures { Follows (capture_operand (held context.now) operand other step.old tables.old) result step.new tables.new }
{
    if same_place(other.place, operand.place) && !operand.is_spread {
        return Ok(());
    }
    intern_and_apply_simple(
        context,
        step,
        tables,
        AliasingEffect::Capture {
            from: operand.place,
            into: other.place,
        },
    )
}

fn capture_operand_in_each(
    context: &StepContext<'_>,
    step: &mut StepProgress,
    tables: &mut Tables,
    operand: Operand,
    all: &[Operand],
) -> Result<(), EffectFault>
    ensures { Follows (capture_operand_in_each (held context.now) operand all.now step.old tables.old) result step.new tables.new }
{
    for other in all {
        capture_operand(context, step, tables, operand, *other)?;
    }
    Ok(())
}

/// What a call may do with an operand, where `all` are its operands.
fn apply_operand(
    context: &StepContext<'_>,
    step: &mut StepProgress,
    tables: &mut Tables,
    call: &Call<'_>,
    all: &[Operand],
    operand: Operand,
) -> Result<(), EffectFault>
    ensures { Follows (apply_operand (held context.now) (held_call call.now) all.now operand step.old tables.old) result step.new tables.new }
{
    mutate_operand(context, step, tables, call, operand)?;
    iterate_operand(context, step, tables, operand)?;
    intern_and_apply_simple(
        context,
        step,
        tables,
        AliasingEffect::MaybeAlias {
            from: operand.place,
            into: call.site.into,
        },
    )?;
    capture_operand_in_each(context, step, tables, operand, all)
}

fn apply_operands(
    context: &StepContext<'_>,
    step: &mut StepProgress,
    tables: &mut Tables,
    call: &Call<'_>,
    all: &[Operand],
    left: &[Operand],
) -> Result<(), EffectFault>
    ensures { Follows (apply_operands (held context.now) (held_call call.now) all.now left.now step.old tables.old) result step.new tables.new }
{
    for operand in left {
        apply_operand(context, step, tables, call, all, *operand)?;
    }
    Ok(())
}

/// The result is new, and each operand may be written, and put into the result and into each other. The effects
/// are stepped as they come: no list of them is made.
pub fn apply_by_default(
    context: &StepContext<'_>,
    step: &mut StepProgress,
    tables: &mut Tables,
    call: &Call<'_>,
) -> Result<(), EffectFault>
    ensures { Follows (apply_by_default (held context.now) (held_call call.now) step.old tables.old) result step.new tables.new }
{
    let all = operands(tables.alloc(), call)?;
    intern_and_apply_simple(
        context,
        step,
        tables,
        AliasingEffect::Create {
            into: call.site.into,
            value: ValueKind::Mutable,
            reason: ValueReason::Other,
        },
    )?;
    apply_operands(context, step, tables, call, all.as_slice(), all.as_slice())
}
