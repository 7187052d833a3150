//! The steps of the effects that lead to no other, and of those that lead to these alone.

ghost use Rattle.std.specs.Prelude.{◌≡◌, OnOk};
ghost use Rattle.alias_apply.specs.Progress.{Follows};
ghost use Rattle.alias_apply.specs.Leaves.{apply_immutable_capture, apply_leaf, intern_and_apply_leaf, apply_maybe_alias, apply_aliasing, intern_and_apply_aliasing};

use crate::kinds::{is_constant, may_be_frozen};
use crate::progress::{StepProgress, lookup, record};
use alias_hir::effect::AliasingEffect;
use alias_hir::place::Place;
use alias_tables::{EffectFault, Tables};
use std::alloc::AllocError;

fn apply_immutable_capture(
    step: &mut StepProgress,
    from: Place,
    into: Place,
) -> Result<(), AllocError>
    ensures { OnOk result (step.new ≡ apply_immutable_capture from into step.old) }
{
    let value = lookup(step, from.identifier, None);
    if is_constant(value.kind) {
        return Ok(());
    }
    record(step, AliasingEffect::ImmutableCapture { from, into })
}

/// ImmutableCapture, and the effects that are just recorded.
pub fn apply_leaf(step: &mut StepProgress, effect: AliasingEffect) -> Result<(), AllocError>
    ensures { OnOk result (step.new ≡ apply_leaf effect step.old) }
{
    match effect {
        AliasingEffect::ImmutableCapture { from, into } => apply_immutable_capture(
            step, from, into,
        ),
        AliasingEffect::Impure { place, error } => {
            record(step, AliasingEffect::Impure { place, error })
        }
        AliasingEffect::MutateFrozen { place, error } => {
            record(step, AliasingEffect::MutateFrozen { place, error })
        }
        AliasingEffect::MutateGlobal { place, error } => {
            record(step, AliasingEffect::MutateGlobal { place, error })
        }
        AliasingEffect::Render { place } => record(step, AliasingEffect::Render { place }),
        // The layers above have the steps of these. Each is named, so that a new effect doesn't go without a step.
        AliasingEffect::Create { .. }
        | AliasingEffect::CreateFrom { .. }
        | AliasingEffect::CreateFunction { .. }
        | AliasingEffect::Assign { .. }
        | AliasingEffect::Alias { .. }
        | AliasingEffect::MaybeAlias { .. }
        | AliasingEffect::Capture { .. }
        | AliasingEffect::Freeze { .. }
        | AliasingEffect::Mutate { .. }
        | AliasingEffect::MutateConditionally { .. }
        | AliasingEffect::MutateTransitive { .. }
        | AliasingEffect::MutateTransitiveConditionally { .. }
        | AliasingEffect::Apply { .. } => Ok(()),
    }
}

pub fn intern_and_apply_leaf(
    step: &mut StepProgress,
    tables: &mut Tables,
    effect: AliasingEffect,
) -> Result<(), EffectFault>
    ensures { Follows (intern_and_apply_leaf effect step.old tables.old) result step.new tables.new }
{
    let first = tables.intern(effect)?;
    apply_leaf(step, first)?;
    Ok(())
}

fn apply_maybe_alias(
    step: &mut StepProgress,
    tables: &mut Tables,
    from: Place,
    into: Place,
) -> Result<(), EffectFault>
    ensures { Follows (apply_maybe_alias from into step.old tables.old) result step.new tables.new }
{
    // The target's value isn't needed, but it is read: a read before its definition is recorded.
    let _target = lookup(step, into.identifier, into.span);
    let source = lookup(step, from.identifier, from.span);
    if may_be_frozen(source.kind) {
        return intern_and_apply_leaf(
            step,
            tables,
            AliasingEffect::ImmutableCapture { from, into },
        );
    }
    record(step, AliasingEffect::MaybeAlias { from, into })?;
    Ok(())
}

/// MaybeAlias, and the leaves.
pub fn apply_aliasing(
    step: &mut StepProgress,
    tables: &mut Tables,
    effect: AliasingEffect,
) -> Result<(), EffectFault>
    ensures { Follows (apply_aliasing effect step.old tables.old) result step.new tables.new }
{
    match effect {
        AliasingEffect::MaybeAlias { from, into } => apply_maybe_alias(step, tables, from, into),
        effect => {
            apply_leaf(step, effect)?;
            Ok(())
        }
    }
}

pub fn intern_and_apply_aliasing(
    step: &mut StepProgress,
    tables: &mut Tables,
    effect: AliasingEffect,
) -> Result<(), EffectFault>
    ensures { Follows (intern_and_apply_aliasing effect step.old tables.old) result step.new tables.new }
{
    let first = tables.intern(effect)?;
    apply_aliasing(step, tables, first)
}
