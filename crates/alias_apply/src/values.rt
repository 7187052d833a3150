//! The steps of effects that make a value, or that put one into another.

ghost use Rattle.std.specs.Prelude.{◌≡◌, OnOk};
ghost use Rattle.alias_apply.specs.Progress.{Follows};
ghost use Rattle.alias_apply.specs.Values.{apply_create, record_create_from, apply_create_from, assign_value, apply_assign, apply_link, apply_alias};

use crate::kinds::{captures, is_constant, is_frozen, may_alias, may_be_frozen, value_with};
use crate::leaves::{intern_and_apply_aliasing, intern_and_apply_leaf};
use crate::progress::{StepProgress, give, lookup, make, record};
use alias_hir::effect::{AliasingEffect, ValueKind, ValueReason};
use alias_hir::place::Place;
use alias_lattice::{AbstractValue, Site, primary_reason};
use alias_tables::{EffectFault, Refusal, Tables};

pub fn apply_create(
    step: &mut StepProgress,
    tables: &mut Tables,
    into: Place,
    value: ValueKind,
    reason: ValueReason,
) -> Result<(), EffectFault>
    ensures { Follows (apply_create into value reason step.old tables.old) result step.new tables.new }
{
    make(step, tables, into.identifier)?;
    let site = Site::Created {
        into: into.identifier,
        kind: value,
        reason,
    };
    give(step, &into, site, value_with(value, reason))?;
    record(
        step,
        AliasingEffect::Create {
            into,
            value,
            reason,
        },
    )?;
    Ok(())
}

fn record_create_from(
    step: &mut StepProgress,
    tables: &mut Tables,
    value: ValueKind,
    reason: ValueReason,
    from: Place,
    into: Place,
) -> Result<(), EffectFault>
    ensures { Follows (record_create_from value reason from into step.old tables.old) result step.new tables.new }
{
    match value {
        ValueKind::Primitive | ValueKind::Global => {
            record(
                step,
                AliasingEffect::Create {
                    into,
                    value,
                    reason,
                },
            )?;
            Ok(())
        }
        ValueKind::Frozen => {
            record(
                step,
                AliasingEffect::Create {
                    into,
                    value,
                    reason,
                },
            )?;
            intern_and_apply_leaf(
                step,
                tables,
                AliasingEffect::ImmutableCapture { from, into },
            )
        }
        _ => {
            record(step, AliasingEffect::CreateFrom { from, into })?;
            Ok(())
        }
    }
}

pub fn apply_create_from(
    step: &mut StepProgress,
    tables: &mut Tables,
    from: Place,
    into: Place,
) -> Result<(), EffectFault>
    ensures { Follows (apply_create_from from into step.old tables.old) result step.new tables.new }
{
    make(step, tables, into.identifier)?;
    let value = lookup(step, from.identifier, None);
    let site = Site::CreatedFrom {
        from: from.identifier,
        into: into.identifier,
    };
    give(step, &into, site, value)?;
    record_create_from(
        step,
        tables,
        value.kind,
        primary_reason(&value.reason),
        from,
        into,
    )
}

fn assign_value(
    step: &mut StepProgress,
    tables: &mut Tables,
    value: AbstractValue,
    from: Place,
    into: Place,
) -> Result<(), EffectFault>
    ensures { Follows (assign_value value from into step.old tables.old) result step.new tables.new }
{
    let (source, target) = (from.identifier, into.identifier);
    if is_frozen(value.kind) {
        intern_and_apply_leaf(
            step,
            tables,
            AliasingEffect::ImmutableCapture { from, into },
        )?;
        let site = Site::AssignFrozen {
            from: source,
            into: target,
        };
        give(step, &into, site, value)?;
        return Ok(());
    }
    if is_constant(value.kind) {
        let site = Site::AssignCopy {
            from: source,
            into: target,
        };
        give(step, &into, site, value)?;
        return Ok(());
    }
    step.state.assign(target, source)?;
    record(step, AliasingEffect::Assign { from, into })?;
    Ok(())
}

pub fn apply_assign(
    step: &mut StepProgress,
    tables: &mut Tables,
    from: Place,
    into: Place,
) -> Result<(), EffectFault>
    ensures { Follows (apply_assign from into step.old tables.old) result step.new tables.new }
{
    make(step, tables, into.identifier)?;
    let value = lookup(step, from.identifier, from.span);
    assign_value(step, tables, value, from, into)
}

/// Capture and Alias: by the kinds of source and target.
pub fn apply_link(
    step: &mut StepProgress,
    tables: &mut Tables,
    effect: AliasingEffect,
    from: Place,
    into: Place,
) -> Result<(), EffectFault>
    ensures { Follows (apply_link effect from into step.old tables.old) result step.new tables.new }
{
    let target = lookup(step, into.identifier, into.span);
    let source = lookup(step, from.identifier, from.span);
    if may_be_frozen(source.kind) {
        return intern_and_apply_leaf(
            step,
            tables,
            AliasingEffect::ImmutableCapture { from, into },
        );
    }
    if captures(source.kind, target.kind) {
        record(step, effect)?;
        return Ok(());
    }
    if may_alias(source.kind, target.kind) {
        return intern_and_apply_aliasing(step, tables, AliasingEffect::MaybeAlias { from, into });
    }
    Ok(())
}

/// An Alias needs a target that is made here.
pub fn apply_alias(
    step: &mut StepProgress,
    tables: &mut Tables,
    from: Place,
    into: Place,
) -> Result<(), EffectFault>
    ensures { Follows (apply_alias from into step.old tables.old) result step.new tables.new }
{
    if step.made.contains(into.identifier) {
        return apply_link(
            step,
            tables,
            AliasingEffect::Alias { from, into },
            from,
            into,
        );
    }
    Err(EffectFault::Refused(Refusal::AliasBeforeCreate {
        identifier: into.identifier,
    }))
}
