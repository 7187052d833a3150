//! Writes of variables and properties, and declarations.
ghost use Rattle.std.specs.Prelude.{◌≡◌, ◌++◌, OnOk};
ghost use Rattle.alias_signature.specs.Stores.{store_local_effects, declare_local_effects, update_effects, is_current, store_reason, property_store_effects, delete_effects};

use crate::creating::push_create;
use alias_hir::effect::{AliasingEffect, AliasingEffects, MutationReason, ValueKind};
use alias_hir::env::Environment;
use alias_hir::place::Place;
use alias_hir::types::is_untyped_at;
use alias_hir::value::{LValue, PropertyLiteral};
use std::alloc::AllocError;

/// `variable = value`.
pub(crate) fn push_store_local(
    effects: &mut AliasingEffects,
    lvalue: &Place,
    variable: &LValue,
    value: &Place,
) -> Result<(), AllocError>
    ensures { OnOk result (effects.new ≡ effects.old ++ store_local_effects lvalue.now variable.now value.now) }
{
    effects.push(AliasingEffect::Assign {
        from: *value,
        into: variable.place,
    })?;
    effects.push(AliasingEffect::Assign {
        from: *value,
        into: *lvalue,
    })?;
    Ok(())
}

/// `let variable`.
pub(crate) fn push_declare_local(
    effects: &mut AliasingEffects,
    lvalue: &Place,
    variable: &LValue,
) -> Result<(), AllocError>
    ensures { OnOk result (effects.new ≡ effects.old ++ declare_local_effects lvalue.now variable.now) }
{
    push_create(effects, &variable.place, ValueKind::Primitive)?;
    push_create(effects, lvalue, ValueKind::Primitive)
}

/// `variable++` or `++variable`.
pub(crate) fn push_update(
    effects: &mut AliasingEffects,
    lvalue: &Place,
    variable: &Place,
) -> Result<(), AllocError>
    ensures { OnOk result (effects.new ≡ effects.old ++ update_effects lvalue.now variable.now) }
{
    push_create(effects, lvalue, ValueKind::Primitive)?;
    push_create(effects, variable, ValueKind::Primitive)
}

fn is_current(property: &PropertyLiteral) -> bool
    ensures { result ≡ is_current property.now }
{
    match property {
        PropertyLiteral::String(name) => name.as_str() == "current",
        PropertyLiteral::Number => false,
    }
}

/// Why the object is written, where that is known: a value of which nothing is known may be a ref.
pub(crate) fn store_reason(
    env: &Environment,
    object: &Place,
    property: &PropertyLiteral,
) -> Option<MutationReason>
    ensures { result ≡ store_reason env.now object.now property.now }
{
    if is_current(property) && is_untyped_at(env, object.identifier) {
        Some(MutationReason::AssignCurrentProperty)
    } else {
        None
    }
}

/// `object.property = value` or `object[property] = value`.
pub(crate) fn push_property_store(
    effects: &mut AliasingEffects,
    lvalue: &Place,
    object: &Place,
    value: &Place,
    reason: Option<MutationReason>,
) -> Result<(), AllocError>
    ensures { OnOk result (effects.new ≡ effects.old ++ property_store_effects lvalue.now object.now value.now reason) }
{
    effects.push(AliasingEffect::Mutate {
        value: *object,
        reason,
    })?;
    effects.push(AliasingEffect::Capture {
        from: *value,
        into: *object,
    })?;
    push_create(effects, lvalue, ValueKind::Primitive)
}

/// `delete object.property` or `delete object[property]`.
pub(crate) fn push_delete(
    effects: &mut AliasingEffects,
    lvalue: &Place,
    object: &Place,
) -> Result<(), AllocError>
    ensures { OnOk result (effects.new ≡ effects.old ++ delete_effects lvalue.now object.now) }
{
    push_create(effects, lvalue, ValueKind::Primitive)?;
    effects.push(AliasingEffect::Mutate {
        value: *object,
        reason: None,
    })?;
    Ok(())
}
