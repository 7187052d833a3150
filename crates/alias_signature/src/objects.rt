//! New objects.
ghost use Rattle.std.specs.Prelude.{◌≡◌, ◌++◌, OnOk};
ghost use Rattle.std.specs.List.{flat_map};
ghost use Rattle.alias_signature.specs.Objects.{property_effects, object_expression_effects};

use crate::creating::push_create;
use alias_hir::effect::{AliasingEffect, AliasingEffects, ValueKind};
use alias_hir::place::Place;
use alias_hir::value::ObjectPropertyOrSpread;
use std::alloc::AllocError;

fn push_property(
    effects: &mut AliasingEffects,
    lvalue: &Place,
    property: &ObjectPropertyOrSpread,
) -> Result<(), AllocError>
    ensures { OnOk result (effects.new ≡ effects.old ++ property_effects lvalue.now property.now) }
{
    match property {
        ObjectPropertyOrSpread::Property(p) => effects.push(AliasingEffect::Capture {
            from: p.place,
            into: *lvalue,
        })?,
        ObjectPropertyOrSpread::Spread(s) => effects.push(AliasingEffect::Capture {
            from: s.place,
            into: *lvalue,
        })?,
    }
    Ok(())
}

fn push_properties(
    effects: &mut AliasingEffects,
    lvalue: &Place,
    properties: &[ObjectPropertyOrSpread],
) -> Result<(), AllocError>
    ensures { OnOk result (effects.new ≡ effects.old ++ flat_map (property_effects lvalue.now) properties.now) }
{
    for property in properties {
        push_property(effects, lvalue, property)?;
    }
    Ok(())
}

/// `{property, [key]: value, ...spread}`.
pub(crate) fn push_object_expression(
    effects: &mut AliasingEffects,
    lvalue: &Place,
    properties: &[ObjectPropertyOrSpread],
) -> Result<(), AllocError>
    ensures { OnOk result (effects.new ≡ effects.old ++ object_expression_effects lvalue.now properties.now) }
{
    push_create(effects, lvalue, ValueKind::Mutable)?;
    push_properties(effects, lvalue, properties)
}
