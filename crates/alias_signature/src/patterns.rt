//! Values that are taken apart.
ghost use Rattle.std.specs.Prelude.{◌≡◌, ◌++◌, OnOk};
ghost use Rattle.std.specs.List.{flat_map};
ghost use Rattle.alias_signature.specs.Patterns.{target_effects, rest_effects, item_effects, target_property_effects, pattern_effects, destructure_effects};

use crate::creating::push_create;
use alias_facts::Spreads;
use alias_hir::effect::{AliasingEffect, AliasingEffects, ValueKind};
use alias_hir::env::Environment;
use alias_hir::place::Place;
use alias_hir::types::is_primitive_at;
use alias_hir::value::{ArrayPatternElement, ObjectPropertyOrSpread, Pattern};
use std::alloc::AllocError;

fn push_target(
    effects: &mut AliasingEffects,
    env: &Environment,
    value: &Place,
    place: &Place,
) -> Result<(), AllocError>
    ensures { OnOk result (effects.new ≡ effects.old ++ target_effects env.now value.now place.now) }
{
    if is_primitive_at(env, place.identifier) {
        return push_create(effects, place, ValueKind::Primitive);
    }
    effects.push(AliasingEffect::CreateFrom {
        from: *value,
        into: *place,
    })?;
    Ok(())
}

fn push_rest(
    effects: &mut AliasingEffects,
    spreads: &Spreads,
    value: &Place,
    place: &Place,
) -> Result<(), AllocError>
    ensures { OnOk result (effects.new ≡ effects.old ++ rest_effects spreads.now value.now place.now) }
{
    let kind = if spreads.contains(place) {
        ValueKind::Frozen
    } else {
        ValueKind::Mutable
    };
    push_create(effects, place, kind)?;
    effects.push(AliasingEffect::Capture {
        from: *value,
        into: *place,
    })?;
    Ok(())
}

fn push_item(
    effects: &mut AliasingEffects,
    env: &Environment,
    spreads: &Spreads,
    value: &Place,
    item: &ArrayPatternElement,
) -> Result<(), AllocError>
    ensures { OnOk result (effects.new ≡ effects.old ++ item_effects env.now spreads.now value.now item.now) }
{
    match item {
        ArrayPatternElement::Place(place) => push_target(effects, env, value, place),
        ArrayPatternElement::Spread(s) => push_rest(effects, spreads, value, &s.place),
        ArrayPatternElement::Hole => Ok(()),
    }
}

fn push_items(
    effects: &mut AliasingEffects,
    env: &Environment,
    spreads: &Spreads,
    value: &Place,
    items: &[ArrayPatternElement],
) -> Result<(), AllocError>
    ensures { OnOk result (effects.new ≡ effects.old ++ flat_map (item_effects env.now spreads.now value.now) items.now) }
{
    for item in items {
        push_item(effects, env, spreads, value, item)?;
    }
    Ok(())
}

fn push_target_property(
    effects: &mut AliasingEffects,
    env: &Environment,
    spreads: &Spreads,
    value: &Place,
    property: &ObjectPropertyOrSpread,
) -> Result<(), AllocError>
    ensures { OnOk result (effects.new ≡ effects.old ++ target_property_effects env.now spreads.now value.now property.now) }
{
    match property {
        ObjectPropertyOrSpread::Property(p) => push_target(effects, env, value, &p.place),
        ObjectPropertyOrSpread::Spread(s) => push_rest(effects, spreads, value, &s.place),
    }
}

fn push_target_properties(
    effects: &mut AliasingEffects,
    env: &Environment,
    spreads: &Spreads,
    value: &Place,
    properties: &[ObjectPropertyOrSpread],
) -> Result<(), AllocError>
    ensures { OnOk result (effects.new ≡ effects.old ++ flat_map (target_property_effects env.now spreads.now value.now) properties.now) }
{
    for property in properties {
        push_target_property(effects, env, spreads, value, property)?;
    }
    Ok(())
}

fn push_pattern(
    effects: &mut AliasingEffects,
    env: &Environment,
    spreads: &Spreads,
    value: &Place,
    pattern: &Pattern,
) -> Result<(), AllocError>
    ensures { OnOk result (effects.new ≡ effects.old ++ pattern_effects env.now spreads.now value.now pattern.now) }
{
    match pattern {
        Pattern::Array(p) => push_items(effects, env, spreads, value, p.items.as_slice()),
        Pattern::Object(p) => {
            push_target_properties(effects, env, spreads, value, p.properties.as_slice())
        }
    }
}

/// `let pattern = value` or `pattern = value`.
pub(crate) fn push_destructure(
    effects: &mut AliasingEffects,
    env: &Environment,
    spreads: &Spreads,
    lvalue: &Place,
    pattern: &Pattern,
    value: &Place,
) -> Result<(), AllocError>
    ensures { OnOk result (effects.new ≡ effects.old ++ destructure_effects env.now spreads.now lvalue.now pattern.now value.now) }
{
    push_pattern(effects, env, spreads, value, pattern)?;
    effects.push(AliasingEffect::Assign {
        from: *value,
        into: *lvalue,
    })?;
    Ok(())
}
