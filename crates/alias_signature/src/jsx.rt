//! Elements, and fragments.
ghost use Rattle.std.specs.Prelude.{◌≡◌, ◌++◌, map, OnOk};
ghost use Rattle.std.specs.List.{flat_map};
ghost use Rattle.alias_hir.specs.Parts.{tag_places};
ghost use Rattle.alias_hir.specs.declared.effect.AliasingEffect.TheVariants.{Render};
ghost use Rattle.alias_visit.specs.Operands.{operands_of};
ghost use Rattle.alias_signature.specs.Jsx.{jsx_operand_effects, jsx_effects, attribute_effects, render_effects};

use alias_hir::effect::{AliasingEffect, AliasingEffects, ValueKind, ValueReason};
use alias_hir::env::Environment;
use alias_hir::place::Place;
use alias_hir::types::returns_jsx_at;
use alias_hir::value::{InstructionValue, JsxAttribute, JsxTag};
use alias_visit::operands::each_instruction_value_operand;
use std::alloc::{AllocError, Global};

fn push_operands(
    effects: &mut AliasingEffects,
    lvalue: &Place,
    operands: &[Place],
) -> Result<(), AllocError>
    ensures { OnOk result (effects.new ≡ effects.old ++ flat_map (jsx_operand_effects lvalue.now) operands.now) }
{
    for operand in operands {
        effects.push(AliasingEffect::Freeze {
            value: *operand,
            reason: ValueReason::JsxCaptured,
        })?;
        effects.push(AliasingEffect::Capture {
            from: *operand,
            into: *lvalue,
        })?;
    }
    Ok(())
}

/// `<>{child}</>`, or an element but for what it renders.
pub(crate) fn push_jsx(
    alloc: Global,
    effects: &mut AliasingEffects,
    env: &Environment,
    lvalue: &Place,
    value: &InstructionValue,
) -> Result<(), AllocError>
    ensures { OnOk result (effects.new ≡ effects.old ++ jsx_effects lvalue.now (operands_of env.now value.now)) }
{
    let operands = each_instruction_value_operand(alloc, value, env)?;
    effects.push(AliasingEffect::Create {
        into: *lvalue,
        value: ValueKind::Frozen,
        reason: ValueReason::JsxCaptured,
    })?;
    push_operands(effects, lvalue, operands.as_slice())
}

fn push_tag(effects: &mut AliasingEffects, tag: &JsxTag) -> Result<(), AllocError>
    ensures { OnOk result (effects.new ≡ effects.old ++ map Render (tag_places tag.now)) }
{
    match tag {
        JsxTag::Place(place) => effects.push(AliasingEffect::Render { place: *place })?,
        JsxTag::Builtin => {}
    }
    Ok(())
}

fn push_children(effects: &mut AliasingEffects, children: &[Place]) -> Result<(), AllocError>
    ensures { OnOk result (effects.new ≡ effects.old ++ map Render children.now) }
{
    for child in children {
        effects.push(AliasingEffect::Render { place: *child })?;
    }
    Ok(())
}

fn push_attribute(
    effects: &mut AliasingEffects,
    env: &Environment,
    attribute: &JsxAttribute,
) -> Result<(), AllocError>
    ensures { OnOk result (effects.new ≡ effects.old ++ attribute_effects env.now attribute.now) }
{
    match attribute {
        JsxAttribute::Attribute { place } => {
            if returns_jsx_at(env, place.identifier) {
                effects.push(AliasingEffect::Render { place: *place })?;
            }
        }
        JsxAttribute::Spread { .. } => {}
    }
    Ok(())
}

fn push_attributes(
    effects: &mut AliasingEffects,
    env: &Environment,
    props: &[JsxAttribute],
) -> Result<(), AllocError>
    ensures { OnOk result (effects.new ≡ effects.old ++ flat_map (attribute_effects env.now) props.now) }
{
    for attribute in props {
        push_attribute(effects, env, attribute)?;
    }
    Ok(())
}

/// What `<tag attribute={value} {...spread}>{child}</tag>` calls while it is rendered.
pub(crate) fn push_renders(
    effects: &mut AliasingEffects,
    env: &Environment,
    tag: &JsxTag,
    props: &[JsxAttribute],
    children: &[Place],
) -> Result<(), AllocError>
    ensures { OnOk result (effects.new ≡ effects.old ++ render_effects env.now tag.now props.now children.now) }
{
    push_tag(effects, tag)?;
    push_children(effects, children)?;
    push_attributes(effects, env, props)
}
