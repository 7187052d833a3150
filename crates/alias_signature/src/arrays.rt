//! New arrays.
ghost use Rattle.std.specs.Prelude.{◌≡◌, ◌++◌, OnOk};
ghost use Rattle.std.specs.List.{flat_map};
ghost use Rattle.alias_signature.specs.Arrays.{element_effects, array_expression_effects};

use crate::creating::push_create;
use crate::iterators::push_iteration;
use alias_hir::effect::{AliasingEffect, AliasingEffects, ValueKind};
use alias_hir::env::Environment;
use alias_hir::place::Place;
use alias_hir::value::ArrayElement;
use std::alloc::AllocError;

fn push_element(
    effects: &mut AliasingEffects,
    env: &Environment,
    lvalue: &Place,
    element: &ArrayElement,
) -> Result<(), AllocError>
    ensures { OnOk result (effects.new ≡ effects.old ++ element_effects env.now lvalue.now element.now) }
{
    match element {
        ArrayElement::Place(place) => effects.push(AliasingEffect::Capture {
            from: *place,
            into: *lvalue,
        })?,
        ArrayElement::Spread(s) => {
            push_iteration(effects, env, &s.place)?;
            effects.push(AliasingEffect::Capture {
                from: s.place,
                into: *lvalue,
            })?;
        }
        ArrayElement::Hole => {}
    }
    Ok(())
}

fn push_elements(
    effects: &mut AliasingEffects,
    env: &Environment,
    lvalue: &Place,
    elements: &[ArrayElement],
) -> Result<(), AllocError>
    ensures { OnOk result (effects.new ≡ effects.old ++ flat_map (element_effects env.now lvalue.now) elements.now) }
{
    for element in elements {
        push_element(effects, env, lvalue, element)?;
    }
    Ok(())
}

/// `[element, , ...spread]`.
pub(crate) fn push_array_expression(
    effects: &mut AliasingEffects,
    env: &Environment,
    lvalue: &Place,
    elements: &[ArrayElement],
) -> Result<(), AllocError>
    ensures { OnOk result (effects.new ≡ effects.old ++ array_expression_effects env.now lvalue.now elements.now) }
{
    push_create(effects, lvalue, ValueKind::Mutable)?;
    push_elements(effects, env, lvalue, elements)
}
