//! New functions.
ghost use Rattle.std.specs.Prelude.{◌≡◌, ◌++◌, IfOk, OnOk};
ghost use Rattle.std.specs.List.{flat_map};
ghost use Rattle.alias_visit.specs.Operands.{context_at};
ghost use Rattle.alias_signature.specs.Functions.{captured, function_effects};

use alias_base::{FunctionId, List};
use alias_hir::effect::{AliasingEffect, AliasingEffects};
use alias_hir::env::Environment;
use alias_hir::place::{Effect, Place};
use alias_hir::value::LoweredFunction;
use std::alloc::{AllocError, Global};

fn context_at(env: &Environment, func: FunctionId) -> &[Place]
    ensures { result.now ≡ context_at env.now func }
{
    match env.functions.get(func.0 as usize) {
        Some(function) => function.context.as_slice(),
        None => &[],
    }
}

fn push_captured(captures: &mut List<Place>, place: &Place) -> Result<(), AllocError>
    ensures { OnOk result (captures.new ≡ captures.old ++ captured place.now) }
{
    match place.effect {
        Effect::Capture => captures.push(*place)?,
        _ => {}
    }
    Ok(())
}

fn captures(alloc: Global, context: &[Place]) -> Result<List<Place>, AllocError>
    ensures { IfOk result (λ l. l ≡ flat_map captured context.now) }
{
    let mut captures = List::new(alloc);
    for place in context {
        push_captured(&mut captures, place)?;
    }
    Ok(captures)
}

/// `function () {}`, `() => {}` or a method of an object.
pub(crate) fn push_function(
    alloc: Global,
    effects: &mut AliasingEffects,
    env: &Environment,
    lvalue: &Place,
    lowered: &LoweredFunction,
) -> Result<(), AllocError>
    ensures { OnOk result (effects.new ≡ effects.old ++ function_effects env.now lvalue.now lowered.now.func) }
{
    let captures = captures(alloc, context_at(env, lowered.func))?;
    effects.push(AliasingEffect::CreateFunction {
        into: *lvalue,
        function_id: lowered.func,
        captures,
    })?;
    Ok(())
}
