//! Variables that nested functions use too.
ghost use Rattle.std.specs.Prelude.{◌≡◌, [], ◌∷◌, ◌++◌, OnOk};
ghost use Rattle.alias_signature.specs.Contexts.{is_hoisted_at, is_reassigning, binding_effect, load_context_effects, declare_context_effects, store_context_effects};

use crate::creating::push_create;
use alias_base::IdentifierId;
use alias_facts::{Hoisted, declaration_of, is_hoisting};
use alias_hir::effect::{AliasingEffect, AliasingEffects, ValueKind};
use alias_hir::env::Environment;
use alias_hir::place::Place;
use alias_hir::value::{InstructionKind, LValue};
use std::alloc::AllocError;

fn is_hoisted_at(env: &Environment, hoisted: &Hoisted, identifier: IdentifierId) -> bool
    ensures { result ≡ is_hoisted_at env.now hoisted.now identifier }
{
    match declaration_of(env, identifier) {
        Some(declaration) => hoisted.contains(declaration),
        None => false,
    }
}

fn is_reassigning(kind: InstructionKind) -> bool
    ensures { result ≡ is_reassigning kind }
{
    matches!(kind, InstructionKind::Reassign)
}

fn push_binding(
    effects: &mut AliasingEffects,
    is_there: bool,
    variable: &Place,
) -> Result<(), AllocError>
    ensures { OnOk result (effects.new ≡ effects.old ++ binding_effect is_there variable.now ∷ []) }
{
    if !is_there {
        return push_create(effects, variable, ValueKind::Mutable);
    }
    effects.push(AliasingEffect::Mutate {
        value: *variable,
        reason: None,
    })?;
    Ok(())
}

/// A read of the variable.
pub(crate) fn push_load_context(
    effects: &mut AliasingEffects,
    lvalue: &Place,
    place: &Place,
) -> Result<(), AllocError>
    ensures { OnOk result (effects.new ≡ effects.old ++ load_context_effects lvalue.now place.now) }
{
    effects.push(AliasingEffect::CreateFrom {
        from: *place,
        into: *lvalue,
    })?;
    Ok(())
}

/// A declaration of the variable, which may have been moved to the front.
pub(crate) fn push_declare_context(
    effects: &mut AliasingEffects,
    env: &Environment,
    hoisted: &Hoisted,
    lvalue: &Place,
    variable: &LValue,
) -> Result<(), AllocError>
    ensures { OnOk result (effects.new ≡ effects.old ++ declare_context_effects env.now hoisted.now lvalue.now variable.now) }
{
    let is_there = !is_hoisting(variable.kind)
        && is_hoisted_at(env, hoisted, variable.place.identifier);
    push_binding(effects, is_there, &variable.place)?;
    push_create(effects, lvalue, ValueKind::Primitive)
}

/// A write of the variable, or its declaration with a value.
pub(crate) fn push_store_context(
    effects: &mut AliasingEffects,
    env: &Environment,
    hoisted: &Hoisted,
    lvalue: &Place,
    variable: &LValue,
    value: &Place,
) -> Result<(), AllocError>
    ensures { OnOk result (effects.new ≡ effects.old ++ store_context_effects env.now hoisted.now lvalue.now variable.now value.now) }
{
    let is_there = is_reassigning(variable.kind)
        || is_hoisted_at(env, hoisted, variable.place.identifier);
    push_binding(effects, is_there, &variable.place)?;
    effects.push(AliasingEffect::Capture {
        from: *value,
        into: variable.place,
    })?;
    effects.push(AliasingEffect::Assign {
        from: *value,
        into: *lvalue,
    })?;
    Ok(())
}
