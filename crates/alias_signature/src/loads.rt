//! Reads of variables and properties.
ghost use Rattle.std.specs.Prelude.{◌≡◌, ◌++◌, OnOk};
ghost use Rattle.alias_signature.specs.Loads.{load_local_effects, property_load_effects};

use crate::creating::push_create;
use alias_hir::effect::{AliasingEffect, AliasingEffects, ValueKind};
use alias_hir::env::Environment;
use alias_hir::place::Place;
use alias_hir::types::is_primitive_at;
use std::alloc::AllocError;

/// `place`.
pub(crate) fn push_load_local(
    effects: &mut AliasingEffects,
    lvalue: &Place,
    place: &Place,
) -> Result<(), AllocError>
    ensures { OnOk result (effects.new ≡ effects.old ++ load_local_effects lvalue.now place.now) }
{
    effects.push(AliasingEffect::Assign {
        from: *place,
        into: *lvalue,
    })?;
    Ok(())
}

/// `object.property`.
pub(crate) fn push_property_load(
    effects: &mut AliasingEffects,
    env: &Environment,
    lvalue: &Place,
    object: &Place,
) -> Result<(), AllocError>
    ensures { OnOk result (effects.new ≡ effects.old ++ property_load_effects env.now lvalue.now object.now) }
{
    if is_primitive_at(env, lvalue.identifier) {
        return push_create(effects, lvalue, ValueKind::Primitive);
    }
    effects.push(AliasingEffect::CreateFrom {
        from: *object,
        into: *lvalue,
    })?;
    Ok(())
}
