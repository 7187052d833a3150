//! The effect that makes a value.
ghost use Rattle.std.specs.Prelude.{◌≡◌, ◌++◌, ◌∷◌, [], OnOk};
ghost use Rattle.alias_signature.specs.Created.{created};

use alias_hir::effect::{AliasingEffect, AliasingEffects, ValueKind, ValueReason};
use alias_hir::place::Place;
use std::alloc::AllocError;

/// Appends that the place is a new value of the kind, for no reason that is known.
pub(crate) fn push_create(
    effects: &mut AliasingEffects,
    into: &Place,
    value: ValueKind,
) -> Result<(), AllocError>
    ensures { OnOk result (effects.new ≡ effects.old ++ created into.now value ∷ []) }
{
    effects.push(AliasingEffect::Create {
        into: *into,
        value,
        reason: ValueReason::Other,
    })?;
    Ok(())
}
