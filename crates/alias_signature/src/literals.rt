//! Values that are written out.
ghost use Rattle.std.specs.Prelude.{◌≡◌, ◌++◌, OnOk};
ghost use Rattle.alias_signature.specs.Literals.{primitive_effects};

use crate::creating::push_create;
use alias_hir::effect::{AliasingEffects, ValueKind};
use alias_hir::place::Place;
use std::alloc::AllocError;

/// A number, a text, `true`, `null` and the like.
pub(crate) fn push_primitive(
    effects: &mut AliasingEffects,
    lvalue: &Place,
) -> Result<(), AllocError>
    ensures { OnOk result (effects.new ≡ effects.old ++ primitive_effects lvalue.now) }
{
    push_create(effects, lvalue, ValueKind::Primitive)
}
