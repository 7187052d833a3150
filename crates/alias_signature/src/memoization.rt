//! The bounds of memoization that the author wrote.
ghost use Rattle.std.specs.Prelude.{◌≡◌, ◌++◌, map, OnOk};
ghost use Rattle.alias_visit.specs.Operands.{operands_of};
ghost use Rattle.alias_signature.specs.Memoization.{frozen, memoize_effects};

use crate::creating::push_create;
use alias_hir::effect::{AliasingEffect, AliasingEffects, ValueKind, ValueReason};
use alias_hir::env::Environment;
use alias_hir::place::Place;
use alias_hir::value::InstructionValue;
use alias_visit::operands::each_instruction_value_operand;
use std::alloc::{AllocError, Global};

fn push_frozen(effects: &mut AliasingEffects, operands: &[Place]) -> Result<(), AllocError>
    ensures { OnOk result (effects.new ≡ effects.old ++ map frozen operands.now) }
{
    for operand in operands {
        effects.push(AliasingEffect::Freeze {
            value: *operand,
            reason: ValueReason::HookCaptured,
        })?;
    }
    Ok(())
}

/// Where memoization begins or ends.
pub(crate) fn push_memoize(
    alloc: Global,
    effects: &mut AliasingEffects,
    env: &Environment,
    lvalue: &Place,
    value: &InstructionValue,
) -> Result<(), AllocError>
    ensures { OnOk result (effects.new ≡ effects.old ++ memoize_effects env.now lvalue.now (operands_of env.now value.now)) }
{
    if env.config.enable_preserve_existing_memoization_guarantees {
        let operands = each_instruction_value_operand(alloc, value, env)?;
        push_frozen(effects, operands.as_slice())?;
    }
    push_create(effects, lvalue, ValueKind::Primitive)
}
