//! Iteration over a value.
ghost use Rattle.std.specs.Prelude.{◌≡◌, ◌++◌, OnOk};
ghost use Rattle.alias_signature.specs.Iterators.{iteration_effects, get_iterator_effects, iterator_next_effects};

use crate::creating::push_create;
use alias_hir::effect::{AliasingEffect, AliasingEffects, ValueKind};
use alias_hir::env::Environment;
use alias_hir::place::Place;
use alias_hir::types::is_builtin_collection_at;
use std::alloc::AllocError;

/// Appends what iteration over the value may do to it.
pub(crate) fn push_iteration(
    effects: &mut AliasingEffects,
    env: &Environment,
    place: &Place,
) -> Result<(), AllocError>
    ensures { OnOk result (effects.new ≡ effects.old ++ iteration_effects env.now place.now) }
{
    if !is_builtin_collection_at(env, place.identifier) {
        effects.push(AliasingEffect::MutateTransitiveConditionally { value: *place })?;
    }
    Ok(())
}

/// The iterator that a `for`-`of` statement takes of the collection.
pub(crate) fn push_get_iterator(
    effects: &mut AliasingEffects,
    env: &Environment,
    lvalue: &Place,
    collection: &Place,
) -> Result<(), AllocError>
    ensures { OnOk result (effects.new ≡ effects.old ++ get_iterator_effects env.now lvalue.now collection.now) }
{
    push_create(effects, lvalue, ValueKind::Mutable)?;
    if is_builtin_collection_at(env, collection.identifier) {
        effects.push(AliasingEffect::Capture {
            from: *collection,
            into: *lvalue,
        })?;
    } else {
        effects.push(AliasingEffect::Alias {
            from: *collection,
            into: *lvalue,
        })?;
        effects.push(AliasingEffect::MutateTransitiveConditionally { value: *collection })?;
    }
    Ok(())
}

/// The next item of the iterator over the collection.
pub(crate) fn push_iterator_next(
    effects: &mut AliasingEffects,
    lvalue: &Place,
    iterator: &Place,
    collection: &Place,
) -> Result<(), AllocError>
    ensures { OnOk result (effects.new ≡ effects.old ++ iterator_next_effects lvalue.now iterator.now collection.now) }
{
    effects.push(AliasingEffect::MutateConditionally { value: *iterator })?;
    effects.push(AliasingEffect::CreateFrom {
        from: *collection,
        into: *lvalue,
    })?;
    Ok(())
}
