//! What tells effects apart.

ghost use Rattle.std.specs.Prelude.{◌≡◌, ◌++◌, ◌∷◌, [], IfOk, OnOk};
ghost use Rattle.alias_tables.specs.Keys.{ids_of, captures_of, key_of, with_error_of};
ghost use Rattle.alias_tables.specs.KeyHashes.{key_numbers};

use alias_base::{FunctionId, IdentifierId, List};
use alias_hir::effect::{AliasingEffect, ValueKind, ValueReason};
use alias_hir::place::Place;
use std::alloc::{AllocError, Global};
use std::cmp::Ordering;
use std::hash::{Hash, Hasher};

/// The identifiers that a function takes in.
#[derive(Drop)]
pub struct Captures {
    pub ids: List<IdentifierId>,
}

impl PartialEq for Captures {
    ghost use Rattle.std.specs.Ordering.{on, eq_by_cmp};
    ghost use Rattle.std.specs.Cmp.{partial_equiv_from_equiv};
    ghost use Rattle.std.specs.Cmp.Lexicographic.{slice_cmp};
    ghost use Rattle.alias_tables.specs.CaptureOrder.{by_ids, by_ids_total};
    ghost use Rattle.std.proofs.lemmas.Cmp.{eq_by_cmp_equiv};

    ghost eq = { eq_by_cmp by_ids };

    ghost laws = { partial_equiv_from_equiv (eq_by_cmp_equiv by_ids_total) };

    fn eq(&self, other: &Captures) -> bool {
        self.cmp(other).is_eq()
    }
}

impl Eq for Captures {
    ghost use Rattle.alias_tables.specs.CaptureOrder.{by_ids, by_ids_total};
    ghost use Rattle.std.proofs.lemmas.Cmp.{eq_by_cmp_equiv};

    ghost laws = { eq_by_cmp_equiv by_ids_total };
}

impl PartialOrd for Captures {
    ghost use Rattle.std.specs.Ordering.{as_partial_cmp};
    ghost use Rattle.std.specs.Cmp.{partial_order_from_total};
    ghost use Rattle.alias_tables.specs.CaptureOrder.{by_ids, by_ids_total};

    ghost partial_cmp = { as_partial_cmp by_ids };

    ghost laws = { partial_order_from_total by_ids_total };

    fn partial_cmp(&self, other: &Captures) -> Option<Ordering> {
        Some(self.cmp(other))
    }
}

impl Ord for Captures {
    ghost use Rattle.std.specs.Prelude.{refl};
    ghost use Rattle.alias_tables.specs.CaptureOrder.{by_ids, by_ids_total};

    ghost cmp = { by_ids };

    ghost total = { by_ids_total };

    ghost matches_partial_cmp = { λ a b. refl };

    ghost matches_eq = { λ a b. refl };

    fn cmp(&self, other: &Captures) -> Ordering {
        self.ids.as_slice().cmp(other.ids.as_slice())
    }
}

/// What tells effects apart: what is left out here are spans, flags of places, the reason of a write, and the
/// report of an impure call.
#[derive(Drop, PartialEq, Eq, PartialOrd, Ord)]
pub enum EffectKey {
    CreateFrom(IdentifierId, IdentifierId),
    ImmutableCapture(IdentifierId, IdentifierId),
    Assign(IdentifierId, IdentifierId),
    Alias(IdentifierId, IdentifierId),
    Capture(IdentifierId, IdentifierId),
    MaybeAlias(IdentifierId, IdentifierId),
    Create(IdentifierId, ValueKind, ValueReason),
    Freeze(IdentifierId, ValueReason),
    Impure(IdentifierId),
    MutateFrozen(IdentifierId, u32),
    MutateGlobal(IdentifierId, u32),
    Render(IdentifierId),
    Mutate(IdentifierId),
    MutateConditionally(IdentifierId),
    MutateTransitive(IdentifierId),
    MutateTransitiveConditionally(IdentifierId),
    CreateFunction(IdentifierId, FunctionId, Captures),
}

/// What a key is hashed by: a number of its kind, and two of the numbers that it has.
fn key_numbers(key: &EffectKey) -> (u8, u32, u32)
    ensures { result ≡ key_numbers key.now }
{
    match key {
        EffectKey::CreateFrom(from, into) => (0, from.0, into.0),
        EffectKey::ImmutableCapture(from, into) => (1, from.0, into.0),
        EffectKey::Assign(from, into) => (2, from.0, into.0),
        EffectKey::Alias(from, into) => (3, from.0, into.0),
        EffectKey::Capture(from, into) => (4, from.0, into.0),
        EffectKey::MaybeAlias(from, into) => (5, from.0, into.0),
        EffectKey::Create(into, _, _) => (6, into.0, 0),
        EffectKey::Freeze(value, _) => (7, value.0, 0),
        EffectKey::Impure(place) => (8, place.0, 0),
        EffectKey::MutateFrozen(place, identity) => (9, place.0, *identity),
        EffectKey::MutateGlobal(place, identity) => (10, place.0, *identity),
        EffectKey::Render(place) => (11, place.0, 0),
        EffectKey::Mutate(value) => (12, value.0, 0),
        EffectKey::MutateConditionally(value) => (13, value.0, 0),
        EffectKey::MutateTransitive(value) => (14, value.0, 0),
        EffectKey::MutateTransitiveConditionally(value) => (15, value.0, 0),
        EffectKey::CreateFunction(into, function, _) => (16, into.0, function.0),
    }
}

/// What else a key has isn't hashed: few keys differ in that alone.
impl Hash for EffectKey {
    ghost use Rattle.alias_tables.specs.KeyHashes.{fed_by};
    ghost use Rattle.alias_tables.specs.KeyHashLaws.{alike_keys};

    ghost hash_input = { fed_by };

    ghost respects_eq = { alike_keys };

    fn hash<H: Hasher>(&self, state: &mut H) {
        let (kind, first, second) = key_numbers(self);
        state.write_u8(kind);
        state.write_u32(first);
        state.write_u32(second);
    }
}

fn captures_of(alloc: Global, places: &[Place]) -> Result<Captures, AllocError>
    ensures { IfOk result (λ c. c ≡ captures_of places.now) }
{
    let mut ids = List::new(alloc);
    for place in places {
        ids.push(place.identifier)?;
    }
    Ok(Captures { ids })
}

/// The key of an effect. A call has none. The one error is out of memory.
pub fn effect_key(alloc: Global, effect: &AliasingEffect) -> Result<Option<EffectKey>, AllocError>
    ensures { IfOk result (λ k. k ≡ key_of effect.now) }
{
    match effect {
        AliasingEffect::Apply { .. } => Ok(None),
        AliasingEffect::CreateFrom { from, into } => Ok(Some(EffectKey::CreateFrom(
            from.identifier,
            into.identifier,
        ))),
        AliasingEffect::ImmutableCapture { from, into } => Ok(Some(EffectKey::ImmutableCapture(
            from.identifier,
            into.identifier,
        ))),
        AliasingEffect::Assign { from, into } => Ok(Some(EffectKey::Assign(
            from.identifier,
            into.identifier,
        ))),
        AliasingEffect::Alias { from, into } => Ok(Some(EffectKey::Alias(
            from.identifier,
            into.identifier,
        ))),
        AliasingEffect::Capture { from, into } => Ok(Some(EffectKey::Capture(
            from.identifier,
            into.identifier,
        ))),
        AliasingEffect::MaybeAlias { from, into } => Ok(Some(EffectKey::MaybeAlias(
            from.identifier,
            into.identifier,
        ))),
        AliasingEffect::Create {
            into,
            value,
            reason,
        } => Ok(Some(EffectKey::Create(into.identifier, *value, *reason))),
        AliasingEffect::Freeze { value, reason } => {
            Ok(Some(EffectKey::Freeze(value.identifier, *reason)))
        }
        AliasingEffect::Impure { place, .. } => Ok(Some(EffectKey::Impure(place.identifier))),
        AliasingEffect::MutateFrozen { place, error } => Ok(Some(EffectKey::MutateFrozen(
            place.identifier,
            error.identity,
        ))),
        AliasingEffect::MutateGlobal { place, error } => Ok(Some(EffectKey::MutateGlobal(
            place.identifier,
            error.identity,
        ))),
        AliasingEffect::Render { place } => Ok(Some(EffectKey::Render(place.identifier))),
        AliasingEffect::Mutate { value, .. } => Ok(Some(EffectKey::Mutate(value.identifier))),
        AliasingEffect::MutateConditionally { value } => {
            Ok(Some(EffectKey::MutateConditionally(value.identifier)))
        }
        AliasingEffect::MutateTransitive { value } => {
            Ok(Some(EffectKey::MutateTransitive(value.identifier)))
        }
        AliasingEffect::MutateTransitiveConditionally { value } => Ok(Some(
            EffectKey::MutateTransitiveConditionally(value.identifier),
        )),
        AliasingEffect::CreateFunction {
            into,
            function_id,
            captures,
        } => Ok(Some(EffectKey::CreateFunction(
            into.identifier,
            *function_id,
            captures_of(alloc, captures.as_slice())?,
        ))),
    }
}

/// The interned effect of a key with the report of a later one, where it has a report.
pub fn with_error_of(first: AliasingEffect, effect: &AliasingEffect) -> AliasingEffect
    ensures { result ≡ with_error_of first effect.now }
{
    match first {
        AliasingEffect::Impure { place, error } => match effect {
            AliasingEffect::Impure { error: own, .. } => AliasingEffect::Impure {
                place,
                error: *own,
            },
            _ => AliasingEffect::Impure { place, error },
        },
        AliasingEffect::MutateFrozen { place, error } => match effect {
            AliasingEffect::MutateFrozen { error: own, .. } => AliasingEffect::MutateFrozen {
                place,
                error: *own,
            },
            _ => AliasingEffect::MutateFrozen { place, error },
        },
        AliasingEffect::MutateGlobal { place, error } => match effect {
            AliasingEffect::MutateGlobal { error: own, .. } => AliasingEffect::MutateGlobal {
                place,
                error: *own,
            },
            _ => AliasingEffect::MutateGlobal { place, error },
        },
        // These have no report. Each is named, so that a new effect doesn't go without its own.
        AliasingEffect::Apply { .. }
        | AliasingEffect::CreateFrom { .. }
        | AliasingEffect::ImmutableCapture { .. }
        | AliasingEffect::Assign { .. }
        | AliasingEffect::Alias { .. }
        | AliasingEffect::Capture { .. }
        | AliasingEffect::MaybeAlias { .. }
        | AliasingEffect::Create { .. }
        | AliasingEffect::Freeze { .. }
        | AliasingEffect::Render { .. }
        | AliasingEffect::Mutate { .. }
        | AliasingEffect::MutateConditionally { .. }
        | AliasingEffect::MutateTransitive { .. }
        | AliasingEffect::MutateTransitiveConditionally { .. }
        | AliasingEffect::CreateFunction { .. } => first,
    }
}
