//! The interned effect of each key.

ghost use Rattle.std.specs.Prelude.{◌≡◌, ◌++◌, ◌∷◌, [], Some, IfOk, OnOk, OnErr};
ghost use Rattle.alias_base.specs.Indexes.{at_slot};
ghost use Rattle.alias_tables.specs.Keys.{key_of};
ghost use Rattle.alias_tables.specs.InternedEffects.{first_like, slot_like, if_new, AreKeysOf};

use crate::key::EffectKey;
use alias_base::{List, TryClone};
use alias_hir::effect::{AliasingEffect, AliasingEffects};
use indexmap::IndexSet;
use std::alloc::{AllocError, Global};
use std::marker::Model;

/// Effects in the order in which they came, no two of one key, and their keys in the same order.
pub struct InternedEffects {
    effects: AliasingEffects,
    keys: IndexSet<EffectKey>,
}

impl Drop for InternedEffects {
    fn drop(self) {
        let InternedEffects {
            effects: _,
            keys: _,
        } = self;
    }
}

impl Model for InternedEffects {
    ghost use Rattle.std.specs.Prelude.{List};
    ghost use Rattle.alias_hir.specs.declared.effect.AliasingEffect.{AliasingEffect};

    ghost Value = { List AliasingEffect };

    ghost use Rattle.alias_tables.specs.InternedEffects.{AreKeysOf};

    ghost view = { λ f. f.effects };

    ghost invariant = { λ f. AreKeysOf f.keys.keys f.effects };
}

fn push_copy(
    alloc: Global,
    effects: &mut AliasingEffects,
    effect: &AliasingEffect,
) -> Result<(), AllocError>
    ensures ok { OnOk result (effects.new ≡ effects.old ++ effect.now ∷ []) }
    ensures err { OnErr result (effects.new ≡ effects.old) }
{
    let copy = effect.try_clone(alloc)?;
    effects.push(copy)?;
    Ok(())
}

/// The slot of the key's interned effect. Where there is none, a copy of the effect goes last. An `Err` leaves both as they are.
fn slot_or_push(
    alloc: Global,
    effects: &mut AliasingEffects,
    keys: &mut IndexSet<EffectKey>,
    key: EffectKey,
    effect: &AliasingEffect,
) -> Result<Option<usize>, AllocError>
    requires index { AreKeysOf keys.old.keys effects.old }
    requires of_key { key_of effect.now ≡ Some key }
    ensures slot { IfOk result (λ slot. slot ≡ slot_like key effects.old) }
    ensures effects { OnOk result (effects.new ≡ if_new (slot_like key effects.old) effect.now effects.old) }
    ensures index { AreKeysOf keys.new.keys effects.new }
{
    let count = keys.len();
    let (slot, _) = keys.insert_full(key)?;
    if slot < count {
        return Ok(Some(slot));
    }
    match push_copy(alloc, effects, effect) {
        Ok(()) => Ok(None),
        Err(e) => {
            keys.truncate(count);
            Err(e)
        }
    }
}

fn copy_at(
    alloc: Global,
    effects: &AliasingEffects,
    slot: Option<usize>,
) -> Result<Option<AliasingEffect>, AllocError>
    ensures { IfOk result (λ copy. copy ≡ at_slot slot effects.now) }
{
    let Some(slot) = slot else {
        return Ok(None);
    };
    match effects.get(slot) {
        Some(effect) => Ok(Some(effect.try_clone(alloc)?)),
        None => Ok(None),
    }
}

fn drop_keys(keys: IndexSet<EffectKey>) {
    let _keys = keys;
}

impl InternedEffects {
    /// No effects. Takes no memory.
    pub fn new(alloc: Global) -> InternedEffects
        ensures { result ≡ [] }
    {
        InternedEffects {
            effects: List::new(alloc),
            keys: IndexSet::new(alloc),
        }
    }

    /// The effects, in order.
    pub fn as_slice(&self) -> &[AliasingEffect]
        ensures { result.now ≡ self.now }
    {
        self.effects.as_slice()
    }

    /// The effects, in order, by value.
    pub fn into_effects(self) -> AliasingEffects
        ensures { result ≡ self }
    {
        let InternedEffects { effects, keys } = self;
        drop_keys(keys);
        effects
    }

    /// A copy of the interned effect of the key. Where there is none, a copy of this one becomes it.
    pub fn first_or_push(
        &mut self,
        alloc: Global,
        key: EffectKey,
        effect: &AliasingEffect,
    ) -> Result<Option<AliasingEffect>, AllocError>
        requires { key_of effect.now ≡ Some key }
        ensures first { IfOk result (λ first. first ≡ first_like key self.old) }
        ensures effects { OnOk result (self.new ≡ if_new (first_like key self.old) effect.now self.old) }
    {
        let slot = slot_or_push(alloc, &mut self.effects, &mut self.keys, key, effect)?;
        copy_at(alloc, &self.effects, slot)
    }
}
