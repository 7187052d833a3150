//! The effects of an instruction's places, by what is recorded of it.
ghost use Rattle.std.specs.Prelude.{◌≡◌, [], OnOk, IfOk};
ghost use Rattle.alias_range_pass.specs.places.Tables.{set_effect, effect_of, ends_past, source_effect, flow_tabled, effect_tabled, effects_tabled, recorded, table_of, with_table};

use alias_base::{EvaluationOrder, IdentifierId, List};
use alias_hir::effect::AliasingEffect;
use alias_hir::env::Identifier;
use alias_hir::hir::Instruction;
use alias_hir::place::{Effect, Place};
use indexmap::IndexMap;
use std::alloc::{AllocError, Global};
use std::marker::Model;

/// Effects of places by their identifiers. Contracts see the list of its entries.
#[derive(Drop)]
pub(crate) struct EffectTable {
    map: IndexMap<IdentifierId, Effect>,
}

impl Model for EffectTable {
    ghost use Rattle.alias_range_pass.specs.places.Tables.{Table};

    ghost Value = { Table };

    ghost view = { λ s. s.map.entries };
}

impl EffectTable {
    /// The table with no effect. Takes no memory.
    fn new(alloc: Global) -> EffectTable
        ensures { result ≡ [] }
    {
        EffectTable {
            map: IndexMap::new(alloc),
        }
    }

    fn set(&mut self, id: IdentifierId, effect: Effect) -> Result<(), AllocError>
        ensures { OnOk result (self.new ≡ set_effect id effect self.old) }
    {
        self.map.insert(id, effect)?;
        Ok(())
    }

    /// The effect of an identifier, or else the other one.
    fn effect_of(&self, other: Effect, id: IdentifierId) -> Effect
        ensures { result ≡ effect_of self.now other id }
    {
        match self.map.get(&id) {
            None => other,
            Some(effect) => *effect,
        }
    }
}

/// Whether the identifier's range ends after the order.
fn ends_past(identifiers: &List<Identifier>, order: EvaluationOrder, id: IdentifierId) -> bool
    ensures { result ≡ ends_past identifiers.now order id }
{
    match identifiers.get(id.0 as usize) {
        None => false,
        Some(identifier) => order.0 < identifier.mutable_range.end.0,
    }
}

/// The effect of a place whose value flows into the identifier at the order.
pub(crate) fn source_effect(
    identifiers: &List<Identifier>,
    order: EvaluationOrder,
    into: IdentifierId,
) -> Effect
    ensures { result ≡ source_effect identifiers.now order into }
{
    if ends_past(identifiers, order, into) {
        Effect::Capture
    } else {
        Effect::Read
    }
}

/// Sets that a value flows from one place into another.
fn set_flow(
    table: &mut EffectTable,
    identifiers: &List<Identifier>,
    order: EvaluationOrder,
    from: &Place,
    into: &Place,
) -> Result<(), AllocError>
    ensures { OnOk result (table.new ≡ flow_tabled identifiers.now order from.now into.now table.old) }
{
    let effect = source_effect(identifiers, order, into.identifier);
    table.set(from.identifier, effect)?;
    table.set(into.identifier, Effect::Store)
}

fn set_effect(
    table: &mut EffectTable,
    identifiers: &List<Identifier>,
    order: EvaluationOrder,
    effect: &AliasingEffect,
) -> Result<(), AllocError>
    ensures { OnOk result (table.new ≡ effect_tabled identifiers.now order effect.now table.old) }
{
    match effect {
        AliasingEffect::CreateFrom { from, into }
        | AliasingEffect::Assign { from, into }
        | AliasingEffect::Alias { from, into }
        | AliasingEffect::Capture { from, into }
        | AliasingEffect::MaybeAlias { from, into } => {
            set_flow(table, identifiers, order, from, into)
        }
        AliasingEffect::Freeze { value, .. } => table.set(value.identifier, Effect::Freeze),
        AliasingEffect::Mutate { value, .. } => table.set(value.identifier, Effect::Store),
        AliasingEffect::MutateConditionally { value }
        | AliasingEffect::MutateTransitive { value }
        | AliasingEffect::MutateTransitiveConditionally { value } => {
            table.set(value.identifier, Effect::ConditionallyMutate)
        }
        AliasingEffect::Apply { .. }
        | AliasingEffect::ImmutableCapture { .. }
        | AliasingEffect::Create { .. }
        | AliasingEffect::Impure { .. }
        | AliasingEffect::MutateFrozen { .. }
        | AliasingEffect::MutateGlobal { .. }
        | AliasingEffect::Render { .. }
        | AliasingEffect::CreateFunction { .. } => Ok(()),
    }
}

/// Sets what the effects of an instruction say, in order.
fn set_effects(
    table: &mut EffectTable,
    identifiers: &List<Identifier>,
    order: EvaluationOrder,
    effects: &[AliasingEffect],
) -> Result<(), AllocError>
    ensures { OnOk result (table.new ≡ effects_tabled identifiers.now order effects.now table.old) }
{
    for effect in effects {
        set_effect(table, identifiers, order, effect)?;
    }
    Ok(())
}

/// What the effects of an instruction say of its places.
pub(crate) fn table_of(
    alloc: Global,
    identifiers: &List<Identifier>,
    instruction: &Instruction,
) -> Result<EffectTable, AllocError>
    ensures { IfOk result (λ table. table ≡ table_of identifiers.now instruction.now) }
{
    let mut table = EffectTable::new(alloc);
    if let Some(effects) = &instruction.effects {
        set_effects(&mut table, identifiers, instruction.id, effects.as_slice())?;
    }
    Ok(table)
}

/// Sets the effect of a place to the table's, or else to the other one.
pub(crate) fn set_place(table: &EffectTable, other: Effect, place: &mut Place)
    ensures { place.new ≡ with_table table.now other place.old }
{
    place.effect = table.effect_of(other, place.identifier);
}
