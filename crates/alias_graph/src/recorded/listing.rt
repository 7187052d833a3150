//! What the effects of instructions record: the events of the alias graph, mutations and renders at their
//! positions, and what the summary begins with.
ghost use Rattle.std.specs.Prelude.{◌≡◌, Ok};
ghost use Rattle.alias_graph.specs.declared.types.EdgeKind.TheVariants.{Alias};
ghost use Rattle.alias_graph.specs.recorded.Listings.{Follows, position_after, made, made_once, linked, created_from, mutated, summarized, rendered, effect_listed, instruction_listed};
ghost use Rattle.alias_graph.specs.recorded.Each.{each};

use crate::recorded::events::EventList;
use crate::{EdgeKind, GraphEvent, MutationKind, NodeValue};
use alias_base::{EvaluationOrder, InstructionId, List};
use alias_hir::effect::{AliasingEffect, AliasingEffects, MutationReason};
use alias_hir::error::{Counter, HirError};
use alias_hir::hir::Instruction;
use alias_hir::place::Place;

/// A mutation that is recorded: its position, and the instruction and the order at which it stands.
#[derive(Clone, Copy, Debug, PartialEq, Eq)]
pub struct RecordedMutation {
    pub index: u32,
    pub instruction: InstructionId,
    pub order: EvaluationOrder,
    pub place: Place,
    pub transitive: bool,
    pub kind: MutationKind,
    pub reason: Option<MutationReason>,
}

/// A render that is recorded: its position, and the instruction at which it stands.
#[derive(Clone, Copy, Debug, PartialEq, Eq)]
pub struct RecordedRender {
    pub index: u32,
    pub instruction: InstructionId,
    pub place: Place,
}

/// What the effects so far record. `pending` has, for each block, the links of phi operands that wait for its end.
#[derive(Drop)]
pub struct Listing {
    /// The next position.
    pub next: u32,
    pub events: EventList,
    pub mutations: List<RecordedMutation>,
    pub renders: List<RecordedRender>,
    pub pending: List<List<GraphEvent>>,
    /// The effects that the summary begins with: errors and renders.
    pub summary: AliasingEffects,
}

/// The position after this one.
pub(crate) fn position_after(next: u32) -> Result<u32, HirError>
    ensures { result ≡ position_after next }
{
    if next < 4_294_967_295 {
        Ok(next + 1)
    } else {
        Err(HirError::TooMany(Counter::GraphPositions))
    }
}

pub(crate) fn make(listing: &mut Listing, value: NodeValue, place: &Place) -> Result<(), HirError>
    ensures { Follows (Ok (made value place.now listing.old)) result listing.new }
{
    listing.events.push(GraphEvent::Make {
        id: place.identifier,
        value,
    })?;
    Ok(())
}

/// Makes an object, where there is no node yet.
fn make_once(listing: &mut Listing, place: &Place) -> Result<(), HirError>
    ensures { Follows (Ok (made_once place.now listing.old)) result listing.new }
{
    if listing.events.has_made(place.identifier) {
        return Ok(());
    }
    make(listing, NodeValue::Object, place)
}

/// Links two places at the next position.
pub(crate) fn link(
    listing: &mut Listing,
    kind: EdgeKind,
    from: &Place,
    into: &Place,
) -> Result<(), HirError>
    ensures { Follows (linked kind from.now into.now listing.old) result listing.new }
{
    let after = position_after(listing.next)?;
    listing.events.push(GraphEvent::Link {
        kind,
        index: listing.next,
        from: from.identifier,
        into: into.identifier,
    })?;
    listing.next = after;
    Ok(())
}

fn assign(listing: &mut Listing, from: &Place, into: &Place) -> Result<(), HirError>
    ensures { Follows (linked Alias from.now into.now (made_once into.now listing.old)) result listing.new }
{
    make_once(listing, into)?;
    link(listing, EdgeKind::Alias, from, into)
}

fn create_from(listing: &mut Listing, from: &Place, into: &Place) -> Result<(), HirError>
    ensures { Follows (created_from from.now into.now listing.old) result listing.new }
{
    let after = position_after(listing.next)?;
    listing.events.push(GraphEvent::CreateFrom {
        index: listing.next,
        from: from.identifier,
        into: into.identifier,
    })?;
    listing.next = after;
    Ok(())
}

/// Keeps a mutation, at the next position.
fn mutate(
    listing: &mut Listing,
    instruction: InstructionId,
    order: EvaluationOrder,
    place: &Place,
    transitive: bool,
    kind: MutationKind,
    reason: Option<MutationReason>,
) -> Result<(), HirError>
    ensures { Follows (mutated instruction order place.now transitive kind reason listing.old) result listing.new }
{
    let after = position_after(listing.next)?;
    listing.mutations.push(RecordedMutation {
        index: listing.next,
        instruction,
        order,
        place: *place,
        transitive,
        kind,
        reason,
    })?;
    listing.next = after;
    Ok(())
}

/// Puts an effect into the summary.
fn summarize(listing: &mut Listing, effect: AliasingEffect) -> Result<(), HirError>
    ensures { Follows (Ok (summarized effect listing.old)) result listing.new }
{
    listing.summary.push(effect)?;
    Ok(())
}

/// Keeps a render, at the next position, and puts it into the summary.
fn render(listing: &mut Listing, instruction: InstructionId, place: &Place) -> Result<(), HirError>
    ensures { Follows (rendered instruction place.now listing.old) result listing.new }
{
    let after = position_after(listing.next)?;
    listing.renders.push(RecordedRender {
        index: listing.next,
        instruction,
        place: *place,
    })?;
    listing
        .summary
        .push(AliasingEffect::Render { place: *place })?;
    listing.next = after;
    Ok(())
}

/// Lists what an effect of an instruction of this order records.
fn list_effect(
    listing: &mut Listing,
    instruction: InstructionId,
    order: EvaluationOrder,
    effect: &AliasingEffect,
) -> Result<(), HirError>
    ensures { Follows (effect_listed instruction order effect.now listing.old) result listing.new }
{
    match effect {
        AliasingEffect::Apply { .. }
        | AliasingEffect::ImmutableCapture { .. }
        | AliasingEffect::Freeze { .. } => Ok(()),
        AliasingEffect::CreateFrom { from, into } => create_from(listing, from, into),
        AliasingEffect::Assign { from, into } => assign(listing, from, into),
        AliasingEffect::Alias { from, into } => link(listing, EdgeKind::Alias, from, into),
        AliasingEffect::Capture { from, into } => link(listing, EdgeKind::Capture, from, into),
        AliasingEffect::MaybeAlias { from, into } => {
            link(listing, EdgeKind::MaybeAlias, from, into)
        }
        AliasingEffect::Create { into, .. } => make(listing, NodeValue::Object, into),
        AliasingEffect::CreateFunction {
            into,
            function_id,
            ..
        } => make(
            listing,
            NodeValue::Function {
                function_id: *function_id,
            },
            into,
        ),
        AliasingEffect::Impure { place, error } => summarize(
            listing,
            AliasingEffect::Impure {
                place: *place,
                error: *error,
            },
        ),
        AliasingEffect::MutateFrozen { place, error } => summarize(
            listing,
            AliasingEffect::MutateFrozen {
                place: *place,
                error: *error,
            },
        ),
        AliasingEffect::MutateGlobal { place, error } => summarize(
            listing,
            AliasingEffect::MutateGlobal {
                place: *place,
                error: *error,
            },
        ),
        AliasingEffect::Render { place } => render(listing, instruction, place),
        AliasingEffect::Mutate { value, reason } => mutate(
            listing,
            instruction,
            order,
            value,
            false,
            MutationKind::Definite,
            *reason,
        ),
        AliasingEffect::MutateConditionally { value } => mutate(
            listing,
            instruction,
            order,
            value,
            false,
            MutationKind::Conditional,
            None,
        ),
        AliasingEffect::MutateTransitive { value } => mutate(
            listing,
            instruction,
            order,
            value,
            true,
            MutationKind::Definite,
            None,
        ),
        AliasingEffect::MutateTransitiveConditionally { value } => mutate(
            listing,
            instruction,
            order,
            value,
            true,
            MutationKind::Conditional,
            None,
        ),
    }
}

fn list_effects(
    listing: &mut Listing,
    instruction: InstructionId,
    order: EvaluationOrder,
    effects: &[AliasingEffect],
) -> Result<(), HirError>
    ensures { Follows (each (effect_listed instruction order) effects.now listing.old) result listing.new }
{
    for effect in effects {
        list_effect(listing, instruction, order, effect)?;
    }
    Ok(())
}

/// Lists what the effects of an instruction record.
fn list_instruction(
    listing: &mut Listing,
    instructions: &List<Instruction>,
    id: InstructionId,
) -> Result<(), HirError>
    ensures { Follows (instruction_listed instructions.now id listing.old) result listing.new }
{
    match instructions.get(id.0 as usize) {
        None => Ok(()),
        Some(instruction) => match &instruction.effects {
            None => Ok(()),
            Some(effects) => list_effects(listing, id, instruction.id, effects.as_slice()),
        },
    }
}

pub(crate) fn list_instructions(
    listing: &mut Listing,
    instructions: &List<Instruction>,
    ids: &[InstructionId],
) -> Result<(), HirError>
    ensures { Follows (each (instruction_listed instructions.now) ids.now listing.old) result listing.new }
{
    for id in ids {
        list_instruction(listing, instructions, *id)?;
    }
    Ok(())
}
