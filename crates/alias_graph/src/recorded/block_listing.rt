//! What the blocks of a function record, and the function.
ghost use Rattle.std.specs.Prelude.{◌≡◌, ◌++◌, [], replicate, IfOk, OnOk};
ghost use Rattle.alias_base.specs.Answer.{Gives};
ghost use Rattle.alias_hir.specs.Errors.{is_hir_memory};
ghost use Rattle.alias_hir.specs.Parts.{param_place};
ghost use Rattle.alias_hir.specs.Terminals.{terminal_effects};
ghost use Rattle.alias_graph.specs.recorded.Listings.{Follows};
ghost use Rattle.alias_graph.specs.recorded.BlockListings.{pending_more, added_or_pending, operand_listed, phi_listed, returns_listed, alias_listed, aliases_in, with_pending, end_listed, block_listed, blocks_listed, object_of, first_events, first_listing, listed};
ghost use Rattle.alias_graph.specs.recorded.Each.{each};

use crate::recorded::events::EventList;
use crate::recorded::listing::{Listing, link, list_instructions, make, position_after};
use crate::{EdgeKind, GraphEvent, NodeValue};
use alias_base::{BlockId, BlockMap, List};
use alias_hir::effect::AliasingEffect;
use alias_hir::error::HirError;
use alias_hir::hir::{BasicBlock, HirFunction, ParamPattern, Phi};
use alias_hir::place::Place;
use alias_hir::terminal::Terminal;
use std::alloc::{AllocError, Global};

/// Keeps an event for the end of the block in a slot.
fn append_pending(
    pending: &mut List<List<GraphEvent>>,
    slot: usize,
    event: GraphEvent,
) -> Result<(), AllocError>
    ensures { OnOk result (pending.new ≡ pending_more pending.old slot event) }
{
    if let Some(events) = pending.get_mut(slot) {
        events.push(event)?;
    }
    Ok(())
}

/// Adds an event where its block is done, of which there are `done`; else it waits for the end of its block.
fn add_or_wait(
    listing: &mut Listing,
    done: usize,
    slot: Option<usize>,
    event: GraphEvent,
) -> Result<(), AllocError>
    ensures { OnOk result (listing.new ≡ added_or_pending done slot event listing.old) }
{
    match slot {
        None => Ok(()),
        Some(slot) => {
            if slot < done {
                listing.events.push(event)
            } else {
                append_pending(&mut listing.pending, slot, event)
            }
        }
    }
}

/// Lists an operand that comes by the edge from a block, where `done` blocks are done.
fn list_operand(
    listing: &mut Listing,
    blocks: &BlockMap<BasicBlock>,
    done: usize,
    into: &Place,
    block: BlockId,
    from: &Place,
) -> Result<(), HirError>
    ensures { Follows (operand_listed blocks.now done into.now (block, from.now) listing.old) result listing.new }
{
    let index = listing.next;
    listing.next = position_after(index)?;
    let event = GraphEvent::Link {
        kind: EdgeKind::Alias,
        index,
        from: from.identifier,
        into: into.identifier,
    };
    add_or_wait(listing, done, blocks.position(block), event)?;
    Ok(())
}

fn list_phi(
    listing: &mut Listing,
    blocks: &BlockMap<BasicBlock>,
    done: usize,
    phi: &Phi,
) -> Result<(), HirError>
    ensures { Follows (phi_listed blocks.now done phi.now listing.old) result listing.new }
{
    make(listing, NodeValue::Phi, &phi.place)?;
    for (block, from) in phi.operands.iter() {
        list_operand(listing, blocks, done, &phi.place, *block, from)?;
    }
    Ok(())
}

fn list_phis(
    listing: &mut Listing,
    blocks: &BlockMap<BasicBlock>,
    done: usize,
    phis: &[Phi],
) -> Result<(), HirError>
    ensures { Follows (each (phi_listed blocks.now done) phis.now listing.old) result listing.new }
{
    for phi in phis {
        list_phi(listing, blocks, done, phi)?;
    }
    Ok(())
}

fn list_returns(listing: &mut Listing, returns: &Place, terminal: &Terminal) -> Result<(), HirError>
    ensures { Follows (returns_listed returns.now terminal.now listing.old) result listing.new }
{
    match terminal {
        Terminal::Return { value, .. } => link(listing, EdgeKind::Alias, value, returns),
        Terminal::Goto { .. }
        | Terminal::If { .. }
        | Terminal::Branch { .. }
        | Terminal::Switch { .. }
        | Terminal::For { .. }
        | Terminal::ForOf { .. }
        | Terminal::ForIn { .. }
        | Terminal::DoWhile { .. }
        | Terminal::While { .. }
        | Terminal::Logical { .. }
        | Terminal::Ternary { .. }
        | Terminal::Optional { .. }
        | Terminal::Throw { .. }
        | Terminal::Unreachable { .. }
        | Terminal::Try { .. }
        | Terminal::MaybeThrow { .. }
        | Terminal::Label { .. }
        | Terminal::Sequence { .. }
        | Terminal::Scope { .. }
        | Terminal::PrunedScope { .. } => Ok(()),
    }
}

/// Lists an effect of a terminal.
fn list_alias(listing: &mut Listing, effect: &AliasingEffect) -> Result<(), HirError>
    ensures { Follows (alias_listed effect.now listing.old) result listing.new }
{
    match effect {
        AliasingEffect::Alias { from, into } => link(listing, EdgeKind::Alias, from, into),
        AliasingEffect::Apply { .. }
        | AliasingEffect::CreateFrom { .. }
        | AliasingEffect::ImmutableCapture { .. }
        | AliasingEffect::Assign { .. }
        | AliasingEffect::Capture { .. }
        | AliasingEffect::MaybeAlias { .. }
        | AliasingEffect::Create { .. }
        | AliasingEffect::Freeze { .. }
        | AliasingEffect::Impure { .. }
        | AliasingEffect::MutateFrozen { .. }
        | AliasingEffect::MutateGlobal { .. }
        | AliasingEffect::Render { .. }
        | AliasingEffect::Mutate { .. }
        | AliasingEffect::MutateConditionally { .. }
        | AliasingEffect::MutateTransitive { .. }
        | AliasingEffect::MutateTransitiveConditionally { .. }
        | AliasingEffect::CreateFunction { .. } => Ok(()),
    }
}

fn list_aliases(listing: &mut Listing, effects: &[AliasingEffect]) -> Result<(), HirError>
    ensures { Follows (each alias_listed effects.now listing.old) result listing.new }
{
    for effect in effects {
        list_alias(listing, effect)?;
    }
    Ok(())
}

fn list_terminal_effects(listing: &mut Listing, terminal: &Terminal) -> Result<(), HirError>
    ensures { Follows (aliases_in (terminal_effects terminal.now) listing.old) result listing.new }
{
    match terminal.effects() {
        None => Ok(()),
        Some(effects) => list_aliases(listing, effects.as_slice()),
    }
}

fn add_all(events: &mut EventList, more: &[GraphEvent]) -> Result<(), AllocError>
    ensures { OnOk result (events.new ≡ events.old ++ more.now) }
{
    for event in more {
        events.push(*event)?;
    }
    Ok(())
}

/// Adds what waits for the end of the block in a slot.
fn add_pending(listing: &mut Listing, slot: usize) -> Result<(), AllocError>
    ensures { OnOk result (listing.new ≡ with_pending slot listing.old) }
{
    match listing.pending.get(slot) {
        None => Ok(()),
        Some(pending) => add_all(&mut listing.events, pending.as_slice()),
    }
}

/// Lists the end of the block in a slot: what waited for it, what is returned, and aliases.
fn list_end(
    listing: &mut Listing,
    returns: &Place,
    slot: usize,
    terminal: &Terminal,
) -> Result<(), HirError>
    ensures { Follows (end_listed returns.now slot terminal.now listing.old) result listing.new }
{
    add_pending(listing, slot)?;
    list_returns(listing, returns, terminal)?;
    list_terminal_effects(listing, terminal)
}

fn list_block(
    listing: &mut Listing,
    func: &HirFunction,
    slot: usize,
    block: &BasicBlock,
) -> Result<(), HirError>
    ensures { Follows (block_listed func.now slot block.now listing.old) result listing.new }
{
    list_phis(listing, &func.body.blocks, slot, block.phis.as_slice())?;
    list_instructions(listing, &func.instructions, block.instructions.as_slice())?;
    list_end(listing, &func.returns, slot, &block.terminal)
}

#[tactic(auto, using(crate::proofs::recorded::Drops::drop_none))]
fn list_blocks(listing: &mut Listing, func: &HirFunction) -> Result<(), HirError>
    ensures { Follows (blocks_listed func.now 0 func.now.body.blocks listing.old) result listing.new }
{
    for slot in 0..func.body.blocks.len() {
        let Some((_, block)) = func.body.blocks.get_index(slot) else {
            return Ok(());
        };
        list_block(listing, func, slot, block)?;
    }
    Ok(())
}

pub fn param_place(param: &ParamPattern) -> &Place
    ensures { result.now ≡ param_place param.now }
{
    match param {
        ParamPattern::Place(place) => place,
        ParamPattern::Spread(spread) => &spread.place,
    }
}

fn object_of(place: &Place) -> GraphEvent
    ensures { result ≡ object_of place.now }
{
    GraphEvent::Make {
        id: place.identifier,
        value: NodeValue::Object,
    }
}

/// Parameters, context places and returns are made first.
fn first_events(alloc: Global, func: &HirFunction) -> Result<EventList, AllocError>
    ensures { IfOk result (λ events. events ≡ first_events func.now) }
{
    let mut events = EventList::new(alloc);
    for param in func.params.as_slice() {
        events.push(object_of(param_place(param)))?;
    }
    for place in func.context.as_slice() {
        events.push(object_of(place))?;
    }
    events.push(object_of(&func.returns))?;
    Ok(events)
}

/// A list for each block, in which nothing is pending.
fn nothing_pending(alloc: Global, count: usize) -> Result<List<List<GraphEvent>>, AllocError>
    ensures { IfOk result (λ pending. pending ≡ replicate count []) }
{
    let mut pending = List::new(alloc);
    for _ in 0..count {
        pending.push(List::new(alloc))?;
    }
    Ok(pending)
}

fn first_listing(alloc: Global, func: &HirFunction) -> Result<Listing, AllocError>
    ensures { IfOk result (λ listing. listing ≡ first_listing func.now) }
{
    Ok(Listing {
        next: 0,
        events: first_events(alloc, func)?,
        mutations: List::new(alloc),
        renders: List::new(alloc),
        pending: nothing_pending(alloc, func.body.blocks.len())?,
        summary: List::new(alloc),
    })
}

/// What a function's effects record. An effect that is `Apply` adds nothing. `TooMany` comes exactly where a
/// position above the last is needed.
pub fn list_function(alloc: Global, func: &HirFunction) -> Result<Listing, HirError>
    ensures { Gives is_hir_memory (listed func.now) result }
{
    let mut listing = first_listing(alloc, func)?;
    list_blocks(&mut listing, func)?;
    Ok(listing)
}
