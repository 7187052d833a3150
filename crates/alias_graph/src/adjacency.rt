//! The places of links in the lists of their nodes.
ghost use Rattle.std.specs.Prelude.{◌≡◌, ℕ, ◌+◌, ◌<◌, [], length, IsTrue, OnOk, OnErr, IfOk};
ghost use Rattle.alias_graph.specs.Graph.{changed, has_source};
ghost use Rattle.alias_graph.specs.Nodes.{same_id};
ghost use Rattle.alias_graph.specs.Flat.{AllBelow, AllFit, NodeFits, IsFirst, but_last, sources_at, noted_slot, stored_fresh, stored_created, stored_sources, stored_sources_into, with_forward_slot, without_last_edge, with_source_slot, IsCreated};
ghost use Rattle.alias_graph.specs.KnownLinks.{found_early};

use crate::known_links::FEW;
use crate::node_map::NodeMap;
use crate::types::{EdgeKind, Node, NodeValue, StoredLink};
use alias_base::{IdentifierId, List};
use std::alloc::{AllocError, Global};

/// A node with no mark and no link.
pub(crate) fn fresh(alloc: Global, value: NodeValue) -> Node
    ensures { result ≡ stored_fresh value }
{
    Node {
        transitive: None,
        local: None,
        last_mutated: None,
        mutation_reason: None,
        value,
        forward: List::new(alloc),
        created_from: List::new(alloc),
        captures: List::new(alloc),
        aliases: List::new(alloc),
        maybe_aliases: List::new(alloc),
    }
}

/// The node that the link at `slot` makes. It is its own source where `is_own` is set.
pub(crate) fn created_node(alloc: Global, is_own: bool, slot: usize) -> Result<Node, AllocError>
    ensures { IfOk result (λ node. node ≡ stored_created is_own slot) }
{
    let mut node = fresh(alloc, NodeValue::Object);
    node.created_from.push(slot)?;
    if is_own {
        node.forward.push(slot)?;
    }
    Ok(node)
}

/// Whether a link from this node is among those at the places.
fn has_source(links: &[StoredLink], slots: &[usize], from: IdentifierId) -> bool
    requires { AllBelow (length links.now) slots.now }
    ensures { result ≡ has_source from (sources_at links.now slots.now) }
{
    for slot in slots {
        if from.0 == links[*slot].from.0 {
            return true;
        }
    }
    false
}

/// The slots of the links of a kind that enter a node.
pub(crate) fn sources_of(node: &Node, kind: EdgeKind) -> &[usize]
    ensures { result.now ≡ stored_sources kind node.now }
{
    match kind {
        EdgeKind::Capture => node.captures.as_slice(),
        EdgeKind::Alias => node.aliases.as_slice(),
        EdgeKind::MaybeAlias => node.maybe_aliases.as_slice(),
    }
}

/// Whether a link from this node is among the first few at the places. `None` where there are no more.
#[tactic(auto, using(crate::proofs::KnownLinks::early_few, crate::proofs::KnownLinks::early_many, crate::proofs::KnownLinks::below_taken))]
pub(crate) fn found_early(links: &[StoredLink], slots: &[usize], from: IdentifierId) -> Option<bool>
    requires { AllBelow (length links.now) slots.now }
    ensures { result ≡ found_early from (sources_at links.now slots.now) }
{
    if slots.len() < FEW {
        return None;
    }
    Some(has_source(links, &slots[..FEW], from))
}

/// Notes a link's slot, unless a link from the same node is there. Nothing is looked through where none is known to be.
#[tactic(auto, using(crate::proofs::Flats::below_push))]
fn note(
    slots: &mut List<usize>,
    links: &[StoredLink],
    slot: usize,
    is_new: bool,
) -> Result<(), AllocError>
    requires slot { slot < length links.now }
    requires slots { AllBelow (length links.now) slots.old }
    requires new { IsTrue is_new → IsFirst links.now slot slots.old }
    ensures noted { OnOk result (slots.new ≡ noted_slot links.now slot slots.old) }
    ensures fits { AllBelow (length links.now) slots.new }
    ensures err { OnErr result (slots.new ≡ slots.old) }
{
    if is_new || !has_source(links, slots.as_slice(), links[slot].from) {
        slots.push(slot)?;
    }
    Ok(())
}

/// Puts the slot of a link into the list of the node that it leaves, where the node is there.
#[tactic(auto, using(crate::proofs::Slots::changed_slot, crate::proofs::Slots::unchanged_slot, crate::proofs::Slots::no_hole, crate::proofs::Slots::same_slot, crate::proofs::Flats::fit_set))]
fn add_edge(nodes: &mut NodeMap, link: StoredLink, slot: usize) -> Result<(), AllocError>
    ensures ok { OnOk result (nodes.new ≡ changed nodes.old link.from (with_forward_slot slot)) }
    ensures err { OnErr result (nodes.new ≡ nodes.old) }
    ensures fits { (n : ℕ) → slot < n → AllFit n nodes.old → AllFit n nodes.new }
{
    if let Some(at) = nodes.slot_near(link.from, link.from_hint)
        && let Some(node) = nodes.get_index_mut(at)
    {
        node.forward.push(slot)?;
    }
    Ok(())
}

/// Drops the last slot, if there is one.
fn drop_last(slots: &mut List<usize>)
    ensures { slots.new ≡ but_last slots.old }
{
    let _last = slots.pop();
}

/// Takes the newest link out of the list of the node that it leaves, where the node is there.
#[tactic(auto, using(crate::proofs::Slots::changed_slot, crate::proofs::Slots::unchanged_slot, crate::proofs::Slots::no_hole))]
fn drop_edge(nodes: &mut NodeMap, from: IdentifierId)
    ensures { nodes.new ≡ changed nodes.old from without_last_edge }
{
    if let Some(at) = nodes.slot_of(from)
        && let Some(node) = nodes.get_index_mut(at)
    {
        drop_last(&mut node.forward);
    }
}

/// Puts the node that the link at `slot` makes, and the slot into the list of the node that it leaves.
#[tactic(auto, using(crate::proofs::Undoing::created_own, crate::proofs::Undoing::created_apart))]
pub(crate) fn put_created(
    nodes: &mut NodeMap,
    link: StoredLink,
    slot: usize,
    node: Node,
) -> Result<(), AllocError>
    requires { node ≡ stored_created (same_id link.from link.into) slot }
    ensures ok { OnOk result (IsCreated nodes.old link.from link.into slot nodes.new) }
    ensures err { OnErr result (nodes.new ≡ nodes.old) }
{
    if link.from.0 == link.into.0 {
        nodes.insert(link.into, node)?;
        return Ok(());
    }
    add_edge(nodes, link, slot)?;
    match nodes.insert(link.into, node) {
        Ok(_) => Ok(()),
        Err(_) => {
            drop_edge(nodes, link.from);
            Err(AllocError)
        }
    }
}

/// Puts the slot of a link into the list that links of this kind have in the node that they enter.
fn note_source(
    node: &mut Node,
    kind: EdgeKind,
    links: &[StoredLink],
    slot: usize,
    is_new: bool,
) -> Result<(), AllocError>
    requires slot { slot < length links.now }
    requires fits { NodeFits (length links.now) node.old }
    requires new { IsTrue is_new → IsFirst links.now slot (stored_sources kind node.old) }
    ensures fits { NodeFits (length links.now) node.new }
    ensures ok { OnOk result (node.new ≡ with_source_slot kind links.now slot node.old) }
    ensures err { OnErr result (node.new ≡ node.old) }
{
    match kind {
        EdgeKind::Capture => note(&mut node.captures, links, slot, is_new),
        EdgeKind::Alias => note(&mut node.aliases, links, slot, is_new),
        EdgeKind::MaybeAlias => note(&mut node.maybe_aliases, links, slot, is_new),
    }
}

/// Puts the slot of a link into the list of the node that it enters, where the node is there.
#[tactic(auto, using(crate::proofs::Slots::changed_slot, crate::proofs::Slots::unchanged_slot, crate::proofs::Slots::no_hole, crate::proofs::Slots::same_slot, crate::proofs::Flats::fit_set, crate::proofs::Flats::fit_at))]
fn add_source(
    nodes: &mut NodeMap,
    links: &[StoredLink],
    link: StoredLink,
    slot: usize,
    is_new: bool,
) -> Result<(), AllocError>
    requires slot { slot < length links.now }
    requires fit { AllFit (length links.now) nodes.old }
    requires new { IsTrue is_new → IsFirst links.now slot (stored_sources_into nodes.old link.into link.kind) }
    ensures ok { OnOk result (nodes.new ≡ changed nodes.old link.into (with_source_slot link.kind links.now slot)) }
    ensures err { OnErr result (nodes.new ≡ nodes.old) }
    ensures fits { AllFit (length links.now) nodes.new }
{
    if let Some(at) = nodes.slot_near(link.into, link.into_hint)
        && let Some(node) = nodes.get_index_mut(at)
    {
        note_source(node, link.kind, links, slot, is_new)?;
    }
    Ok(())
}

/// Puts the slot of a link into the lists of both of its ends. Nothing is looked through where no such link is known to be.
#[tactic(auto, using(crate::proofs::Flats::forward_keeps))]
pub(crate) fn put_link(
    nodes: &mut NodeMap,
    links: &[StoredLink],
    link: StoredLink,
    slot: usize,
    is_new: bool,
) -> Result<(), AllocError>
    requires slot { slot < length links.now }
    requires fit { AllFit (length links.now) nodes.old }
    requires new { IsTrue is_new → IsFirst links.now slot (stored_sources_into nodes.old link.into link.kind) }
    ensures ok { OnOk result (nodes.new ≡ changed (changed nodes.old link.from (with_forward_slot slot)) link.into (with_source_slot link.kind links.now slot)) }
    ensures err { OnErr result (nodes.new ≡ nodes.old) }
    ensures fits { AllFit (length links.now) nodes.new }
{
    add_edge(nodes, link, slot)?;
    match add_source(nodes, links, link, slot, is_new) {
        Ok(()) => Ok(()),
        Err(error) => {
            drop_edge(nodes, link.from);
            Err(error)
        }
    }
}
