//! The graph of aliases.
ghost use Rattle.std.specs.Prelude.{◌≡◌, ℕ, ◌+◌, ◌<◌, [], length, false, IsTrue, OnOk, OnErr, IfOk, option_map, map, slice_get};
ghost use Rattle.alias_graph.specs.declared.types.EdgeKind.{EdgeKind};
ghost use Rattle.alias_graph.specs.Graph.{created, made_from, linked, has_source};
ghost use Rattle.alias_graph.specs.KnownLinks.{found_early, sources_into};
ghost use Rattle.alias_graph.specs.Nodes.{node_at, OneMore, SameIds};
ghost use Rattle.alias_graph.specs.Lists.{links_in, link_in, forward_link, backward_link};
ghost use Rattle.alias_graph.specs.Flat.{AllBelow, NodeFits, node_of, edge_of, source_of, edges_at, sources_at, marks_of, stored_marks};

use crate::adjacency::{created_node, found_early, fresh, put_created, put_link, sources_of};
use crate::node_map::{NodeMap, SlotHint};
use crate::scratch::Scratch;
use crate::types::{EdgeKind, Link, LinkList, Node, NodeValue, StoredLink};
use alias_base::{IdentifierId, List};
use alias_hir::place::Place;
use std::alloc::{AllocError, Global};
use std::marker::Model;

/// Nodes by their identifiers, with the links between them. Contracts see it as the list of its nodes, each
/// with its lists of links.
///
/// All links stand in one list, and a node has the slots of its own. After an `Err` a link may be there
/// that no node has. What walks write while they run is kept for the next walk, and is no part of the value.
pub struct AliasGraph {
    pub(crate) alloc: Global,
    pub(crate) nodes: NodeMap,
    pub(crate) links: List<StoredLink>,
    pub(crate) scratch: Scratch,
}

impl Drop for AliasGraph {
    fn drop(self) {
        let AliasGraph {
            alloc: _,
            nodes: _,
            links: _,
            scratch: _,
        } = self;
    }
}

impl Model for AliasGraph {
    ghost use Rattle.alias_graph.specs.Nodes.{Nodes};
    ghost use Rattle.alias_graph.specs.Flat.{LinksFit, nodes_of};

    ghost Value = { Nodes };

    ghost view = { λ g. nodes_of g.links g.nodes };

    ghost invariant = { λ g. LinksFit g.links g.nodes };
}

/// The link as the node that it leaves has it.
fn forward_link(link: StoredLink) -> Link
    ensures { result ≡ forward_link (edge_of link) }
{
    Link {
        index: link.index,
        other: link.into,
        edge: Some(link.kind),
    }
}

/// The link as the node that it enters has it.
fn backward_link(link: StoredLink) -> Link
    ensures { result ≡ backward_link (source_of link) }
{
    Link {
        index: link.index,
        other: link.from,
        edge: None,
    }
}

/// The link at a position of a forward list.
#[tactic(auto, using(crate::proofs::Lists::below_at, crate::proofs::Lists::edge_there, crate::proofs::Lists::edge_missing))]
fn edge_in(links: &[StoredLink], slots: &[usize], position: usize) -> Option<Link>
    requires { AllBelow (length links.now) slots.now }
    ensures { result ≡ slice_get (map forward_link (edges_at links.now slots.now)) position }
{
    if position < slots.len() {
        Some(forward_link(links[slots[position]]))
    } else {
        None
    }
}

/// The link at a position of a backward list.
#[tactic(auto, using(crate::proofs::Lists::below_at, crate::proofs::Lists::source_there, crate::proofs::Lists::source_missing))]
fn source_in(links: &[StoredLink], slots: &[usize], position: usize) -> Option<Link>
    requires { AllBelow (length links.now) slots.now }
    ensures { result ≡ slice_get (map backward_link (sources_at links.now slots.now)) position }
{
    if position < slots.len() {
        Some(backward_link(links[slots[position]]))
    } else {
        None
    }
}

/// The link at a position of one of the node's lists.
fn link_of(links: &[StoredLink], node: &Node, list: LinkList, position: usize) -> Option<Link>
    requires { NodeFits (length links.now) node.now }
    ensures { result ≡ slice_get (links_in list (node_of links.now node.now)) position }
{
    match list {
        LinkList::Forward => edge_in(links, node.forward.as_slice(), position),
        LinkList::CreatedFrom => source_in(links, node.created_from.as_slice(), position),
        LinkList::Captures => source_in(links, node.captures.as_slice(), position),
        LinkList::Aliases => source_in(links, node.aliases.as_slice(), position),
        LinkList::MaybeAliases => source_in(links, node.maybe_aliases.as_slice(), position),
    }
}

impl AliasGraph {
    /// The graph with no node. Takes no memory.
    pub fn new(alloc: Global) -> AliasGraph
        ensures { result ≡ [] }
    {
        AliasGraph {
            alloc,
            nodes: NodeMap::new(alloc),
            links: List::new(alloc),
            scratch: Scratch::new(alloc),
        }
    }

    /// Makes the node of the place's identifier, with no mark and no link. It replaces one that is there.
    pub fn create(&mut self, place: &Place, value: NodeValue) -> Result<(), AllocError>
        ensures ok { OnOk result (self.new ≡ created self.old place.now.identifier value) }
        ensures nodes { OnOk result (OneMore place.now.identifier self.old self.new) }
        ensures err { OnErr result (self.new ≡ self.old) }
    {
        self.make(place.identifier, value)
    }

    /// Makes an object node of `into` that was made from a part of `from`. The node of `from` need not be there.
    pub fn create_from(&mut self, index: u32, from: &Place, into: &Place) -> Result<(), AllocError>
        ensures ok { OnOk result (self.new ≡ made_from self.old index from.now.identifier into.now.identifier) }
        ensures nodes { OnOk result (OneMore into.now.identifier self.old self.new) }
        ensures err { OnErr result (self.new ≡ self.old) }
    {
        self.make_from(index, from.identifier, into.identifier)
    }

    /// Links two nodes: `into` holds `from`. Does nothing unless both are there.
    pub fn capture(&mut self, index: u32, from: &Place, into: &Place) -> Result<(), AllocError>
        ensures ok { OnOk result (self.new ≡ linked EdgeKind.Capture self.old index from.now.identifier into.now.identifier) }
        ensures nodes { OnOk result (SameIds self.old self.new) }
        ensures err { OnErr result (self.new ≡ self.old) }
    {
        self.join(
            EdgeKind::Capture,
            index,
            from.identifier,
            into.identifier,
            false,
        )
    }

    /// Links two nodes: `into` is `from`. Does nothing unless both are there.
    pub fn assign(&mut self, index: u32, from: &Place, into: &Place) -> Result<(), AllocError>
        ensures ok { OnOk result (self.new ≡ linked EdgeKind.Alias self.old index from.now.identifier into.now.identifier) }
        ensures nodes { OnOk result (SameIds self.old self.new) }
        ensures err { OnErr result (self.new ≡ self.old) }
    {
        self.join(
            EdgeKind::Alias,
            index,
            from.identifier,
            into.identifier,
            false,
        )
    }

    /// Links two nodes: `into` may be `from`. Does nothing unless both are there.
    pub fn maybe_alias(&mut self, index: u32, from: &Place, into: &Place) -> Result<(), AllocError>
        ensures ok { OnOk result (self.new ≡ linked EdgeKind.MaybeAlias self.old index from.now.identifier into.now.identifier) }
        ensures nodes { OnOk result (SameIds self.old self.new) }
        ensures err { OnErr result (self.new ≡ self.old) }
    {
        self.join(
            EdgeKind::MaybeAlias,
            index,
            from.identifier,
            into.identifier,
            false,
        )
    }

    /// The node of an identifier.
    #[tactic(auto, using(crate::proofs::Flats::node_at_of))]
    pub fn node(&self, id: IdentifierId) -> Option<&Node>
        ensures { option_map (λ node. stored_marks node.now) result ≡ option_map marks_of (node_at self.now id) }
    {
        self.nodes.get(id)
    }

    /// The link at a position, counted from 0, of one of a node's lists. Takes no memory.
    #[tactic(auto, using(crate::proofs::Lists::no_link_at, crate::proofs::Lists::link_at_node, crate::proofs::Lists::fit_node))]
    pub fn link(&self, id: IdentifierId, list: LinkList, position: usize) -> Option<Link>
        ensures { result ≡ link_in (node_at self.now id) list position }
    {
        match self.nodes.get(id) {
            None => None,
            Some(node) => link_of(self.links.as_slice(), node, list, position),
        }
    }

    #[tactic(auto, using(crate::proofs::Flats::with_node_of, crate::proofs::Few::make_fits))]
    pub(crate) fn make(&mut self, id: IdentifierId, value: NodeValue) -> Result<(), AllocError>
        ensures ok { OnOk result (self.new ≡ created self.old id value) }
        ensures nodes { OnOk result (OneMore id self.old self.new) }
        ensures err { OnErr result (self.new ≡ self.old) }
    {
        let node = fresh(self.alloc, value);
        self.nodes.insert(id, node)?;
        Ok(())
    }

    #[tactic(auto, using(crate::proofs::Few::link_fits, crate::proofs::Flats::nodes_kept, crate::proofs::Undoing::created_there, crate::proofs::Undoing::created_fits_there))]
    pub(crate) fn make_from(
        &mut self,
        index: u32,
        from: IdentifierId,
        into: IdentifierId,
    ) -> Result<(), AllocError>
        ensures ok { OnOk result (self.new ≡ made_from self.old index from into) }
        ensures nodes { OnOk result (OneMore into self.old self.new) }
        ensures err { OnErr result (self.new ≡ self.old) }
    {
        let slot = self.links.len();
        let node = created_node(self.alloc, from.0 == into.0, slot)?;
        let link = StoredLink {
            index,
            from,
            into,
            kind: EdgeKind::Alias,
            from_hint: self.nodes.hint(from),
            into_hint: self.nodes.hint(into),
        };
        self.links.push(link)?;
        put_created(&mut self.nodes, link, slot, node)?;
        Ok(())
    }

    /// Whether a link of this kind from this node is among the first few of those that enter the node of `into`. `None`
    /// where there are no more.
    #[tactic(auto, using(crate::proofs::KnownLinks::early_at_node, crate::proofs::KnownLinks::early_nowhere, crate::proofs::Lists::fit_node))]
    pub(crate) fn found_early(
        &self,
        kind: EdgeKind,
        from: IdentifierId,
        into: IdentifierId,
    ) -> Option<bool>
        ensures { result ≡ found_early from (sources_into self.now into kind) }
    {
        match self.nodes.get(into) {
            Some(node) => found_early(self.links.as_slice(), sources_of(node, kind), from),
            None => None,
        }
    }

    /// Links two nodes, where both are there. `is_new` says that no link of this kind goes from the one to the other.
    #[tactic(auto, using(crate::proofs::Few::link_fits, crate::proofs::Few::join_fits, crate::proofs::Flats::fits_after_link, crate::proofs::Flats::is_new_slot, crate::proofs::Flats::source_is, crate::proofs::Flats::nodes_kept, crate::proofs::Flats::has_node_of))]
    pub(crate) fn join(
        &mut self,
        kind: EdgeKind,
        index: u32,
        from: IdentifierId,
        into: IdentifierId,
        is_new: bool,
    ) -> Result<(), AllocError>
        requires { IsTrue is_new → has_source from (sources_into self.old into kind) ≡ false }
        ensures ok { OnOk result (self.new ≡ linked kind self.old index from into) }
        ensures nodes { OnOk result (SameIds self.old self.new) }
        ensures err { OnErr result (self.new ≡ self.old) }
    {
        if let Some((from_slot, into_slot)) = self.nodes.slots_of(from, into) {
            let slot = self.links.len();
            let link = StoredLink {
                index,
                from,
                into,
                kind,
                from_hint: SlotHint::at(from_slot),
                into_hint: SlotHint::at(into_slot),
            };
            self.links.push(link)?;
            put_link(&mut self.nodes, self.links.as_slice(), link, slot, is_new)?;
        }
        Ok(())
    }
}
