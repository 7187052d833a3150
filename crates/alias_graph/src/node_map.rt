//! The nodes by their identifiers, in the order in which they were first made.
ghost use Rattle.std.specs.Prelude.{◌≡◌, ℕ, ◌+◌, ◌<◌, ◌&&◌, [], ◌∷◌, ◌++◌, length, slice_get, option_map, map, OnOk, OnErr, IfOk, IfErr, IfSome, Some};
ghost use Rattle.std.specs.Option.{is_some};

use crate::types::Node;
use alias_base::IdentifierId;
use indexmap::IndexMap;
use std::alloc::{AllocFailed, Global};
use std::marker::Model;

/// A slot where the node of an identifier may be. Nothing hangs on it but how fast the node is found.
#[derive(Clone, Copy, Debug, PartialEq, Eq)]
pub struct SlotHint(u32);

impl SlotHint {
    /// A hint at this slot.
    pub(crate) fn at(slot: usize) -> SlotHint {
        SlotHint(u32::try_from(slot).unwrap_or(u32::MAX))
    }

    /// The slot that is looked at first.
    #[inline(always)]
    fn slot(self) -> usize {
        self.0 as usize
    }
}

/// Nodes by their identifiers. Contracts see the list of its entries.
#[derive(Drop)]
pub struct NodeMap {
    map: IndexMap<IdentifierId, Node>,
}

impl Model for NodeMap {
    ghost use Rattle.std.specs.Prelude.{List};
    ghost use Rattle.alias_base.specs.declared.ids.IdentifierId.{IdentifierId};
    ghost use Rattle.alias_graph.specs.declared.types.Node.{Node};

    ghost Value = { List (IdentifierId × Node) };

    ghost view = { λ m. m.map.entries };
}

impl NodeMap {
    ghost use Rattle.std.specs.Borrow.{sem};
    ghost use Rattle.alias_graph.specs.Nodes.{node_at, slot_of, with_node, has_node};
    ghost use Rattle.alias_graph.specs.Lending.{LendsNode};

    /// The map with no node. Takes no memory.
    pub fn new(alloc: Global) -> Self
        ensures { result ≡ [] }
    {
        NodeMap {
            map: IndexMap::new(alloc),
        }
    }

    /// How many nodes there are.
    pub fn len(&self) -> usize
        ensures { result ≡ length self.now }
    {
        self.map.len()
    }

    /// Where the node of the identifier is.
    #[inline(never)]
    pub fn slot_of(&self, id: IdentifierId) -> Option<usize>
        ensures slot { result ≡ slot_of self.now id }
        ensures within { IfSome result (λ slot. slot < length self.now) }
    {
        self.map.get_index_of(&id)
    }

    /// Where the node of the identifier is, or comes to be if it is the next that is made.
    pub fn hint(&self, id: IdentifierId) -> SlotHint {
        SlotHint::at(self.slot_of(id).unwrap_or(self.len()))
    }

    /// Where the node of the identifier is. Nothing is hashed where it is at the hint.
    #[inline(always)]
    #[tactic(auto, using(crate::proofs::Slots::slot_here))]
    pub fn slot_near(&self, id: IdentifierId, hint: SlotHint) -> Option<usize>
        ensures { result ≡ slot_of self.now id }
    {
        let slot = hint.slot();
        if slot < self.map.len()
            && let Some((key, _)) = self.map.get_index(slot)
            && key.0 == id.0
        {
            return Some(slot);
        }
        self.slot_of(id)
    }

    /// The node of an identifier.
    pub fn get(&self, id: IdentifierId) -> Option<&Node>
        ensures { option_map (λ x. x.now) result ≡ node_at self.now id }
    {
        self.map.get(&id)
    }

    /// The node of an identifier. Nothing is hashed where it is at the hint.
    #[tactic(auto, using(crate::proofs::Slots::same_key))]
    pub fn get_near(&self, id: IdentifierId, hint: SlotHint) -> Option<&Node>
        ensures { option_map (λ x. x.now) result ≡ node_at self.now id }
    {
        if let Some((key, node)) = self.map.get_index(hint.slot())
            && key.0 == id.0
        {
            return Some(node);
        }
        self.get(id)
    }

    /// Where the nodes of both identifiers are, where both have one. The slots are hints: the clause says only whether they
    /// are there.
    #[tactic(auto, using(crate::proofs::Slots::slot_there, crate::proofs::Slots::slot_nowhere))]
    pub(crate) fn slots_of(&self, from: IdentifierId, into: IdentifierId) -> Option<(usize, usize)>
        ensures { is_some result ≡ (has_node self.now from && has_node self.now into) }
    {
        let from = self.slot_of(from)?;
        let into = self.slot_of(into)?;
        Some((from, into))
    }

    /// The identifier and the node at a slot.
    pub fn get_index(&self, slot: usize) -> Option<(&IdentifierId, &Node)>
        ensures { option_map (λ p. (p.0.now, p.1.now)) result ≡ slice_get self.now slot }
    {
        self.map.get_index(slot)
    }

    /// The node at a slot, for writing.
    pub fn get_index_mut(&mut self, slot: usize) -> Option<&mut Node>
        ensures* writes_back { sem 𝓛 (LendsNode self.entry slot result) }
        ensures value { option_map (λ x. x.now) result ≡ option_map (λ e. e.1) (slice_get self.old slot) }
    {
        self.map.get_index_mut(slot)
    }

    /// Gives the identifier a node, in its slot where it has one, else at the end. An `Err` changes nothing.
    pub fn insert(
        &mut self,
        id: IdentifierId,
        node: Node,
    ) -> Result<Option<Node>, AllocFailed<(IdentifierId, Node)>>
        ensures entries { OnOk result (self.new ≡ with_node self.old id node) }
        ensures err { OnErr result (self.new ≡ self.old) }
    {
        self.map.insert(id, node)
    }
}
