//! A set of identifiers.
ghost use Rattle.std.specs.Prelude.{◌≡◌, [], OnOk, OnErr};

use alias_base::IdentifierId;
use indexmap::IndexMap;
use std::alloc::{AllocError, Global};
use std::marker::Model;

/// A set of identifiers. Contracts see the list of its entries.
#[derive(Drop)]
pub(crate) struct IdSet {
    map: IndexMap<IdentifierId, ()>,
}

impl Model for IdSet {
    ghost use Rattle.alias_graph.specs.recorded.IdSets.{Ids};

    ghost Value = { Ids };

    ghost view = { λ s. s.map.entries };
}

impl IdSet {
    ghost use Rattle.alias_graph.specs.recorded.IdSets.{is_in, with_id};

    /// The empty set. Takes no memory.
    pub(crate) fn new(alloc: Global) -> IdSet
        ensures { result ≡ [] }
    {
        IdSet {
            map: IndexMap::new(alloc),
        }
    }

    /// Whether the identifier is there.
    pub(crate) fn has(&self, id: IdentifierId) -> bool
        ensures { result ≡ is_in self.now id }
    {
        self.map.contains_key(&id)
    }

    /// Puts the identifier in. An `Err` changes nothing.
    pub(crate) fn insert(&mut self, id: IdentifierId) -> Result<(), AllocError>
        ensures ok { OnOk result (self.new ≡ with_id self.old id) }
        ensures err { OnErr result (self.new ≡ self.old) }
    {
        self.map.insert(id, ())?;
        Ok(())
    }
}
