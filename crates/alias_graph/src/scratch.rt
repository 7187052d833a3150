//! What the walks of a graph write while they run.
ghost use Rattle.std.specs.Prelude.{◌≡◌, ◌*◌, ◌≤◌, [], vec_len, vec_capacity, OnOk, replicate};
ghost use Rattle.alias_graph.specs.Seen.{nothing_seen};

use crate::seen_table::SeenTable;
use crate::types::Pending;
use std::alloc::{AllocError, Global};

/// The links that a walk has yet to follow, and what it has seen. Each walk takes over the room of the one before.
pub(crate) struct Scratch {
    pub(crate) stack: Vec<Pending>,
    pub(crate) seen: SeenTable,
}

impl Drop for Scratch {
    fn drop(self) {
        let Scratch { stack: _, seen: _ } = self;
    }
}

impl Scratch {
    /// Takes no memory.
    pub(crate) fn new(alloc: Global) -> Scratch {
        Scratch {
            stack: Vec::new(alloc),
            seen: SeenTable::new(alloc),
        }
    }

    /// Begins a walk over so many nodes: nothing is seen, and the stack is empty, with room for the five lists of
    /// each node, eight times.
    pub(crate) fn begin(&mut self, nodes: usize) -> Result<(), AllocError>
        ensures stack { OnOk result (self.new.stack.items ≡ []) }
        ensures empty { OnOk result (vec_len self.new.stack ≡ 0) }
        ensures room { OnOk result (40 * nodes ≤ vec_capacity self.new.stack) }
        ensures seen { OnOk result (self.new.seen ≡ replicate nodes nothing_seen) }
    {
        let Some(room) = nodes.checked_mul(40) else {
            return Err(AllocError);
        };
        self.stack.clear();
        self.stack.reserve(room)?;
        self.seen.begin(nodes)
    }
}
