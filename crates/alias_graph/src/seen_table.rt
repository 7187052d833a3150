//! What a walk has seen, for each node.
ghost use Rattle.std.specs.Prelude.{◌≡◌, ℕ, ◌+◌, ◌<◌, ◌≤◌, [], length, OnOk, slice_index_or, slice_set, replicate};
ghost use Rattle.alias_graph.specs.Seen.{nothing_seen, is_seen, see};
ghost use Rattle.alias_graph.specs.SeenRows.{AllRowsBefore};

use crate::seen::Seen;
use crate::types::Entry;
use std::alloc::{AllocError, Global};
use std::marker::Model;

/// What the walk of this number has seen at a node.
#[derive(Clone, Copy, Drop)]
struct SeenRow {
    walk: u32,
    seen: Seen,
}

/// What a walk has seen at each slot of the nodes. Contracts see what the walk that was begun last has seen.
///
/// A row of an earlier walk counts as one in which nothing is seen, so that no walk clears the table.
#[derive(Drop)]
pub(crate) struct SeenTable {
    walk: u32,
    rows: Vec<SeenRow>,
}

impl Model for SeenTable {
    ghost use Rattle.std.specs.Prelude.{List, ◌+◌};
    ghost use Rattle.alias_graph.specs.declared.seen.Seen.{Seen};
    ghost use Rattle.alias_graph.specs.SeenRows.{seen_by, AllRowsBefore};

    ghost Value = { List Seen };

    ghost view = { λ t. seen_by t.walk t.rows.items };

    ghost invariant = { λ t. AllRowsBefore (t.walk + 1) t.rows.items };
}

/// The number of the walk after this one. Once the numbers are used up they begin anew, without rows.
fn next_walk(walk: u32, rows: &mut Vec<SeenRow>) -> u32
    requires { AllRowsBefore (walk + 1) rows.old.items }
    ensures some { 0 < result }
    ensures before { AllRowsBefore result rows.new.items }
{
    match walk.checked_add(1) {
        Some(next) => next,
        None => {
            rows.clear();
            1
        }
    }
}

/// Adds rows of no walk, up to as many as there are slots.
fn add_rows(rows: &mut Vec<SeenRow>, slots: usize) -> Result<(), AllocError>
    requires { length rows.old.items ≤ slots }
    ensures length { OnOk result (length rows.new.items ≡ slots) }
    ensures before { (walk : ℕ) → 0 < walk → AllRowsBefore walk rows.old.items → AllRowsBefore walk rows.new.items }
{
    for _ in rows.len()..slots {
        rows.push(SeenRow {
            walk: 0,
            seen: Seen::nothing(),
        })?;
    }
    Ok(())
}

impl SeenTable {
    /// The table without slots. Takes no memory.
    pub(crate) fn new(alloc: Global) -> SeenTable
        ensures { result ≡ [] }
    {
        SeenTable {
            walk: 0,
            rows: Vec::new(alloc),
        }
    }

    /// Begins a walk over so many slots, which has seen nothing.
    #[tactic(auto, using(crate::proofs::Rows::take_few))]
    pub(crate) fn begin(&mut self, slots: usize) -> Result<(), AllocError>
        ensures { OnOk result (self.new ≡ replicate slots nothing_seen) }
    {
        self.walk = next_walk(self.walk, &mut self.rows);
        self.rows.truncate(slots);
        add_rows(&mut self.rows, slots)?;
        Ok(())
    }

    /// What the walk has seen at a slot.
    #[tactic(auto, using(crate::proofs::Rows::seen_at, crate::proofs::Rows::this_walk, crate::proofs::Rows::other_walk))]
    pub(crate) fn at(&self, slot: usize) -> Seen
        requires { slot < length self.now }
        ensures { result ≡ slice_index_or self.now slot nothing_seen }
    {
        let row = self.rows[slot];
        if row.walk == self.walk {
            row.seen
        } else {
            Seen::nothing()
        }
    }

    /// Whether the walk has expanded an entry at a slot that covers this one.
    #[inline(always)]
    #[tactic(auto, using(crate::proofs::Rows::this_row_covers, crate::proofs::Rows::other_row_covers))]
    pub(crate) fn covers(&self, slot: usize, entry: Entry) -> bool
        requires { slot < length self.now }
        ensures { result ≡ is_seen (slice_index_or self.now slot nothing_seen) entry }
    {
        let row = &self.rows[slot];
        row.walk == self.walk && row.seen.covers(entry)
    }

    /// Notes an entry at a slot.
    pub(crate) fn note(&mut self, slot: usize, entry: Entry)
        requires { slot < length self.old }
        ensures { self.new ≡ slice_set self.old slot (see entry (slice_index_or self.old slot nothing_seen)) }
    {
        let mut seen = self.at(slot);
        seen.note(entry);
        self.rows[slot] = SeenRow {
            walk: self.walk,
            seen,
        };
    }
}
