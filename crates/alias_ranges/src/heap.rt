//! Ranges cover the heap.

ghost use Rattle.std.specs.Prelude.{◌≡◌, ◌<◌, true, is_ok, List, Ok};
ghost use Rattle.alias_hir.specs.declared.env.Identifier.{Identifier};
ghost use Rattle.alias_hir.specs.declared.hir.HirFunction.{HirFunction};
ghost use Rattle.alias_graph.specs.Reach.{end_at};
ghost use Rattle.alias_graph.specs.declared.recorded.listing.Listing.{Listing};
ghost use Rattle.alias_graph.specs.recorded.Recording.{graph_listed};
ghost use Rattle.alias_range_pass.specs.summary.Laws.{Covers};
ghost use Rattle.alias_range_pass.specs.Refusals.{recorded};
ghost use Rattle.alias_ranges.specs.heap.Heap.{Reaches, Writes};
ghost use Rattle.alias_ranges.specs.heap.Making.{makes_once};
ghost use Rattle.alias_ranges.specs.heap.Paths.{is_forward, history_at};
ghost use Rattle.alias_ranges.specs.heap.Reading.{HeapIsCovered};
ghost use Rattle.alias_ranges.specs.heap.Rows.{id, branching, by_first_branch, object_of};

/// Where each range ends past the recorded mutations from which a legal path leads to its identifier, the heap is covered:
/// in a forward function that makes each place once, along any path of blocks, the range of each identifier that reaches
/// an object which is written there ends past the write. Does nothing.
pub fn heap_reading()
    ensures { (f : HirFunction) (identifiers : List Identifier) (l : Listing) → recorded f ≡ Ok l → Covers (graph_listed l) l.mutations identifiers → HeapIsCovered f identifiers }
{}

/// A row: 1, 2 and 3 are made, a phi is 1 or 2 by the branch that is taken, 3 is put into the phi, and then 3 is written.
/// The function meets the premises, and is recorded. By the first branch 1 reaches the object that is written, and 2
/// doesn't. So where the heap is covered, the range of 1 ends past the write. Does nothing.
pub fn branching_row()
    ensures forward { is_forward branching ≡ true }
    ensures once { makes_once branching ≡ true }
    ensures listed { is_ok (recorded branching) ≡ true }
    ensures writes { Writes (history_at by_first_branch) by_first_branch.next (object_of 3) }
    ensures reaches { Reaches (history_at by_first_branch) (id 1) (object_of 3) }
    ensures apart { Reaches (history_at by_first_branch) (id 2) (object_of 3) → ⊥ }
    ensures ends { (identifiers : List Identifier) → HeapIsCovered branching identifiers → 6 < end_at identifiers 1 }
{}
