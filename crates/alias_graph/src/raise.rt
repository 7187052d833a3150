//! Range ends by one sweep over the graph.
ghost use Rattle.std.specs.Prelude.{◌≡◌, ◌+◌, ◌≤◌, ◌<◌, ◌⊎◌, ◌++◌, ◌∷◌, [], ℕ, List, length, vec_len, vec_capacity, Some, OnOk};
ghost use Rattle.alias_hir.specs.declared.env.Identifier.{Identifier};
ghost use Rattle.alias_graph.specs.declared.types.StoredLink.{StoredLink};
ghost use Rattle.alias_graph.specs.Flat.{LinksFit, nodes_of};
ghost use Rattle.alias_graph.specs.Nodes.{Within};
ghost use Rattle.alias_graph.specs.Raising.{range_entry, EndsRise, RaiseCause, Raised, Swept};
ghost use Rattle.alias_graph.specs.Reach.{Covered, end_at};
ghost use Rattle.alias_graph.specs.Waiting.{stored_at, followed_in};

use crate::graph::AliasGraph;
use crate::node_map::NodeMap;
use crate::node_marks::visit_range;
use crate::pushes::put_followed;
use crate::scratch::Scratch;
use crate::search::{first_new, next_new};
use crate::steps::Steps;
use crate::types::{Direction, Entry, Found, Pending, RangeWalk, StoredLink};
use alias_base::{EvaluationOrder, List};
use alias_hir::env::Identifier;
use std::alloc::{AllocError, Global};
use std::marker::Brand;
use std::sync::ledger::{Blank, Ledger};

/// Puts the links that the entry follows on a stack that has room for them.
fn put_links(nodes: &NodeMap, stack: &mut Vec<Pending>, slot: usize, entry: Entry)
    requires { vec_len stack.old + 5 ≤ vec_capacity stack.old }
    ensures { stack.new.items ≡ stack.old.items ++ followed_in slot entry (stored_at nodes.now slot) }
{
    if let Some((_, node)) = nodes.get_index(slot) {
        put_followed(stack, slot, entry, node);
    }
}

/// The entry that a walk begins with.
fn range_entry(walk: RangeWalk) -> Entry
    ensures { result ≡ range_entry walk }
{
    Entry {
        id: walk.start,
        transitive: walk.transitive,
        direction: Direction::Backwards,
        kind: walk.kind,
    }
}

/// Raises the range ends of what a walk leads to. What the table covers isn't expanded again: it ends there at least.
fn raise_from<L: Ledger>(
    nodes: &NodeMap,
    links: &[StoredLink],
    scratch: &mut Scratch,
    walk: RangeWalk,
    identifiers: &mut List<Identifier>,
    steps: &mut Steps<L>,
) -> Result<(), AllocError>
    requires fit { LinksFit links.now nodes.now }
    requires ranges { Within (length identifiers.old) (nodes_of links.now nodes.now) }
    requires table { Swept (nodes_of links.now nodes.now) walk.index walk.end.0 identifiers.old scratch.old.seen }
    ensures table { OnOk result (Swept (nodes_of links.now nodes.now) walk.index walk.end.0 identifiers.new scratch.new.seen) }
    ensures covered { OnOk result (Covered (nodes_of links.now nodes.now) walk.index (range_entry walk) (Some walk.end) identifiers.new) }
    ensures cause { OnOk result ((i : ℕ) → (end_at identifiers.new i ≡ end_at identifiers.old i) ⊎ RaiseCause (nodes_of links.now nodes.now) (walk ∷ []) i (end_at identifiers.new i)) }
    ensures rise { EndsRise identifiers.old identifiers.new }
{
    scratch.stack.clear();
    let start = range_entry(walk);
    let mut next = first_new(nodes, &scratch.seen, start, steps);
    'raise: while let Some(found) = next {
        let Found { entry, slot } = found;
        scratch.stack.reserve(5)?;
        scratch.seen.note(slot, entry);
        put_links(nodes, &mut scratch.stack, slot, entry);
        visit_range(identifiers, entry.id, Some(walk.end));
        next = next_new(
            nodes,
            links,
            &scratch.seen,
            walk.index,
            &mut scratch.stack,
            steps,
        );
    }
    Ok(())
}

/// Makes the table ready for a walk. It serves on where neither the position nor the end is greater than before.
#[tactic(auto, using(crate::proofs::Raising::swept_before))]
fn ready(
    nodes: &NodeMap,
    scratch: &mut Scratch,
    index: u32,
    end: EvaluationOrder,
    walk: RangeWalk,
) -> Result<(), AllocError>
    ensures { OnOk result ((links : List StoredLink) (rs : List Identifier) → Swept (nodes_of links nodes.now) index end.0 rs scratch.old.seen → Swept (nodes_of links nodes.now) walk.index walk.end.0 rs scratch.new.seen) }
{
    if walk.index <= index && walk.end.0 <= end.0 {
        return Ok(());
    }
    scratch.begin(nodes.len())?;
    Ok(())
}

/// Raises the range ends of what each walk leads to, in order. The table serves on while neither positions nor ends rise.
fn raise_all<L: Ledger>(
    nodes: &NodeMap,
    links: &[StoredLink],
    scratch: &mut Scratch,
    walks: &[RangeWalk],
    identifiers: &mut List<Identifier>,
    blank: Blank,
) -> Result<(), AllocError>
    requires fit { LinksFit links.now nodes.now }
    requires ranges { Within (length identifiers.old) (nodes_of links.now nodes.now) }
    requires name { blank.name ≡ L.name }
    requires parts { blank.parts ≡ L.parts }
    requires some { 0 < blank.parts }
    ensures raised { OnOk result (Raised (nodes_of links.now nodes.now) walks.now identifiers.old identifiers.new) }
    ensures rise { EndsRise identifiers.old identifiers.new }
{
    let mut steps = Steps::<L>::start(blank);
    scratch.begin(nodes.len())?;
    let mut index = u32::MAX;
    let mut end = EvaluationOrder(u32::MAX);
    for walk in walks {
        ready(nodes, scratch, index, end, *walk)?;
        index = walk.index;
        end = walk.end;
        raise_from(nodes, links, scratch, *walk, identifiers, &mut steps)?;
    }
    Ok(())
}

/// The same, counted in a ledger that nothing else is counted in.
fn raise_counted(
    nodes: &NodeMap,
    links: &[StoredLink],
    scratch: &mut Scratch,
    walks: &[RangeWalk],
    identifiers: &mut List<Identifier>,
) -> Result<(), AllocError>
    requires fit { LinksFit links.now nodes.now }
    requires ranges { Within (length identifiers.old) (nodes_of links.now nodes.now) }
    ensures raised { OnOk result (Raised (nodes_of links.now nodes.now) walks.now identifiers.old identifiers.new) }
    ensures rise { EndsRise identifiers.old identifiers.new }
{
    raise_all::<Brand>(nodes, links, scratch, walks, identifiers, Blank::new(1))
}

impl AliasGraph {
    /// Raises the range end of each identifier to the greatest end of the walks of which a legal path leads to its node.
    ///
    /// Where positions and ends fall from walk to walk, each link is followed at most eight times in all. The one error is
    /// out of memory, after which some ends may be raised.
    pub fn raise(
        &mut self,
        walks: &[RangeWalk],
        identifiers: &mut List<Identifier>,
    ) -> Result<(), AllocError>
        requires { Within (length identifiers.old) self.old }
        ensures graph { self.new ≡ self.old }
        ensures raised { OnOk result (Raised self.old walks.now identifiers.old identifiers.new) }
        ensures rise { EndsRise identifiers.old identifiers.new }
    {
        raise_counted(
            &self.nodes,
            self.links.as_slice(),
            &mut self.scratch,
            walks,
            identifiers,
        )
    }
}
