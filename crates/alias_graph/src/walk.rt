//! The walk of a mutation.
ghost use Rattle.std.specs.Prelude.{◌≡◌, ◌+◌, ◌*◌, ◌≤◌, ◌++◌, ℕ, false, length, vec_len, vec_capacity, Some, OnOk, OnErr};
ghost use Rattle.alias_graph.specs.Graph.{changed};
ghost use Rattle.alias_graph.specs.Links.{all_links, entry, walk};
ghost use Rattle.alias_graph.specs.declared.types.Direction.{Direction};
ghost use Rattle.alias_graph.specs.declared.types.Origin.{Origin};
ghost use Rattle.alias_graph.specs.NodeMarks.{marked, origin};
ghost use Rattle.alias_graph.specs.Nodes.{slot_of, Within, SameIds};
ghost use Rattle.alias_graph.specs.Reach.{Visits, Covered, Caused, Marks, Kinds, AllMutatedBefore, Flows};
ghost use Rattle.alias_graph.specs.Reports.{walked, Stopped};
ghost use Rattle.alias_graph.specs.Flat.{LinksFit, nodes_of, stored_visited};
ghost use Rattle.alias_graph.specs.Waiting.{stored_at, followed_in};

use crate::graph::AliasGraph;
use crate::node_map::{NodeMap, SlotHint};
use crate::node_marks::{visit_node, visit_range};
use crate::pushes::put_followed;
use crate::reports::report_node_at;
use crate::scratch::Scratch;
use crate::search::{first_new, next_new};
use crate::steps::Steps;
use crate::types::{Direction, Entry, Found, MutationKind, Origin, Pending, StoredLink};
use alias_base::{EvaluationOrder, IdentifierId};
use alias_hir::effect::MutationReason;
use alias_hir::env::Environment;
use alias_hir::place::Span;
use std::alloc::{AllocError, Global};
use std::sync::ledger::Ledger;

/// Puts the links that the entry follows on the stack, and marks the node.
#[tactic(auto, using(crate::proofs::Slots::no_hole, crate::proofs::Slots::changed_slot))]
fn visit(
    nodes: &mut NodeMap,
    stack: &mut Vec<Pending>,
    slot: usize,
    index: u32,
    origin: Origin,
    entry: Entry,
)
    requires found { slot_of nodes.old entry.id ≡ Some slot }
    requires room { vec_len stack.old + 5 ≤ vec_capacity stack.old }
    ensures nodes { nodes.new ≡ changed nodes.old entry.id (stored_visited index origin entry) }
    ensures items { stack.new.items ≡ stack.old.items ++ followed_in slot entry (stored_at nodes.old slot) }
    ensures len { vec_len stack.new ≤ vec_len stack.old + 5 }
    ensures capacity { vec_capacity stack.old ≤ vec_capacity stack.new }
{
    let Some(node) = nodes.get_index_mut(slot) else {
        return;
    };
    put_followed(stack, slot, entry, node);
    visit_node(node, index, origin, entry);
}

/// The walk from the start, over nodes that keep the places of their links.
fn walk<L: Ledger>(
    alloc: Global,
    nodes: &mut NodeMap,
    links: &[StoredLink],
    scratch: &mut Scratch,
    index: u32,
    start: Entry,
    end: Option<EvaluationOrder>,
    origin: Origin,
    env: &mut Environment,
    should_record_errors: bool,
    steps: &mut Steps<L>,
) -> Result<(), AllocError>
    requires fit { LinksFit links.now nodes.old }
    requires ranges { Within (length env.old.identifiers) (nodes_of links.now nodes.old) }
    ensures fit { LinksFit links.now nodes.new }
    ensures nodes { OnOk result (nodes_of links.now nodes.new ≡ marked index origin (nodes_of links.now nodes.old) (walk (nodes_of links.now nodes.old) index start).done) }
    ensures env { OnOk result (env.new ≡ walked should_record_errors index origin end (nodes_of links.now nodes.old) (walk (nodes_of links.now nodes.old) index start).done env.old) }
    ensures steps { OnOk result (steps.new ≡ steps.old + (walk (nodes_of links.now nodes.old) index start).popped) }
    ensures bound { steps.new ≤ steps.old + (1 + 8 * all_links (nodes_of links.now nodes.old)) }
    ensures quiet { OnErr result (should_record_errors ≡ false → (nodes.new ≡ nodes.old) × (env.new ≡ env.old) × (steps.new ≡ steps.old)) }
    ensures stopped { OnErr result (Stopped should_record_errors index origin end (nodes_of links.now nodes.old) start env.old steps.old (nodes_of links.now nodes.new) env.new steps.new) }
{
    scratch.begin(nodes.len())?;
    let mut next = first_new(nodes, &scratch.seen, start, steps);
    'walk: while let Some(found) = next {
        let Found { entry, slot } = found;
        let hint = SlotHint::at(slot);
        report_node_at(alloc, nodes, entry.id, hint, should_record_errors, env)?;
        steps.tick();
        scratch.seen.note(slot, entry);
        visit(nodes, &mut scratch.stack, slot, index, origin, entry);
        visit_range(&mut env.identifiers, entry.id, end);
        next = next_new(
            nodes,
            links,
            &scratch.seen,
            index,
            &mut scratch.stack,
            steps,
        );
    }
    Ok(())
}

impl AliasGraph {
    /// Walks from the node of `start`, backwards, over all legal paths of a mutation at `index`. Each node that
    /// one leads to is marked, and the range ends of their identifiers are raised to `end`.
    ///
    /// Where errors are recorded, each function without a mark that the walk comes to adds the reports of its
    /// summary to `errors`.
    ///
    /// Each popped entry is counted as a step, and there are at most 1 + 8S of them, where S is the length of
    /// all lists of links. The one error is out of memory. Where no errors are recorded, it comes before the
    /// first entry, and nothing has changed then. Else what the counted entries have set stays, and of the
    /// next one some reports.
    pub fn mutate<L: Ledger>(
        &mut self,
        index: u32,
        start: IdentifierId,
        end: Option<EvaluationOrder>,
        transitive: bool,
        start_kind: MutationKind,
        span: Option<Span>,
        reason: Option<MutationReason>,
        env: &mut Environment,
        should_record_errors: bool,
        steps: &mut Steps<L>,
    ) -> Result<(), AllocError>
        requires { Within (length env.old.identifiers) self.old }
        ensures nodes { OnOk result (self.new ≡ marked index (origin span reason) self.old (walk self.old index (entry start transitive Direction.Backwards start_kind)).done) }
        ensures kept { OnOk result (SameIds self.old self.new) }
        ensures env { OnOk result (env.new ≡ walked should_record_errors index (origin span reason) end self.old (walk self.old index (entry start transitive Direction.Backwards start_kind)).done env.old) }
        ensures steps { OnOk result (steps.new ≡ steps.old + (walk self.old index (entry start transitive Direction.Backwards start_kind)).popped) }
        ensures bound { steps.new ≤ steps.old + (1 + 8 * all_links self.old) }
        ensures visits { OnOk result (Visits self.old index (entry start transitive Direction.Backwards start_kind) (walk self.old index (entry start transitive Direction.Backwards start_kind)).done) }
        ensures covered { OnOk result (Covered self.old index (entry start transitive Direction.Backwards start_kind) end env.new.identifiers) }
        ensures caused { OnOk result (Caused self.old index (entry start transitive Direction.Backwards start_kind) end env.old.identifiers env.new.identifiers) }
        ensures marks { OnOk result (Marks self.old index (entry start transitive Direction.Backwards start_kind) self.new) }
        ensures kinds { OnOk result (Kinds self.old index (entry start transitive Direction.Backwards start_kind) span self.new) }
        ensures flows { OnOk result (AllMutatedBefore self.old index → Flows self.old index (entry start transitive Direction.Backwards start_kind) self.new) }
        ensures quiet { OnErr result (should_record_errors ≡ false → (self.new ≡ self.old) × (env.new ≡ env.old) × (steps.new ≡ steps.old)) }
        ensures stopped { OnErr result (Stopped should_record_errors index (origin span reason) end self.old (entry start transitive Direction.Backwards start_kind) env.old steps.old self.new env.new steps.new) }
    {
        let start = Entry {
            id: start,
            transitive,
            direction: Direction::Backwards,
            kind: start_kind,
        };
        let origin = Origin { span, reason };
        walk(
            self.alloc,
            &mut self.nodes,
            self.links.as_slice(),
            &mut self.scratch,
            index,
            start,
            end,
            origin,
            env,
            should_record_errors,
            steps,
        )?;
        Ok(())
    }
}
