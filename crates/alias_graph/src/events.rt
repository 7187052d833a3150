//! The graph of a list of events.
ghost use Rattle.std.specs.Prelude.{◌≡◌, ◌≤◌, length, true, false, IsTrue, OnOk, IfOk};
ghost use Rattle.alias_graph.specs.Graph.{after, graph_of, has_source};
ghost use Rattle.alias_graph.specs.KnownLinks.{ends, is_known, few, Grows, AllKnown, sources_into};
ghost use Rattle.alias_graph.specs.Events.{event_of, events_of};
ghost use Rattle.alias_graph.specs.Nodes.{node_at};
ghost use Rattle.alias_graph.specs.RemainingLinks.{remaining_at};
ghost use Rattle.alias_base.specs.declared.ids.IdentifierId.{IdentifierId};

use crate::graph::AliasGraph;
use crate::known_links::KnownLinks;
use crate::types::{EdgeKind, NodeValue};
use alias_base::IdentifierId;
use std::alloc::{AllocError, Global};

/// What makes a node or links two, at a position.
#[derive(Clone, Copy, Debug)]
pub enum GraphEvent {
    Make {
        id: IdentifierId,
        value: NodeValue,
    },
    CreateFrom {
        index: u32,
        from: IdentifierId,
        into: IdentifierId,
    },
    Link {
        kind: EdgeKind,
        index: u32,
        from: IdentifierId,
        into: IdentifierId,
    },
}

/// Whether no link of this kind goes from the one node to the other. `false` too where that isn't known at once. The link
/// is noted where it would stand behind the first few of its list.
fn is_new(
    graph: &AliasGraph,
    known: &mut KnownLinks,
    kind: EdgeKind,
    from: IdentifierId,
    into: IdentifierId,
) -> Result<bool, AllocError>
    requires { AllKnown known.old graph.now }
    ensures new { IfOk result (λ is_new. IsTrue is_new → has_source from (sources_into graph.now into kind) ≡ false) }
    ensures noted { OnOk result (few ≤ length (sources_into graph.now into kind) → is_known (ends from into) known.new ≡ true) }
    ensures grows { OnOk result (Grows known.old known.new) }
{
    let Some(is_early) = graph.found_early(kind, from, into) else {
        return Ok(false);
    };
    let is_unknown = known.note(from, into)?;
    Ok(is_unknown && !is_early)
}

/// Makes the node or the link of an event.
fn apply(
    graph: &mut AliasGraph,
    known: &mut KnownLinks,
    event: GraphEvent,
) -> Result<(), AllocError>
    requires { AllKnown known.old graph.old }
    ensures made { OnOk result (graph.new ≡ after graph.old (event_of event)) }
    ensures known { OnOk result (AllKnown known.new graph.new) }
{
    match event {
        GraphEvent::Make { id, value } => graph.make(id, value)?,
        GraphEvent::CreateFrom { index, from, into } => graph.make_from(index, from, into)?,
        GraphEvent::Link {
            kind,
            index,
            from,
            into,
        } => {
            let is_new = is_new(graph, known, kind, from, into)?;
            graph.join(kind, index, from, into, is_new)?;
        }
    }
    Ok(())
}

/// The graph of the events in their order. The lists of a node have exactly its links that remain: those after
/// which it isn't made again, and of backward links with the same ends the first.
#[tactic(auto, using(crate::proofs::RemainingNodes::graph_is_remaining))]
pub fn build(alloc: Global, events: &[GraphEvent]) -> Result<AliasGraph, AllocError>
    ensures graph { IfOk result (λ graph. graph ≡ graph_of (events_of events.now)) }
    ensures remaining { IfOk result (λ graph. (id : IdentifierId) → node_at graph id ≡ remaining_at (events_of events.now) id) }
{
    let mut graph = AliasGraph::new(alloc);
    let mut known = KnownLinks::new(alloc);
    for event in events {
        apply(&mut graph, &mut known, *event)?;
    }
    Ok(graph)
}
