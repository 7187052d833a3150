//! The flows from parameters and context places into each other and into what is returned.
ghost use Rattle.std.specs.Prelude.{◌≡◌, ◌+◌, ◌++◌, ◌≤◌, length, OnOk};
ghost use Rattle.alias_graph.specs.Nodes.{Within};
ghost use Rattle.alias_range_pass.specs.summary.Flows.{is_last, flow_effect, is_flow, flows_into, flow_start, flows_listed};
ghost use Rattle.alias_range_pass.specs.summary.Walking.{nodes_after};

use crate::summary::start::flow_start;
use crate::summary::walking::walk;
use alias_graph::AliasGraph;
use alias_hir::effect::{AliasingEffect, AliasingEffects};
use alias_hir::env::Environment;
use alias_hir::place::Place;
use std::alloc::AllocError;

/// Whether the last walk that came to the place is that of this position.
fn is_last(graph: &AliasGraph, index: u32, place: &Place) -> bool
    ensures { result ≡ is_last graph.now index place.now }
{
    match graph.node(place.identifier) {
        None => false,
        Some(node) => match node.last_mutated {
            None => false,
            Some(last) => last == index,
        },
    }
}

/// What is returned is an alias; another place captures.
fn flow_effect(returns: &Place, from: &Place, into: &Place) -> AliasingEffect
    ensures { result ≡ flow_effect returns.now from.now into.now }
{
    if into.identifier.0 == returns.identifier.0 {
        AliasingEffect::Alias {
            from: *from,
            into: *into,
        }
    } else {
        AliasingEffect::Capture {
            from: *from,
            into: *into,
        }
    }
}

fn is_flow(graph: &AliasGraph, index: u32, returns: &Place, into: &Place, from: &Place) -> bool
    ensures { result ≡ is_flow graph.now index returns.now into.now from.now }
{
    from.identifier.0 != into.identifier.0
        && from.identifier.0 != returns.identifier.0
        && is_last(graph, index, from)
}

/// Lists the flows into a place, after the walk from it.
fn push_flows_into(
    graph: &AliasGraph,
    index: u32,
    returns: &Place,
    places: &[Place],
    into: &Place,
    summary: &mut AliasingEffects,
) -> Result<(), AllocError>
    ensures { OnOk result (summary.new ≡ summary.old ++ flows_into graph.now index returns.now places.now into.now) }
{
    for from in places {
        if is_flow(graph, index, returns, into, from) {
            summary.push(flow_effect(returns, from, into))?;
        }
    }
    Ok(())
}

/// Walks from a tracked place. Nothing but marks changes.
fn walk_flow(
    graph: &mut AliasGraph,
    index: u32,
    into: &Place,
    env: &mut Environment,
) -> Result<(), AllocError>
    requires { Within (length env.old.identifiers) graph.old }
    ensures graph { OnOk result (graph.new ≡ nodes_after (flow_start index into.now) graph.old) }
    ensures within { OnOk result (Within (length env.old.identifiers) graph.new) }
    ensures env { env.new ≡ env.old }
{
    walk(graph, env, flow_start(index, into), false)?;
    Ok(())
}

/// Lists the flows into tracked places, each by a walk from it, at this position and the next ones.
pub(crate) fn push_flows(
    graph: &mut AliasGraph,
    first: u32,
    returns: &Place,
    places: &[Place],
    summary: &mut AliasingEffects,
    env: &mut Environment,
) -> Result<(), AllocError>
    requires within { Within (length env.old.identifiers) graph.old }
    requires positions { first + length places.now ≤ 4294967295 }
    ensures summary { OnOk result (summary.new ≡ summary.old ++ flows_listed graph.old first returns.now places.now places.now) }
    ensures env { env.new ≡ env.old }
{
    let mut index = first;
    for into in places {
        walk_flow(graph, index, into, env)?;
        push_flows_into(graph, index, returns, places, into, summary)?;
        index += 1;
    }
    Ok(())
}
