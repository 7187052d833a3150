//! A walk whose steps are counted.
ghost use Rattle.std.specs.Prelude.{◌≡◌, ◌+◌, ◌<◌, length, OnOk, ◌≤◌};

use crate::print_fact;
use alias_base::IdentifierId;
use alias_graph::events::{GraphEvent, build};
use alias_graph::graph::AliasGraph;
use alias_graph::steps::Steps;
use alias_graph::types::{EdgeKind, MutationKind, NodeValue};
use alias_hir::env::Environment;
use alias_test_units::environment;
use std::alloc::{AllocError, Global};
use std::marker::Brand;
use std::sync::ledger::{Blank, Ledger};

const ASSIGN: EdgeKind = EdgeKind::Alias;

/// The graph of two objects and two phis, in which the walk from the last phi pops ten entries.
fn pops<L: Ledger>(
    alloc: Global,
    env: &mut Environment,
    steps: &mut Steps<L>,
) -> Result<AliasGraph, AllocError>
    requires { 4 ≤ length env.old.identifiers }
    ensures { OnOk result (steps.new ≡ steps.old + 10) }
{
    let events = [
        GraphEvent::Make {
            id: IdentifierId(0),
            value: NodeValue::Object,
        },
        GraphEvent::Make {
            id: IdentifierId(1),
            value: NodeValue::Object,
        },
        GraphEvent::Make {
            id: IdentifierId(2),
            value: NodeValue::Phi,
        },
        GraphEvent::Make {
            id: IdentifierId(3),
            value: NodeValue::Phi,
        },
        GraphEvent::Link {
            kind: ASSIGN,
            index: 0,
            from: IdentifierId(0),
            into: IdentifierId(2),
        },
        GraphEvent::Link {
            kind: ASSIGN,
            index: 1,
            from: IdentifierId(1),
            into: IdentifierId(2),
        },
        GraphEvent::Link {
            kind: ASSIGN,
            index: 2,
            from: IdentifierId(2),
            into: IdentifierId(3),
        },
        GraphEvent::Link {
            kind: ASSIGN,
            index: 3,
            from: IdentifierId(0),
            into: IdentifierId(3),
        },
    ];
    let mut graph = build(alloc, &events)?;
    graph.mutate(
        4,
        IdentifierId(3),
        None,
        false,
        MutationKind::Definite,
        None,
        None,
        env,
        false,
        steps,
    )?;
    Ok(graph)
}

/// Where the walk mutated the node last.
fn last_mutated(graph: &AliasGraph, number: u32) -> Option<u32> {
    match graph.node(IdentifierId(number)) {
        Some(node) => node.last_mutated,
        None => None,
    }
}

/// Where the walk mutated each of the four nodes last.
fn mutated<L: Ledger>(
    alloc: Global,
    env: &mut Environment,
    steps: &mut Steps<L>,
) -> [Option<u32>; 4]
    requires { 4 ≤ length env.old.identifiers }
{
    match pops(alloc, env, steps) {
        Ok(graph) => [
            last_mutated(&graph, 0),
            last_mutated(&graph, 1),
            last_mutated(&graph, 2),
            last_mutated(&graph, 3),
        ],
        Err(_) => [None; 4],
    }
}

fn walked<L: Ledger>(alloc: Global, blank: Blank) -> [Option<u32>; 4]
    requires name { blank.name ≡ L.name }
    requires parts { blank.parts ≡ L.parts }
    requires some { 0 < blank.parts }
{
    let mut steps = Steps::<L>::start(blank);
    match environment(alloc, 4) {
        Ok(mut env) => mutated(alloc, &mut env, &mut steps),
        Err(_) => [None; 4],
    }
}

pub(crate) fn print_walk(rt: &impl Print, alloc: Global) {
    let blank = Blank::new(1);
    let last = walked::<Brand>(alloc, blank);
    print_fact(rt, "walks_a_graph_of_events", &last);
}
