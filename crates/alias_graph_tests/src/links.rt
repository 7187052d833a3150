//! The nodes and links of a graph.

use crate::print_fact;
use alias_base::{FunctionId, IdentifierId};
use alias_graph::graph::AliasGraph;
use alias_graph::types::{LinkList, NodeValue};
use alias_test_units::place;
use std::alloc::Global;

/// Which links of the graph are printed: a node, one of its lists, and a position there.
const LOOKUPS: [(u32, LinkList, usize); 9] = [
    (0, LinkList::Forward, 1),
    (0, LinkList::Forward, 4),
    (1, LinkList::Forward, 0),
    (1, LinkList::Captures, 0),
    (1, LinkList::Captures, 1),
    (1, LinkList::Aliases, 0),
    (1, LinkList::MaybeAliases, 0),
    (2, LinkList::CreatedFrom, 0),
    (9, LinkList::Forward, 0),
];

/// A graph of the objects 0 to 3.
pub(crate) fn objects(alloc: Global) -> AliasGraph {
    let mut graph = AliasGraph::new(alloc);
    for number in 0..4u32 {
        let _ = graph.create(&place(number), NodeValue::Object);
    }
    graph
}

/// A link of each kind from 0 to 1, one of which comes twice, and 2 made from a part of 1.
fn add_each_link(graph: &mut AliasGraph) {
    let _ = graph.capture(5, &place(0), &place(1));
    let _ = graph.assign(6, &place(0), &place(1));
    let _ = graph.maybe_alias(7, &place(0), &place(1));
    let _ = graph.capture(9, &place(0), &place(1));
    let _ = graph.create_from(8, &place(1), &place(2));
}

fn print_lookups(rt: &impl Print, graph: &AliasGraph) {
    for (number, list, position) in LOOKUPS {
        let link = graph.link(IdentifierId(number), list, position);
        print_fact(rt, "shows_links", &(number, list, position, link));
    }
}

fn value_of(graph: &AliasGraph, number: u32) -> Option<NodeValue> {
    match graph.node(IdentifierId(number)) {
        Some(node) => Some(node.value),
        None => None,
    }
}

/// Makes 1 a function, and prints what it captures then, what it is, and what 9 is, which is no node.
fn print_new_function(rt: &impl Print, graph: &mut AliasGraph) {
    let function_id = FunctionId(7);
    let _ = graph.create(&place(1), NodeValue::Function { function_id });
    let captured = graph.link(IdentifierId(1), LinkList::Captures, 0);
    let fact = (captured, value_of(graph, 1), value_of(graph, 9));
    print_fact(rt, "shows_a_new_function", &fact);
}

pub(crate) fn print_links(rt: &impl Print, alloc: Global) {
    let mut graph = objects(alloc);
    add_each_link(&mut graph);
    print_lookups(rt, &graph);
    print_new_function(rt, &mut graph);
}
