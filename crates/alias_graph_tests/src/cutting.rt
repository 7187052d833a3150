//! A graph that is cut off to a part.

use crate::links::objects;
use crate::print_fact;
use alias_base::IdentifierId;
use alias_graph::graph::AliasGraph;
use alias_graph::types::{Link, LinkList, NodeValue};
use alias_test_units::{environment, place};
use std::alloc::Global;

/// Assigns 0 to 1 and 2 to 3, and makes the node of 1 once more, so that it doesn't know of the link any more.
fn add_links(graph: &mut AliasGraph) {
    let _ = graph.assign(0, &place(0), &place(1));
    let _ = graph.assign(1, &place(2), &place(3));
    let _ = graph.create(&place(1), NodeValue::Object);
}

fn first_link(graph: &AliasGraph, number: u32) -> Option<Link> {
    graph.link(IdentifierId(number), LinkList::Forward, 0)
}

/// Cuts the graph off to 1, with its four identifiers in the tables.
fn cut(alloc: Global, graph: &mut AliasGraph) {
    if let Ok(env) = environment(alloc, 4) {
        let _ = graph.cut_off(&[IdentifierId(1)], false, &env);
    }
}

/// Prints the first forward links of 0 and 2 after that graph is cut off to 1.
pub(crate) fn print_cut(rt: &impl Print, alloc: Global) {
    let mut graph = objects(alloc);
    add_links(&mut graph);
    cut(alloc, &mut graph);
    let left = (first_link(&graph, 0), first_link(&graph, 2));
    print_fact(
        rt,
        "keeps_what_leads_to_a_target_that_was_made_twice",
        &left,
    );
}
