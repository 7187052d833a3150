//! Prints what graphs built by hand come to: nodes and links, a graph that is cut off to a part, and a walk whose steps
//! are counted: a line for each fact, and `stdout` has those that must come. A crate of its own, so that `alias_graph`
//! is proved once. No function that prints answers an error: where memory runs out, what comes differs.
#![tactic(auto)]

mod cutting;
mod links;
mod walks;

use std::fmt::Debug;

/// Prints a fact.
pub(crate) fn print_fact(rt: &impl Print, name: &str, fact: &impl Debug) {
    let _ = println!(rt; "{name}: {fact:?}");
}

fn main(rt: HostRuntime) {
    let alloc = rt.alloc();
    links::print_links(&rt, alloc);
    cutting::print_cut(&rt, alloc);
    walks::print_walk(&rt, alloc);
}
