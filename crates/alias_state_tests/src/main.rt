//! Prints what maps, copies of states, and flows over states of their own come to, on examples that are worked out by
//! hand: what the clauses of `alias_lattice` and `alias_flow` come to where no unit shows it. A line for each fact, and
//! `stdout` has those that must come. A crate of its own, so that those two are proved once. No function answers an
//! error: where memory runs out, or a line can't be printed, what comes differs.
#![tactic(auto)]

mod climb;
mod copies;
mod flows;
mod maps;

use std::fmt::Debug;

/// Prints a fact.
pub(crate) fn print_fact(rt: &impl Print, name: &str, fact: &impl Debug) {
    let _ = println!(rt; "{name}: {fact:?}");
}

fn main(rt: HostRuntime) {
    let alloc = rt.alloc();
    copies::print_copies(&rt, alloc);
    maps::print_joins(&rt, alloc);
    maps::print_scattered(&rt, alloc);
    flows::print_line(&rt, alloc);
    flows::print_loop(&rt, alloc);
}
