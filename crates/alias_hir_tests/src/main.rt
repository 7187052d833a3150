//! Prints reports that come with a refusal, printed types, and what tables answer of which no input is the text: a line
//! for each fact, and `stdout` has those that must come. A crate of its own, so that `alias_hir` is proved once. No
//! function answers an error: where memory runs out, or a line can't be printed, what comes differs.
#![tactic(auto)]

mod made;
mod reports;
mod tables;
mod types;

use alias_hir::env::Environment;
use std::fmt::Debug;

/// Prints a fact.
pub(crate) fn print_fact(rt: &impl Print, name: &str, fact: &impl Debug) {
    let _ = println!(rt; "{name}: {fact:?}");
}

fn main(rt: HostRuntime) {
    let alloc = rt.alloc();
    let mut env = Environment::new(alloc);
    tables::add_named(alloc, &mut env);
    reports::print_reports(&rt, alloc, &mut env);
    tables::print_made(&rt, &mut env);
    tables::add_shapes(alloc, &mut env);
    types::add_types(alloc, &mut env.types);
    types::print_types(&rt, alloc, &env);
    tables::print_alias(&rt, &env);
}
