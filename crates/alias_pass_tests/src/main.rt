//! Prints what `check_unit`, a validation and the passes of the caller come to, on units built by hand that no input
//! spells: a line for each fact, and `stdout` has those that must come. A crate of its own, so that the crates below
//! are proved once. No function answers an error: where memory runs out, or a line can't be printed, what comes
//! differs.
#![tactic(auto)]

mod checking;
mod functions;
mod inner_passes;
mod validating;

use std::fmt::Debug;

/// Prints a fact.
pub(crate) fn print_fact(rt: &impl Print, name: &str, fact: &impl Debug) {
    let _ = println!(rt; "{name}: {fact:?}");
}

fn main(rt: HostRuntime) {
    let alloc = rt.alloc();
    checking::print_checks(&rt, alloc);
    inner_passes::print_passes(&rt, alloc);
    validating::print_missed(&rt, alloc);
}
