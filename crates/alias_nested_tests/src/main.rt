//! Prints what `infer_unit` and the calls that analyse functions come to, on units with nested functions: at which call
//! a pass of the caller runs on which function, what a pass that drops an instruction changes, and how often the logger
//! is called. Units and runs are lines of `stdin`, and `stdout` has the lines that must come. A crate of its own, so
//! that `alias_nested` is proved once.
//!
//! A line of `stdin` is `unit` and the unit of the runs behind it; `#` and what is shown by the runs behind it; or a
//! run: `infer` or `analyse` and the numbers of the calls of passes that fail, or `none`; `keep`; or `drop`. Each but a
//! unit is printed, and then what comes of it.
#![tactic(auto)]

mod analyses;
mod dropping;
mod endings;
mod runs;

use std::fmt::Debug;
use std::io;

/// Prints a fact.
pub(crate) fn print_fact(rt: &impl Print, name: &str, fact: &impl Debug) {
    let _ = println!(rt; "{name}: {fact:?}");
}

fn main(rt: HostRuntime) {
    let alloc = rt.alloc();
    if let Ok(text) = io::read_to_string(alloc, rt.stdin()) {
        runs::print_runs(&rt, alloc, text.as_str());
    }
}
