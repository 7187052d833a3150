//! Prints what lists, texts, blocks in order, planned failures and streams come to on examples, a line for each fact.
//! What must come stands in `stdout`: nothing is asserted, so that nothing is proved but that each call may be made,
//! and ends. No function answers an error: where memory runs out, or a line can't be printed, what comes differs.
#![tactic(auto)]

mod lists;
mod streams;

use std::fmt::Debug;

/// Prints a fact.
pub(crate) fn print_fact(rt: &impl Print, name: &str, fact: &impl Debug) {
    let _ = println!(rt; "{name}: {fact:?}");
}

fn main(rt: HostRuntime) {
    let alloc = rt.alloc();
    lists::print_list(&rt, alloc);
    lists::print_text(&rt, alloc);
    lists::print_blocks(&rt, alloc);
    lists::print_planned(&rt, alloc);
    streams::print_reads(&rt, alloc);
    streams::print_failed_write(&rt, alloc);
    streams::print_whole(&rt, alloc, 1);
    streams::print_whole(&rt, alloc, 10);
}
