//! Prints what the calls of a call's effects come to, over an environment: a line for each fact, and `stdout` has those
//! that must come, as docs/MODEL.md says. An effect is printed as its form, its source and its target, or its one place
//! and its report's number. No function answers an error to print: where memory runs out, what comes differs.
#![tactic(auto)]

mod legacy;
mod making;
mod parts;
mod printing;
mod summaries;

fn main(rt: HostRuntime) {
    let alloc = rt.alloc();
    legacy::print_legacy(&rt, alloc);
    parts::print_parts(&rt, alloc);
    summaries::print_summaries(&rt, alloc);
}
