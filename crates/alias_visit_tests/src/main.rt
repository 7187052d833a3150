//! Prints what values, effects and terminals read, assign and name, in order, and what the visitors change that do: a
//! line for each fact, and `stdout` has those that must come. A crate of its own, so that `alias_visit` is proved once.
//! No function answers an error: where memory runs out, or a line can't be printed, what comes differs.
//!
//! Of places three numbers are printed, with a digit for each place: its identifier, which is below ten; 1 where it is
//! read, 2 where it is stored, and else 3; and 1 where it is reactive, and else 2.
#![tactic(auto)]

mod changes;
mod functions;
mod lists;
mod printed;
mod values;

use alias_hir::env::Environment;

fn main(rt: HostRuntime) {
    let alloc = rt.alloc();
    let mut env = Environment::new(alloc);
    functions::add_nested(alloc, &mut env);
    lists::print_values(&rt, alloc, &env);
    lists::print_effects(&rt, alloc);
    lists::print_switch(&rt, alloc);
    lists::print_targets(&rt, alloc);
    functions::print_places(&rt, alloc, &env);
    changes::print_changes(&rt, alloc, &env);
}
