//! The passes of the caller that keep everything, with and without planned failures.

use crate::functions::{environment, returns_at_once};
use crate::print_fact;
use alias_base::List;
use alias_hir::env::Environment;
use alias_hir::hir::HirFunction;
use alias_inner_passes::{FailingPasses, InnerPasses, KeepAll, PassStop};
use alias_rules::function::check_function;
use std::alloc::Global;

/// How the three passes end, in their order.
type Ends = (
    Result<(), PassStop>,
    Result<(), PassStop>,
    Result<(), PassStop>,
);

/// How the three passes end, where they may be given the function.
fn ends<P: InnerPasses>(
    alloc: Global,
    passes: &mut P,
    func: &mut HirFunction,
    env: &mut Environment,
) -> Option<Ends> {
    match check_function(alloc, func, env) {
        Ok(true) => Some((
            passes.dead_code_elimination(alloc, func, env),
            passes.rewrite_instruction_kinds_based_on_reassignment(alloc, func, env),
            passes.infer_reactive_scope_variables(alloc, func, env),
        )),
        _ => None,
    }
}

/// Prints how the passes end twice on one function, and how many blocks and identifiers they leave.
fn print_ends<P: InnerPasses>(rt: &impl Print, name: &str, alloc: Global, passes: &mut P) {
    let mut func = returns_at_once(alloc, 0);
    let mut env = environment(alloc, 1);
    print_fact(rt, name, &ends(alloc, passes, &mut func, &mut env));
    print_fact(rt, name, &ends(alloc, passes, &mut func, &mut env));
    let left = (func.body.blocks.len(), env.identifiers.len());
    print_fact(rt, name, &left);
}

/// Passes whose second and third calls fail.
fn failing(alloc: Global) -> FailingPasses {
    let mut calls = List::new(alloc);
    let _ = calls.push(2u64);
    let _ = calls.push(3u64);
    FailingPasses::new(calls)
}

pub(crate) fn print_passes(rt: &impl Print, alloc: Global) {
    print_ends(rt, "keeps_all", alloc, &mut KeepAll);
    let mut passes = failing(alloc);
    print_ends(rt, "fails_at_the_planned_calls", alloc, &mut passes);
}
