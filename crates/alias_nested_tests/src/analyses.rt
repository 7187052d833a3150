//! The calls that analyse the functions below a function: how often the logger is called, and what is left in the
//! slots.
ghost use Rattle.std.specs.Prelude.{◌≡◌, true};
ghost use Rattle.alias_rules.specs.Fitting.{function_fits};

use crate::dropping::DropLast;
use crate::endings::{Ending, refused};
use crate::print_fact;
use alias_hir::env::{Environment, Unit};
use alias_hir::hir::HirFunction;
use alias_inner_passes::{FailingPasses, InnerPasses, KeepAll};
use alias_nested::{analyse_functions, analyse_functions_certified};
use alias_rules::check::Checked;
use std::alloc::Global;

/// Which analysis is run.
#[derive(Clone, Copy)]
pub(crate) enum Analysis {
    /// The one that hands its solutions out, with passes that fail as planned.
    HandingOut,
    /// The one that hands nothing out, with passes that keep everything.
    Keeping,
    /// The one that hands its solutions out, with a pass that drops instructions.
    Dropping,
}

/// How the analysis that hands its solutions out ends with these passes, and how often the logger was called.
fn handing_out<P: InnerPasses>(
    alloc: Global,
    func: &mut HirFunction,
    env: &mut Environment,
    passes: &mut P,
) -> (Ending, u32)
    requires { function_fits func.old env.old ≡ true }
{
    let mut logged = 0u32;
    let mut log = |_func: &HirFunction, _env: &Environment| logged = logged.wrapping_add(1);
    let answer = analyse_functions_certified(alloc, func, env, passes, &mut log);
    match &answer {
        Ok(solved) => (Ending::Inferred(solved.len()), logged),
        Err(error) => (refused(error), logged),
    }
}

/// The same of the analysis that hands nothing out.
fn keeping(alloc: Global, func: &mut HirFunction, env: &mut Environment) -> (Ending, u32)
    requires { function_fits func.old env.old ≡ true }
{
    let mut logged = 0u32;
    let mut log = |_func: &HirFunction, _env: &Environment| logged = logged.wrapping_add(1);
    let answer = analyse_functions(alloc, func, env, &mut KeepAll, &mut log);
    match &answer {
        Ok(()) => (Ending::Done, logged),
        Err(error) => (refused(error), logged),
    }
}

fn ends(
    alloc: Global,
    analysis: Analysis,
    func: &mut HirFunction,
    env: &mut Environment,
    passes: &mut FailingPasses,
) -> (Ending, u32)
    requires { function_fits func.old env.old ≡ true }
{
    match analysis {
        Analysis::HandingOut => handing_out(alloc, func, env, passes),
        Analysis::Keeping => keeping(alloc, func, env),
        Analysis::Dropping => handing_out(alloc, func, env, &mut DropLast),
    }
}

fn has_effects(func: &HirFunction) -> bool {
    func.instructions
        .as_slice()
        .iter()
        .any(|instruction| instruction.effects.is_some())
}

/// How many instructions the first block of the function lists.
fn listed(func: &HirFunction) -> usize {
    match func.body.blocks.get_index(0) {
        Some((_, block)) => block.instructions.len(),
        None => 0,
    }
}

/// Prints how many context places each function has, whether an instruction of it has effects, whether it has a
/// summary, and how many instructions its first block lists.
fn print_slots(rt: &impl Print, functions: &[HirFunction]) {
    for func in functions {
        let fact = (
            func.context.len(),
            has_effects(func),
            func.aliasing_effects.is_some(),
            listed(func),
        );
        print_fact(
            rt,
            "a slot: context, has effects, has a summary, lists",
            &fact,
        );
    }
}

/// Prints how the analysis of the functions of a unit ends, how often its logger was called, and what is in the slots.
pub(crate) fn print_analysis(
    rt: &impl Print,
    alloc: Global,
    analysis: Analysis,
    unit: Checked,
    passes: &mut FailingPasses,
) {
    let Unit {
        mut function,
        mut env,
    } = unit.into_unit();
    let (ending, logged) = ends(alloc, analysis, &mut function, &mut env, passes);
    print_fact(rt, "ends", &ending);
    print_fact(rt, "calls of the logger", &logged);
    print_slots(rt, env.functions.as_slice());
}
