//! A nested function once its effects are recorded.
ghost use Rattle.std.specs.Prelude.{◌≡◌, true};
ghost use Rattle.alias_rules.specs.Fitting.{function_fits};
ghost use Rattle.alias_nested.specs.Finishing.{finished, FinishesInto};
ghost use Rattle.alias_nested.specs.Fitting.{FunctionKept};
ghost use Rattle.alias_nested.specs.Order.{SameInSlots};
ghost use Rattle.alias_nested.specs.Annotating.{annotated};

use crate::annotating::{reset_context, summarize};
use alias_hir::effect::AliasingEffects;
use alias_hir::env::Environment;
use alias_hir::error::InferError;
use alias_hir::hir::HirFunction;
use alias_ranges::infer_mutation_aliasing_ranges;
use std::alloc::Global;

/// Sets what follows from the summary of a nested function.
fn annotate(func: &mut HirFunction, env: &mut Environment, summary: AliasingEffects)
    ensures { (func.new, env.new) ≡ annotated summary (func.old, env.old) }
{
    summarize(func, summary);
    reset_context(func.context.as_slice(), &mut env.identifiers);
}

/// Finishes a nested function whose effects are recorded: the range pass runs on it, its summary is stored, its context places
/// are captured where the summary captures or mutates them, and the ranges of its context are reset.
///
/// The errors are those of the range pass, and leave function and environment as they were; after out of memory, which can
/// come at any time, ranges and effects of places may be set in part.
pub fn finish_function(
    alloc: Global,
    func: &mut HirFunction,
    env: &mut Environment,
) -> Result<(), InferError>
    requires { function_fits func.old env.old ≡ true }
    ensures answer { FinishesInto (finished func.old env.old) func.old env.old result func.new env.new }
    ensures kept { FunctionKept func.old env.old func.new env.new }
    ensures slots { SameInSlots env.old env.new }
{
    let summary = infer_mutation_aliasing_ranges(alloc, func, env, true)?;
    annotate(func, env, summary);
    Ok(())
}
