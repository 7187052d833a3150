//! One nested function, once those below it are analysed.
ghost use Rattle.std.specs.Prelude.{◌≡◌, ◌≤◌, true, false, [], ◌∷◌, Some, Err, IfOk, IfErr};
ghost use Rattle.alias_base.specs.failures.Failures.{HasFailed};
ghost use Rattle.alias_hir.specs.Errors.{is_memory};
ghost use Rattle.alias_hir.specs.declared.error.InferError.TheVariants.{PassFault};
ghost use Rattle.alias_rules.specs.Fitting.{function_fits};
ghost use Rattle.alias_range_pass.specs.Passes.{range_pass, PassGives};
ghost use Rattle.alias_nested.specs.Analysis.{naming, analysis, effects_analysed, Accounts, LeadsWith, IsPassFault};
ghost use Rattle.alias_nested.specs.Faults.{IsFaultOf};
ghost use Rattle.alias_nested.specs.Answers.{IsPassed, Completed, FunctionAnalysed};
ghost use Rattle.alias_nested.specs.Fitting.{FunctionKept, SummaryFits};
ghost use Rattle.alias_nested.specs.Order.{SameInSlots, Names, Notes};
ghost use Rattle.alias_nested.specs.Refusals.{CompletionRefused, FunctionRefused, CompletesOne, LeadsToOneWith};
ghost use Rattle.alias_nested.specs.Annotating.{annotated};
ghost use Rattle.alias_fitting_laws.specs.pruning.Pruning.{FunctionPruned};

use crate::annotating::{reset_context, summarize};
use crate::errors::{named, stopped};
use alias_base::{FunctionId, List};
use alias_effects::{Solved, infer_effects_certified};
use alias_hir::effect::AliasingEffects;
use alias_hir::env::Environment;
use alias_hir::error::{InferError, Pass};
use alias_hir::hir::HirFunction;
use alias_inner_passes::{InnerPasses, PassStop};
use alias_ranges::infer_mutation_aliasing_ranges;
use std::alloc::Global;

/// The effects pass on the function of the number; what is solved of it is noted.
fn infer_effects(
    alloc: Global,
    id: FunctionId,
    func: &mut HirFunction,
    env: &mut Environment,
    solved: &mut List<Solved>,
) -> Result<(), InferError>
    requires { function_fits func.old env.old ≡ true }
    ensures run { (fs : _) → Accounts fs solved.old → LeadsWith (effects_analysed id func.old (analysis env.old fs)) result func.new env.new solved.new }
    ensures unchanged { IfErr result (λ e. is_memory e ≡ false → (func.new ≡ func.old) × (env.new ≡ env.old)) }
    ensures noted { IfOk result (λ _. Notes (id ∷ []) solved.old solved.new) }
    ensures kept { FunctionKept func.old env.old func.new env.new }
    ensures slots { SameInSlots env.old env.new }
    ensures no_fault { IsPassFault result → ⊥ }
    ensures names { (IsPassFault result → ⊥) → Names id result }
{
    match infer_effects_certified(alloc, func, env, true) {
        Ok(found) => {
            solved.push(Solved {
                function: Some(id),
                ..found
            })?;
            Ok(())
        }
        Err(error) => Err(named(id, error)),
    }
}

/// The range pass on the function of the number.
fn infer_ranges(
    alloc: Global,
    id: FunctionId,
    func: &mut HirFunction,
    env: &mut Environment,
) -> Result<AliasingEffects, InferError>
    requires { function_fits func.old env.old ≡ true }
    ensures run { PassGives (naming id (range_pass true func.old env.old)) func.old env.old result func.new env.new }
    ensures kept { FunctionKept func.old env.old func.new env.new }
    ensures summary { IfOk result (λ s. SummaryFits env.new s) }
    ensures slots { SameInSlots env.old env.new }
    ensures no_fault { IsPassFault result → ⊥ }
    ensures names { (IsPassFault result → ⊥) → Names id result }
{
    match infer_mutation_aliasing_ranges(alloc, func, env, true) {
        Ok(summary) => Ok(summary),
        Err(error) => Err(named(id, error)),
    }
}

/// A pass of the caller.
fn called<P: InnerPasses>(
    alloc: Global,
    pass: Pass,
    func: &mut HirFunction,
    env: &mut Environment,
    passes: &mut P,
) -> Result<(), PassStop>
    requires { function_fits func.old env.old ≡ true }
    ensures passed { IsPassed P.keeps_all (func.old, env.old) (func.new, env.new) }
    ensures faults { P.faults passes.old ≤ P.faults passes.new }
    ensures failed { result ≡ Err PassStop.Failed → HasFailed (P.faults passes.old) (P.faults passes.new) (P.at_last passes.new) }
    ensures last { result ≡ Err PassStop.Failed → P.failed_last passes.new pass func.new }
{
    match pass {
        Pass::DeadCodeElimination => passes.dead_code_elimination(alloc, func, env),
        Pass::RewriteInstructionKindsBasedOnReassignment => {
            passes.rewrite_instruction_kinds_based_on_reassignment(alloc, func, env)
        }
        Pass::InferReactiveScopeVariables => {
            passes.infer_reactive_scope_variables(alloc, func, env)
        }
    }
}

/// A pass of the caller on the function of the number.
fn run_pass<P: InnerPasses>(
    alloc: Global,
    id: FunctionId,
    pass: Pass,
    func: &mut HirFunction,
    env: &mut Environment,
    passes: &mut P,
) -> Result<(), InferError>
    requires { function_fits func.old env.old ≡ true }
    ensures passed { IsPassed P.keeps_all (func.old, env.old) (func.new, env.new) }
    ensures fault { IfErr result (λ e. is_memory e ≡ false → e ≡ PassFault (Some id) pass) }
    ensures names { Names id result }
    ensures faults { P.faults passes.old ≤ P.faults passes.new }
    ensures failed { IsPassFault result → HasFailed (P.faults passes.old) (P.faults passes.new) (P.at_last passes.new) }
    ensures last { IfErr result (λ e. IsFaultOf (P.failed_last passes.new) id func.new e) }
{
    match called(alloc, pass, func, env, passes) {
        Ok(()) => Ok(()),
        Err(stop) => Err(stopped(id, pass, stop)),
    }
}

/// Sets what follows from the summary of a nested function, and calls the logger in between, once the function is as it stays.
fn annotate_logged<F: FnMut(&HirFunction, &Environment)>(
    func: &mut HirFunction,
    env: &mut Environment,
    summary: AliasingEffects,
    debug_logger: &mut F,
)
    requires { (log : F) (f : _) (e : _) → F.pre log f e }
    ensures { (func.new, env.new) ≡ annotated summary (func.old, env.old) }
{
    summarize(func, summary);
    debug_logger(func, env);
    reset_context(func.context.as_slice(), &mut env.identifiers);
}

/// What follows the effects pass.
fn complete<P: InnerPasses, F: FnMut(&HirFunction, &Environment)>(
    alloc: Global,
    id: FunctionId,
    func: &mut HirFunction,
    env: &mut Environment,
    passes: &mut P,
    debug_logger: &mut F,
) -> Result<(), InferError>
    requires fits { function_fits func.old env.old ≡ true }
    requires logger { (log : F) (f : _) (e : _) → F.pre log f e }
    ensures run { CompletesOne (Completed P.keeps_all id (func.old, env.old)) (CompletionRefused P.keeps_all id (func.old, env.old)) result func.new env.new }
    ensures kept { FunctionPruned func.old env.old func.new env.new }
    ensures slots { SameInSlots env.old env.new }
    ensures names { Names id result }
    ensures faults { P.faults passes.old ≤ P.faults passes.new }
    ensures failed { IsPassFault result → HasFailed (P.faults passes.old) (P.faults passes.new) (P.at_last passes.new) }
    ensures last { IfErr result (λ e. IsFaultOf (P.failed_last passes.new) id func.new e) }
{
    run_pass(alloc, id, Pass::DeadCodeElimination, func, env, passes)?;
    let summary = infer_ranges(alloc, id, func, env)?;
    run_pass(
        alloc,
        id,
        Pass::RewriteInstructionKindsBasedOnReassignment,
        func,
        env,
        passes,
    )?;
    run_pass(
        alloc,
        id,
        Pass::InferReactiveScopeVariables,
        func,
        env,
        passes,
    )?;
    annotate_logged(func, env, summary, debug_logger);
    Ok(())
}

/// A nested function, which is out of its slot, once those below it are analysed.
pub(crate) fn infer_function<P: InnerPasses, F: FnMut(&HirFunction, &Environment)>(
    alloc: Global,
    id: FunctionId,
    func: &mut HirFunction,
    env: &mut Environment,
    passes: &mut P,
    debug_logger: &mut F,
    solved: &mut List<Solved>,
) -> Result<(), InferError>
    requires fits { function_fits func.old env.old ≡ true }
    requires logger { (log : F) (f : _) (e : _) → F.pre log f e }
    ensures run { (fs : _) → Accounts fs solved.old → LeadsToOneWith (FunctionAnalysed P.keeps_all id func.old (analysis env.old fs)) (FunctionRefused P.keeps_all id func.old (analysis env.old fs)) result func.new env.new solved.new }
    ensures noted { IfOk result (λ _. Notes (id ∷ []) solved.old solved.new) }
    ensures kept { FunctionPruned func.old env.old func.new env.new }
    ensures slots { SameInSlots env.old env.new }
    ensures names { Names id result }
    ensures faults { P.faults passes.old ≤ P.faults passes.new }
    ensures failed { IsPassFault result → HasFailed (P.faults passes.old) (P.faults passes.new) (P.at_last passes.new) }
    ensures last { IfErr result (λ e. IsFaultOf (P.failed_last passes.new) id func.new e) }
{
    infer_effects(alloc, id, func, env, solved)?;
    complete(alloc, id, func, env, passes, debug_logger)
}
