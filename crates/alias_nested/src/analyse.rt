//! The functions below a function, innermost first.
ghost use Rattle.std.specs.Prelude.{◌≡◌, ℕ, ◌<◌, ◌≤◌, true, false, [], ◌∷◌, ◌++◌, Some, IfOk, IfErr, length, map, slice_get};
ghost use Rattle.alias_base.specs.failures.Failures.{HasFailed};
ghost use Rattle.alias_rules.specs.function_rules.Rules.{is_among};
ghost use Rattle.alias_rules.specs.Fitting.{function_fits};
ghost use Rattle.alias_rules.specs.Nesting.{created_in, times};
ghost use Rattle.alias_nested.specs.Analysis.{analysis, most_levels, analysed, Accounts, Leads, IsPassFault};
ghost use Rattle.alias_nested.specs.Answers.{TakenAnalysed, SlotAnalysed, AnalysedWith, Analyses, AnalysesInto, AnalysesExactly, AnalysesExactlyInto};
ghost use Rattle.alias_nested.specs.Fitting.{EnvironmentPruned};
ghost use Rattle.alias_nested.specs.Order.{below_innermost_first, slot_innermost_first, numbers, functions_of, Notes, KeepsToOrder, KeepsToOrderWith};
ghost use Rattle.alias_nested.specs.Faults.{IsNamedFault, IsFaultWithin};
ghost use Rattle.alias_nested.specs.Refusals.{TakenRefused, SlotRefused, AnalysisRefused, Leaves, LeadsToOne, LeadsToOneWith};
ghost use Rattle.alias_nested.specs.Slots.{emptied};
ghost use Rattle.alias_nesting_laws.specs.Slots.{with_function};
ghost use Rattle.alias_fitting_laws.specs.pruning.Pruning.{FunctionPruned, SlotsKept};

use crate::created::created_functions;
use crate::function::infer_function;
use crate::slots::{put_back, take_out};
use alias_base::{FunctionId, List};
use alias_effects::Solved;
use alias_hir::env::Environment;
use alias_hir::error::InferError;
use alias_hir::hir::HirFunction;
use alias_inner_passes::InnerPasses;
use std::alloc::Global;

/// Functions are nested in at most so many levels below the one handed in, as the rules say.
const MOST_LEVELS: u32 = 63;

/// The functions on so many levels below the function, those below each before it. What is solved of each is noted.
#[cycle(nested)]
fn analyse_created<P: InnerPasses, F: FnMut(&HirFunction, &Environment)>(
    alloc: Global,
    levels: u32,
    func: &HirFunction,
    env: &mut Environment,
    passes: &mut P,
    debug_logger: &mut F,
    solved: &mut List<Solved>,
) -> Result<(), InferError>
    requires fits { function_fits func.now env.old ≡ true }
    requires logger { (log : F) (f : _) (e : _) → F.pre log f e }
    ensures run { (fs : _) → Accounts fs solved.old → LeadsToOne (AnalysedWith P.keeps_all levels func.now (analysis env.old fs)) (AnalysisRefused P.keeps_all levels func.now (analysis env.old fs)) result env.new solved.new }
    ensures kept { EnvironmentPruned env.old env.new }
    ensures order { KeepsToOrder (below_innermost_first levels func.now env.old) result env.old env.new }
    ensures noted { IfOk result (λ _. Notes (below_innermost_first levels func.now env.old) solved.old solved.new) }
    ensures faults { P.faults passes.old ≤ P.faults passes.new }
    ensures failed { IsPassFault result → HasFailed (P.faults passes.old) (P.faults passes.new) (P.at_last passes.new) }
    ensures last { IfErr result (λ e. IsNamedFault (P.failed_last passes.new) env.new e) }
{
    if levels == 0 {
        return Ok(());
    }
    let created = created_functions(alloc, func)?;
    for id in created.as_slice() {
        analyse_slot(alloc, levels - 1, *id, env, passes, debug_logger, solved)?;
    }
    Ok(())
}

/// The function of the number, which is taken out of its slot, and put back whatever comes. It is none of those below it.
#[cycle(nested)]
fn analyse_slot<P: InnerPasses, F: FnMut(&HirFunction, &Environment)>(
    alloc: Global,
    levels: u32,
    id: FunctionId,
    env: &mut Environment,
    passes: &mut P,
    debug_logger: &mut F,
    solved: &mut List<Solved>,
) -> Result<(), InferError>
    requires there { id.0 < length env.old.functions }
    requires fits { (f : _) → slice_get env.old.functions id.0 ≡ Some f → function_fits f (with_function id (emptied f.returns) env.old) ≡ true }
    requires other { (f : _) → slice_get env.old.functions id.0 ≡ Some f → is_among (created_in f) id.0 ≡ false }
    requires apart { (f : _) → slice_get env.old.functions id.0 ≡ Some f → is_among (numbers (below_innermost_first levels f env.old)) id.0 ≡ false }
    requires logger { (log : F) (f : _) (e : _) → F.pre log f e }
    ensures run { (fs : _) → Accounts fs solved.old → LeadsToOne (SlotAnalysed P.keeps_all (AnalysedWith P.keeps_all levels) id (analysis env.old fs)) (SlotRefused P.keeps_all levels (AnalysisRefused P.keeps_all levels) id (analysis env.old fs)) result env.new solved.new }
    ensures kept { EnvironmentPruned env.old env.new }
    ensures order { KeepsToOrder (slot_innermost_first levels id env.old) result env.old env.new }
    ensures noted { IfOk result (λ _. Notes (slot_innermost_first levels id env.old) solved.old solved.new) }
    ensures faults { P.faults passes.old ≤ P.faults passes.new }
    ensures failed { IsPassFault result → HasFailed (P.faults passes.old) (P.faults passes.new) (P.at_last passes.new) }
    ensures last { IfErr result (λ e. IsNamedFault (P.failed_last passes.new) env.new e) }
{
    let mut func = take_out(alloc, id, env);
    let answer = analyse_taken(
        alloc,
        levels,
        id,
        &mut func,
        env,
        passes,
        debug_logger,
        solved,
    );
    put_back(id, func, env);
    answer
}

/// The function of the number, which is out of its slot: first those below it.
#[cycle(nested)]
fn analyse_taken<P: InnerPasses, F: FnMut(&HirFunction, &Environment)>(
    alloc: Global,
    levels: u32,
    id: FunctionId,
    func: &mut HirFunction,
    env: &mut Environment,
    passes: &mut P,
    debug_logger: &mut F,
    solved: &mut List<Solved>,
) -> Result<(), InferError>
    requires fits { function_fits func.old env.old ≡ true }
    requires logger { (log : F) (f : _) (e : _) → F.pre log f e }
    ensures run { (fs : _) → Accounts fs solved.old → LeadsToOneWith (TakenAnalysed P.keeps_all (AnalysedWith P.keeps_all levels) id func.old (analysis env.old fs)) (TakenRefused P.keeps_all levels (AnalysisRefused P.keeps_all levels) id func.old (analysis env.old fs)) result func.new env.new solved.new }
    ensures kept { FunctionPruned func.old env.old func.new env.new }
    ensures order { KeepsToOrderWith (below_innermost_first levels func.old env.old) id result func.old func.new env.old env.new }
    ensures noted { IfOk result (λ _. Notes (below_innermost_first levels func.old env.old ++ id ∷ []) solved.old solved.new) }
    ensures faults { P.faults passes.old ≤ P.faults passes.new }
    ensures failed { IsPassFault result → HasFailed (P.faults passes.old) (P.faults passes.new) (P.at_last passes.new) }
    ensures last { IfErr result (λ e. IsFaultWithin (P.failed_last passes.new) (below_innermost_first levels func.old env.old) id func.new env.new e) }
{
    analyse_created(alloc, levels, func, env, passes, debug_logger, solved)?;
    infer_function(alloc, id, func, env, passes, debug_logger, solved)
}

/// The functions below one, as `analyse_functions_certified` analyses them, where the passes keep everything: with no logger. What
/// is solved of each is noted.
pub(crate) fn analyse_kept<P: InnerPasses>(
    alloc: Global,
    func: &HirFunction,
    env: &mut Environment,
    passes: &mut P,
    solved: &mut List<Solved>,
) -> Result<(), InferError>
    requires fits { function_fits func.now env.old ≡ true }
    requires keeps_all { P.keeps_all ≡ true }
    ensures run { (fs : _) → Accounts fs solved.old → Leads (analysed most_levels func.now (analysis env.old fs)) result env.new solved.new }
    ensures kept { EnvironmentPruned env.old env.new }
    ensures faults { P.faults passes.old ≤ P.faults passes.new }
    ensures failed { IsPassFault result → HasFailed (P.faults passes.old) (P.faults passes.new) (P.at_last passes.new) }
    ensures last { IfErr result (λ e. IsNamedFault (P.failed_last passes.new) env.new e) }
{
    let mut no_logger = |_func: &HirFunction, _env: &Environment| {};
    analyse_created(
        alloc,
        MOST_LEVELS,
        func,
        env,
        passes,
        &mut no_logger,
        solved,
    )
}

/// Analyses the functions below a function, innermost first, and hands out what is solved of each, in this order.
///
/// Each function that an instruction creates is taken out of its slot; those below it are analysed; the effects pass,
/// `dead_code_elimination`, the range pass and the two other passes run on it; its summary is stored, and its
/// context places are captured where the summary captures or mutates them; the logger is called; the ranges of its context
/// are reset; and it is put back. What the passes of the caller may change is said at `InnerPasses`. docs/MODEL.md has the rules.
///
/// On every answer the function handed in stays as it was, each function stands in its slot again, with its parameters, its
/// context and its returns, `check_function` still holds, and no function changes that isn't below the one handed in, but for
/// the effects of its context places. A refusal names its function, unless it is `TooMany`, `UnreplacedApply` or `Memory`: it is
/// that of the first in the order whose effects or ranges are refused, as `infer_effects_certified` and the range pass tell. It
/// leaves the environment in which that pass was refused, with its function and those around it back in their slots: what was
/// found of the functions before it in the order stays. Those behind it are unchanged, but for the effects of their context
/// places. `PassFault` names its function and the pass that failed on it, where all that comes before went well, and comes only
/// where the count of the passes' faults rose, or stands at its last value: this pass failed last, and what it left of
/// the function stands in that one's slot. Beside the same environment, what that pass may change stays. `Memory` is out
/// of memory, which can come at any time.
pub fn analyse_functions_certified<P: InnerPasses, F: FnMut(&HirFunction, &Environment)>(
    alloc: Global,
    func: &mut HirFunction,
    env: &mut Environment,
    passes: &mut P,
    debug_logger: &mut F,
) -> Result<List<Solved>, InferError>
    requires fits { function_fits func.old env.old ≡ true }
    requires logger { (log : F) (f : _) (e : _) → F.pre log f e }
    ensures answer { Analyses (AnalysedWith P.keeps_all most_levels func.old (analysis env.old [])) result env.new }
    ensures exact { P.keeps_all ≡ true → AnalysesExactly (analysed most_levels func.old (analysis env.old [])) result env.new }
    ensures left { Leaves (AnalysisRefused P.keeps_all most_levels func.old (analysis env.old [])) result env.new }
    ensures functions { IfOk result (λ solved. functions_of solved ≡ map Some (below_innermost_first most_levels func.old env.old)) }
    ensures func { func.new ≡ func.old }
    ensures fits { function_fits func.new env.new ≡ true }
    ensures slots { SlotsKept env.old env.new }
    ensures count { length env.new.functions ≡ length env.old.functions }
    ensures order { KeepsToOrder (below_innermost_first most_levels func.old env.old) result env.old env.new }
    ensures once { (k : ℕ) → times (numbers (below_innermost_first most_levels func.old env.old)) k ≤ 1 }
    ensures faults { P.faults passes.old ≤ P.faults passes.new }
    ensures failed { IsPassFault result → HasFailed (P.faults passes.old) (P.faults passes.new) (P.at_last passes.new) }
    ensures last { IfErr result (λ e. IsNamedFault (P.failed_last passes.new) env.new e) }
{
    let mut solved = List::new(alloc);
    analyse_created(
        alloc,
        MOST_LEVELS,
        func,
        env,
        passes,
        debug_logger,
        &mut solved,
    )?;
    Ok(solved)
}

/// Analyses the functions below a function as `analyse_functions_certified` does, and hands nothing out. Its errors are the
/// same, and so is what an error leaves.
pub fn analyse_functions<P: InnerPasses, F: FnMut(&HirFunction, &Environment)>(
    alloc: Global,
    func: &mut HirFunction,
    env: &mut Environment,
    passes: &mut P,
    debug_logger: &mut F,
) -> Result<(), InferError>
    requires fits { function_fits func.old env.old ≡ true }
    requires logger { (log : F) (f : _) (e : _) → F.pre log f e }
    ensures answer { AnalysesInto (AnalysedWith P.keeps_all most_levels func.old (analysis env.old [])) result env.new }
    ensures exact { P.keeps_all ≡ true → AnalysesExactlyInto (analysed most_levels func.old (analysis env.old [])) result env.new }
    ensures left { Leaves (AnalysisRefused P.keeps_all most_levels func.old (analysis env.old [])) result env.new }
    ensures func { func.new ≡ func.old }
    ensures fits { function_fits func.new env.new ≡ true }
    ensures slots { SlotsKept env.old env.new }
    ensures count { length env.new.functions ≡ length env.old.functions }
    ensures order { KeepsToOrder (below_innermost_first most_levels func.old env.old) result env.old env.new }
    ensures once { (k : ℕ) → times (numbers (below_innermost_first most_levels func.old env.old)) k ≤ 1 }
    ensures faults { P.faults passes.old ≤ P.faults passes.new }
    ensures failed { IsPassFault result → HasFailed (P.faults passes.old) (P.faults passes.new) (P.at_last passes.new) }
    ensures last { IfErr result (λ e. IsNamedFault (P.failed_last passes.new) env.new e) }
{
    analyse_functions_certified(alloc, func, env, passes, debug_logger)?;
    Ok(())
}
