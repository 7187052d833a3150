//! The functions below a function, innermost first.

ghost use Rattle.std.specs.Prelude.{◌≡◌, ◌≢◌, ℕ, ◌≤◌, true, false, [], Some, Ok, Err, IfOk, IfErr, length, map};
ghost use Rattle.alias_base.specs.failures.Failures.{HasFailed};
ghost use Rattle.alias_hir.specs.declared.error.InferError.TheVariants.{EffectsNotInferred, UnreplacedApply};
ghost use Rattle.alias_rules.specs.Fitting.{function_fits};
ghost use Rattle.alias_rules.specs.Nesting.{times};
ghost use Rattle.alias_nested.specs.Analysis.{analysis, most_levels, analysed, is_free, IsPassFault};
ghost use Rattle.alias_nested.specs.Answers.{AnalysedWith, Analyses, AnalysesInto, AnalysesExactly, AnalysesExactlyInto};
ghost use Rattle.alias_nested.specs.Faults.{IsNamedFault};
ghost use Rattle.alias_nested.specs.Order.{below_innermost_first, numbers, functions_of, KeepsToOrder};
ghost use Rattle.alias_nested.specs.Refusals.{AnalysisRefused, Leaves};
ghost use Rattle.alias_answer_laws.specs.answers.Applies.{InstructionsLackApply};
ghost use Rattle.alias_fitting_laws.specs.pruning.Pruning.{SlotsKept};
ghost use Rattle.alias_unit_completeness.specs.Below.{EachBelow, SummaryIsInOrder};
ghost use Rattle.alias_unit_completeness.specs.Refusals.{BlamesRightly, IsCaused};
ghost use Rattle.alias_inference.specs.Inferences.{unit_with};

use alias_base::List;
use alias_effects::Solved;
use alias_hir::env::Environment;
use alias_hir::error::InferError;
use alias_hir::hir::HirFunction;
use alias_inner_passes::InnerPasses;
use std::alloc::Global;

/// Analyses the functions below a function, innermost first, as `alias_nested::analyse_functions_certified` does it,
/// with all that is ensured there.
///
/// Besides: that an operand has no effect is never answered, nor that an `Apply` is left where no instruction of the
/// functions below `func` carried one at the call. Where each summary that these have at the call is in order, a function
/// that a refusal blames for what it does isn't plain in the table as it was handed in, and one that isn't settled isn't
/// forward, whatever the passes of the caller change; and where these keep everything, and no `Apply` was carried, each
/// refusal has its cause there. A function of which nothing is inferred has no summary, and its instructions carry
/// nothing; of functions that aren't below `func` nothing is asked.
pub fn analyse_functions_certified<P: InnerPasses, F: FnMut(&HirFunction, &Environment)>(
    alloc: Global,
    func: &mut HirFunction,
    env: &mut Environment,
    passes: &mut P,
    debug_logger: &mut F,
) -> Result<List<Solved>, InferError>
    requires fits { function_fits func.old env.old ≡ true }
    requires logger { (log : F) (f : _) (e : _) → F.pre log f e }
    ensures answer { Analyses (AnalysedWith P.keeps_all most_levels func.old (analysis env.old [])) result env.new }
    ensures exact { P.keeps_all ≡ true → AnalysesExactly (analysed most_levels func.old (analysis env.old [])) result env.new }
    ensures left { Leaves (AnalysisRefused P.keeps_all most_levels func.old (analysis env.old [])) result env.new }
    ensures functions { IfOk result (λ solved. functions_of solved ≡ map Some (below_innermost_first most_levels func.old env.old)) }
    ensures func { func.new ≡ func.old }
    ensures fits { function_fits func.new env.new ≡ true }
    ensures slots { SlotsKept env.old env.new }
    ensures count { length env.new.functions ≡ length env.old.functions }
    ensures order { KeepsToOrder (below_innermost_first most_levels func.old env.old) result env.old env.new }
    ensures once { (k : ℕ) → times (numbers (below_innermost_first most_levels func.old env.old)) k ≤ 1 }
    ensures faults { P.faults passes.old ≤ P.faults passes.new }
    ensures failed { IsPassFault result → HasFailed (P.faults passes.old) (P.faults passes.new) (P.at_last passes.new) }
    ensures last { IfErr result (λ e. IsNamedFault (P.failed_last passes.new) env.new e) }
    ensures operands { (x : _) → result ≢ Err (EffectsNotInferred x) }
    ensures applies { EachBelow InstructionsLackApply env.old func.old → (i : _) (report : _) → result ≢ Err (UnreplacedApply i report) }
    ensures blames { EachBelow SummaryIsInOrder env.old func.old → IfErr result (λ e. BlamesRightly (unit_with func.old env.old) e) }
    ensures complete { P.keeps_all ≡ true → EachBelow SummaryIsInOrder env.old func.old → EachBelow InstructionsLackApply env.old func.old → IfErr result (λ e. is_free e ≡ false → IsCaused (unit_with func.old env.old) e) }
{
    alias_nested::analyse_functions_certified(alloc, func, env, passes, debug_logger)
}

/// Analyses the functions below a function as `alias_nested::analyse_functions` does it, with all that is ensured
/// there, and with what is ensured of refusals by `analyse_functions_certified` above.
pub fn analyse_functions<P: InnerPasses, F: FnMut(&HirFunction, &Environment)>(
    alloc: Global,
    func: &mut HirFunction,
    env: &mut Environment,
    passes: &mut P,
    debug_logger: &mut F,
) -> Result<(), InferError>
    requires fits { function_fits func.old env.old ≡ true }
    requires logger { (log : F) (f : _) (e : _) → F.pre log f e }
    ensures answer { AnalysesInto (AnalysedWith P.keeps_all most_levels func.old (analysis env.old [])) result env.new }
    ensures exact { P.keeps_all ≡ true → AnalysesExactlyInto (analysed most_levels func.old (analysis env.old [])) result env.new }
    ensures left { Leaves (AnalysisRefused P.keeps_all most_levels func.old (analysis env.old [])) result env.new }
    ensures func { func.new ≡ func.old }
    ensures fits { function_fits func.new env.new ≡ true }
    ensures slots { SlotsKept env.old env.new }
    ensures count { length env.new.functions ≡ length env.old.functions }
    ensures order { KeepsToOrder (below_innermost_first most_levels func.old env.old) result env.old env.new }
    ensures once { (k : ℕ) → times (numbers (below_innermost_first most_levels func.old env.old)) k ≤ 1 }
    ensures faults { P.faults passes.old ≤ P.faults passes.new }
    ensures failed { IsPassFault result → HasFailed (P.faults passes.old) (P.faults passes.new) (P.at_last passes.new) }
    ensures last { IfErr result (λ e. IsNamedFault (P.failed_last passes.new) env.new e) }
    ensures operands { (x : _) → result ≢ Err (EffectsNotInferred x) }
    ensures applies { EachBelow InstructionsLackApply env.old func.old → (i : _) (report : _) → result ≢ Err (UnreplacedApply i report) }
    ensures blames { EachBelow SummaryIsInOrder env.old func.old → IfErr result (λ e. BlamesRightly (unit_with func.old env.old) e) }
    ensures complete { P.keeps_all ≡ true → EachBelow SummaryIsInOrder env.old func.old → EachBelow InstructionsLackApply env.old func.old → IfErr result (λ e. is_free e ≡ false → IsCaused (unit_with func.old env.old) e) }
{
    alias_nested::analyse_functions(alloc, func, env, passes, debug_logger)
}
