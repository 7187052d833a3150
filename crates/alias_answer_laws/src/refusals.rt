//! Which refusals never come of an analysis of nested functions, over passes of the caller that change them.

ghost use Rattle.std.specs.Prelude.{◌≡◌, ℕ, Bool, false, List, Err};
ghost use Rattle.alias_hir.specs.declared.error.InferError.{InferError};
ghost use Rattle.alias_answer_laws.specs.answers.Avoiding.{is_not_inferred};
ghost use Rattle.alias_nested.specs.Analysis.{Analysed, analysis};
ghost use Rattle.alias_nested.specs.Answers.{AnalysedWith};

use alias_hir::env::Environment;
use alias_hir::hir::HirFunction;

/// No analysis of the functions below a function is refused with `EffectsNotInferred`, whether the passes of the caller keep everything or change
/// functions within their law: only the validations of a root say that an operand has no effect. Does nothing.
pub fn changed_laws(func: &HirFunction, env: &Environment)
    ensures known { (keeps_all : Bool) (n : ℕ) (fs : List Analysed) (e : InferError) → AnalysedWith keeps_all n func.now (analysis env.now fs) (Err e) → is_not_inferred e ≡ false }
{
    // A law does nothing with what it is given: its clause is what it is for.
    let _func = func;
    let _env = env;
}
