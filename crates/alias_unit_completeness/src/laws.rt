//! All functions of the table are callable at each moment of an analysis, and each refusal has its cause in the unit.

ghost use Rattle.std.specs.Prelude.{◌≡◌, ℕ, Bool, List, [], Result, Ok, Err, true, false, ⊤};
ghost use Rattle.std.specs.List.{AllByRecursion};
ghost use Rattle.alias_rules.specs.Fitting.{function_fits};
ghost use Rattle.alias_rules.specs.Functions.{rules_hold};
ghost use Rattle.alias_hir.specs.declared.error.InferError.{InferError};
ghost use Rattle.alias_hir.specs.declared.env.Environment.{Environment};
ghost use Rattle.alias_effects.specs.declared.solved.Solved.{Solved};
ghost use Rattle.alias_nested.specs.Analysis.{Analysis, analysis, analysed, most_levels, is_free};
ghost use Rattle.alias_nested.specs.Answers.{AnalysedWith, Analyses, AnalysesInto};
ghost use Rattle.alias_nested.specs.Units.{unit_analysed, InfersUnit};
ghost use Rattle.alias_nested.specs.declared.infer.Inferred.{Inferred};
ghost use Rattle.alias_completeness.specs.Callable.{AreCallable};
ghost use Rattle.alias_answer_laws.specs.answers.Applies.{InstructionsLackApply};
ghost use Rattle.alias_answer_laws.specs.answers.Avoiding.{is_unreplaced};
ghost use Rattle.alias_unit_completeness.specs.Below.{EachBelow, SummaryIsInOrder};
ghost use Rattle.alias_unit_completeness.specs.Moments.{BeganCallable};
ghost use Rattle.alias_unit_completeness.specs.Refusals.{BlamesRightly, IsCaused, BlamesNoPlain};

use alias_hir::env::Unit;

/// Of a unit that is well formed: where the functions on some levels below the root are analysed, all functions of the table are
/// callable, and were so as the effects pass of each of those began. Does nothing.
pub fn callable_laws(unit: &Unit)
    ensures { rules_hold unit.now ≡ Ok tt → (levels : ℕ) (a : Analysis) → analysed levels unit.now.function (analysis unit.now.env []) ≡ Ok a → AreCallable a.env × AllByRecursion BeganCallable a.functions }
{
    // A law does nothing with what it is given: its clause is what it is for.
    let _unit = unit;
}

/// Each refusal of the inference of a unit that is well formed has its cause in the unit: a function that it blames
/// for what it does isn't plain, one that isn't settled isn't forward, and else a counter was at its last value. So
/// has a refusal of a call that infers the unit, but for lack of memory and a fault of a pass of the caller; and what
/// has such a cause blames no plain unit. Does nothing.
pub fn complete_laws(unit: &Unit)
    ensures unit { rules_hold unit.now ≡ Ok tt → (e : InferError) → unit_analysed unit.now ≡ Err e → IsCaused unit.now e }
    ensures calls { rules_hold unit.now ≡ Ok tt → (answer : Result Inferred InferError) → InfersUnit (unit_analysed unit.now) answer → (e : InferError) → answer ≡ Err e → is_free e ≡ false → IsCaused unit.now e }
    ensures plain { (e : InferError) → IsCaused unit.now e → BlamesNoPlain unit.now e }
{
    let _unit = unit;
}

/// Of a function that the inference takes, where the functions below it have no summary yet, or one in order, as a
/// unit's have that is well formed: where those are analysed over passes of the caller, whatever their law lets these
/// change, a function that a refusal blames for what it does isn't plain in the table as it was handed in, and one that
/// isn't settled isn't forward. So it is of both forms of `analyse_functions`. Where no instruction of the functions below
/// carries an `Apply`, it is never said that one is left. Of the other functions of the table nothing is asked. Does nothing.
pub fn passes_laws(unit: &Unit)
    ensures units { rules_hold unit.now ≡ Ok tt → (function_fits unit.now.function unit.now.env ≡ true) × EachBelow SummaryIsInOrder unit.now.env unit.now.function × EachBelow InstructionsLackApply unit.now.env unit.now.function }
    ensures certified { function_fits unit.now.function unit.now.env ≡ true → EachBelow SummaryIsInOrder unit.now.env unit.now.function → (keeps_all : Bool) (answer : Result (List Solved) InferError) (env : Environment) → Analyses (AnalysedWith keeps_all most_levels unit.now.function (analysis unit.now.env [])) answer env → (e : InferError) → answer ≡ Err e → BlamesRightly unit.now e }
    ensures plain { function_fits unit.now.function unit.now.env ≡ true → EachBelow SummaryIsInOrder unit.now.env unit.now.function → (keeps_all : Bool) (answer : Result ⊤ InferError) (env : Environment) → AnalysesInto (AnalysedWith keeps_all most_levels unit.now.function (analysis unit.now.env [])) answer env → (e : InferError) → answer ≡ Err e → BlamesRightly unit.now e }
    ensures replaced { function_fits unit.now.function unit.now.env ≡ true → EachBelow InstructionsLackApply unit.now.env unit.now.function → (keeps_all : Bool) (e : InferError) → AnalysedWith keeps_all most_levels unit.now.function (analysis unit.now.env []) (Err e) → is_unreplaced e ≡ false }
{
    let _unit = unit;
}
