//! Where no instruction below carries an `Apply`, no analysis of nested functions says that one is left, over passes of the caller that
//! change functions.

ghost use Rattle.std.specs.Prelude.{◌≡◌, ◌≢◌, ℕ, Bool, false, List, [], Result, Ok, Err, ⊤};
ghost use Rattle.alias_base.specs.declared.ids.InstructionId.{InstructionId};
ghost use Rattle.alias_hir.specs.declared.env.Environment.{Environment};
ghost use Rattle.alias_hir.specs.declared.error.InferError.{InferError};
ghost use Rattle.alias_hir.specs.declared.error.InferError.TheVariants.{UnreplacedApply};
ghost use Rattle.alias_hir.specs.declared.report.Report.{Report};
ghost use Rattle.alias_rules.specs.Functions.{rules_hold};
ghost use Rattle.alias_effects.specs.declared.solved.Solved.{Solved};
ghost use Rattle.alias_nested.specs.Analysis.{Analysed, Analysis, analysis, most_levels};
ghost use Rattle.alias_nested.specs.Answers.{AnalysedWith, Analyses, AnalysesInto};
ghost use Rattle.alias_nested.specs.Refusals.{AnalysisRefused};
ghost use Rattle.alias_answer_laws.specs.answers.Applies.{NestedLackApply};
ghost use Rattle.alias_answer_laws.specs.answers.Avoiding.{is_unreplaced};

use alias_hir::env::{Environment, Unit};
use alias_hir::hir::HirFunction;

/// Where no instruction of a nested function carries an `Apply`, no analysis of the functions below a function is refused with
/// `UnreplacedApply`, whatever the passes of the caller change within their law, and no instruction carries one afterwards. So neither form
/// of `analyse_functions` answers it. Does nothing.
pub fn call_laws(func: &HirFunction, env: &Environment)
    ensures answers { NestedLackApply env.now → (keeps_all : Bool) (n : ℕ) (fs : List Analysed) (e : InferError) → AnalysedWith keeps_all n func.now (analysis env.now fs) (Err e) → is_unreplaced e ≡ false }
    ensures refusals { NestedLackApply env.now → (keeps_all : Bool) (n : ℕ) (fs : List Analysed) (e : InferError) (left : Environment) → AnalysisRefused keeps_all n func.now (analysis env.now fs) e left → is_unreplaced e ≡ false }
    ensures stays { NestedLackApply env.now → (keeps_all : Bool) (n : ℕ) (fs : List Analysed) (a : Analysis) → AnalysedWith keeps_all n func.now (analysis env.now fs) (Ok a) → NestedLackApply a.env }
    ensures certified { NestedLackApply env.now → (keeps_all : Bool) (answer : Result (List Solved) InferError) (after : Environment) → Analyses (AnalysedWith keeps_all most_levels func.now (analysis env.now [])) answer after → (i : InstructionId) (report : Report) → answer ≢ Err (UnreplacedApply i report) }
    ensures plain { NestedLackApply env.now → (keeps_all : Bool) (answer : Result ⊤ InferError) (after : Environment) → AnalysesInto (AnalysedWith keeps_all most_levels func.now (analysis env.now [])) answer after → (i : InstructionId) (report : Report) → answer ≢ Err (UnreplacedApply i report) }
{
    // A law does nothing with what it is given: its clause is what it is for.
    let _func = func;
    let _env = env;
}

/// In a unit that is well formed nothing is inferred yet, so no instruction of a nested function carries an `Apply`. Does nothing.
pub fn unit_laws(unit: &Unit)
    ensures { rules_hold unit.now ≡ Ok tt → NestedLackApply unit.now.env }
{
    let _unit = unit;
}
