//! What the effects pass records holds no Apply, no inference of a unit says that one is left, and none says that an operand has no
//! effect.

ghost use Rattle.std.specs.Prelude.{◌≡◌, ◌≢◌, Bool, Result, Ok, Err};
ghost use Rattle.alias_base.specs.declared.ids.IdentifierId.{IdentifierId};
ghost use Rattle.alias_base.specs.declared.ids.InstructionId.{InstructionId};
ghost use Rattle.alias_hir.specs.declared.error.InferError.{InferError};
ghost use Rattle.alias_hir.specs.declared.error.InferError.TheVariants.{UnreplacedApply, EffectsNotInferred};
ghost use Rattle.alias_hir.specs.declared.hir.HirFunction.{HirFunction};
ghost use Rattle.alias_hir.specs.declared.report.Report.{Report};
ghost use Rattle.alias_rules.specs.Functions.{rules_hold};
ghost use Rattle.alias_effects.specs.Inference.{pass_end};
ghost use Rattle.alias_effects.specs.Recording.{with_effects_of};
ghost use Rattle.alias_effects.specs.declared.output.PassEnd.{PassEnd};
ghost use Rattle.alias_effects.specs.declared.solved.Solved.{Solved};
ghost use Rattle.alias_range_pass.specs.Passes.{range_pass};
ghost use Rattle.alias_nested.specs.Units.{unit_analysed, InfersUnit};
ghost use Rattle.alias_nested.specs.declared.infer.Inferred.{Inferred};
ghost use Rattle.alias_answer_laws.specs.answers.Applies.{RecordsNoApply, InstructionsLackApply, TerminalsLackApply};

use alias_hir::env::{Environment, Unit};

/// What the effects pass records of a function's instructions and terminals holds no `Apply`, so a function whose instructions
/// and terminals carried none carries none with it, and the range pass doesn't answer `UnreplacedApply` then. Does nothing.
pub fn apply_laws(env: &Environment)
    ensures recorded { (f : HirFunction) (b : Bool) (e : PassEnd) → pass_end env.now f b ≡ Ok e → RecordsNoApply e.solved }
    ensures instructions { (s : Solved) (f : HirFunction) → RecordsNoApply s → InstructionsLackApply f → InstructionsLackApply (with_effects_of s f) }
    ensures terminals { (s : Solved) (f : HirFunction) → RecordsNoApply s → TerminalsLackApply f → TerminalsLackApply (with_effects_of s f) }
    ensures ranges { (b : Bool) (f : HirFunction) → InstructionsLackApply f → (i : InstructionId) (report : Report) → range_pass b f env.now ≢ Err (UnreplacedApply i report) }
{
    // A law does nothing with what it is given: its clause is what it is for.
    let _env = env;
}

/// What is inferred of a unit that is well formed is never refused with `UnreplacedApply`, and so no call that infers it answers
/// that. Does nothing.
pub fn unit_laws(unit: &Unit)
    ensures unit { rules_hold unit.now ≡ Ok tt → (i : InstructionId) (report : Report) → unit_analysed unit.now ≢ Err (UnreplacedApply i report) }
    ensures calls { rules_hold unit.now ≡ Ok tt → (answer : Result Inferred InferError) → InfersUnit (unit_analysed unit.now) answer → (i : InstructionId) (report : Report) → answer ≢ Err (UnreplacedApply i report) }
{
    let _unit = unit;
}

/// What is inferred of a unit is never refused with `EffectsNotInferred`: where the first validation comes to an operand, the range
/// pass gave it an effect. So no call that infers a unit answers that. Does nothing.
pub fn operand_laws(unit: &Unit)
    ensures unit { (x : IdentifierId) → unit_analysed unit.now ≢ Err (EffectsNotInferred x) }
    ensures calls { (answer : Result Inferred InferError) → InfersUnit (unit_analysed unit.now) answer → (x : IdentifierId) → answer ≢ Err (EffectsNotInferred x) }
{
    let _unit = unit;
}
