//! The inference of a unit.

ghost use Rattle.std.specs.Prelude.{◌≡◌, ◌≢◌, ◌≤◌, true, false, Err, IfOk, IfErr, IsOkAnd};
ghost use Rattle.alias_base.specs.failures.Failures.{HasFailed};
ghost use Rattle.alias_hir.specs.declared.error.InferError.TheVariants.{UnreplacedApply, EffectsNotInferred};
ghost use Rattle.alias_rules.specs.Fitting.{function_fits};
ghost use Rattle.alias_cause_laws.specs.causes.Causes.{EachHasCause};
ghost use Rattle.alias_cause_laws.specs.handed.HandedOut.{IsInferredInOrder};
ghost use Rattle.alias_nested.specs.Analysis.{is_free, IsPassFault};
ghost use Rattle.alias_nested.specs.Faults.{NamesItsPass};
ghost use Rattle.alias_nested.specs.Roots.{RootIsCovered, RootCoversHeap, RootHasCauses, RootListsFlows};
ghost use Rattle.alias_nested.specs.Units.{unit_analysed, InfersUnit};
ghost use Rattle.alias_unit_completeness.specs.Refusals.{IsCaused, BlamesNoPlain};
ghost use Rattle.alias_inference.specs.Inferences.{NestedAreRangedIn};

use alias_hir::error::InferError;
use alias_inner_passes::InnerPasses;
use alias_nested::Inferred;
use alias_rules::check::Checked;
use std::alloc::Global;

/// Infers a unit that is well formed, as `alias_nested::infer_unit` does it, with all that is ensured there.
///
/// Besides: each refusal has its cause in the unit, so that a plain unit is refused only where a counter was at its
/// last value or a function isn't settled, and one that is forward as well for the counter alone; that an Apply is
/// left, or that an operand has no effect, is never answered. What is handed out has a solution of each function once,
/// innermost first, and of the root last, each of which solves the flow over tables that declare what the unit does and
/// the temporaries of the solutions before, where the functions before stand as they are handed out, with the ranges of
/// their parameters, and those that it creates with the context places captured that their summaries capture or mutate;
/// and the functions carry the effects of their solutions and no others. What the clauses `cover`,
/// `heap`, `cause` and `flows` say of the root holds of each nested function too, but for its context places; and no
/// explanation says that a range ends without a cause.
pub fn infer_unit<P: InnerPasses>(
    alloc: Global,
    unit: Checked,
    passes: &mut P,
) -> Result<Inferred, InferError>
    requires { P.keeps_all ≡ true }
    ensures answer { InfersUnit (unit_analysed unit) result }
    ensures fits { IfOk result (λ i. function_fits i.unit.function i.unit.env ≡ true) }
    ensures cover { IfOk result (λ i. IsOkAnd (unit_analysed unit) (λ a. RootIsCovered a.functions i)) }
    ensures heap { IfOk result (λ i. IsOkAnd (unit_analysed unit) (λ a. RootCoversHeap a.functions i)) }
    ensures cause { IfOk result (λ i. IsOkAnd (unit_analysed unit) (λ a. RootHasCauses a.functions i)) }
    ensures flows { IfOk result (λ i. IsOkAnd (unit_analysed unit) (λ a. RootListsFlows a.functions i)) }
    ensures faults { P.faults passes.old ≤ P.faults passes.new }
    ensures failed { IsPassFault result → HasFailed (P.faults passes.old) (P.faults passes.new) (P.at_last passes.new) }
    ensures last { IfErr result (λ e. NamesItsPass (P.failed_last passes.new) e) }
    ensures complete { IfErr result (λ e. is_free e ≡ false → IsCaused unit e) }
    ensures plain { IfErr result (λ e. is_free e ≡ false → BlamesNoPlain unit e) }
    ensures applies { (i : _) (report : _) → result ≢ Err (UnreplacedApply i report) }
    ensures operands { (x : _) → result ≢ Err (EffectsNotInferred x) }
    ensures solved { IfOk result (λ i. IsInferredInOrder unit i) }
    ensures nested { IfOk result (λ i. IsOkAnd (unit_analysed unit) (λ a. NestedAreRangedIn a.functions i)) }
    ensures explained { IfOk result EachHasCause }
{
    let _unit = unit.unit();
    alias_nested::infer_unit(alloc, unit, passes)
}
