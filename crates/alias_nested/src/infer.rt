//! The inference of a unit.
ghost use Rattle.std.specs.Prelude.{◌≡◌, ◌≤◌, true, [], IfOk, IfErr, IsOkAnd, OnOk};
ghost use Rattle.alias_base.specs.failures.Failures.{HasFailed};
ghost use Rattle.alias_rules.specs.Fitting.{function_fits};
ghost use Rattle.alias_validate.specs.Reports.{with_errors};
ghost use Rattle.alias_nested.specs.Analysis.{analysis, Accounts, IsPassFault};
ghost use Rattle.alias_nested.specs.Faults.{IsNamedFault, NamesItsPass};
ghost use Rattle.alias_nested.specs.Roots.{RootIsCovered, RootCoversHeap, RootHasCauses, RootListsFlows, IsRanged};
ghost use Rattle.alias_nested.specs.Units.{root_analysed, all_analysed, unit_analysed, RootLeads, InfersUnit};

use crate::analyse::analyse_kept;
use alias_base::List;
use alias_effects::{Solved, infer_effects_certified};
use alias_hir::effect::AliasingEffects;
use alias_hir::env::{Environment, Unit};
use alias_hir::error::InferError;
use alias_hir::hir::HirFunction;
use alias_hir::report::Report;
use alias_inner_passes::InnerPasses;
use alias_ranges::infer_mutation_aliasing_ranges;
use alias_rules::check::Checked;
use alias_validate::{
    validate_locals_not_reassigned_after_render, validate_no_freezing_known_mutable_functions,
};
use std::alloc::Global;
use std::mem;

/// What is inferred of a unit.
#[derive(Drop)]
pub struct Inferred {
    /// The unit, with what was recorded on its functions, and with ranges and effects of places.
    pub unit: Unit,
    /// One solution a function: those below a function before it, the root last.
    pub solved: List<Solved>,
    /// The summary of the root. Those of nested functions are on the functions.
    pub summary: AliasingEffects,
    /// The reports, in the order in which they were recorded.
    pub reports: List<Report>,
}

/// The root, once the functions below it are analysed.
fn infer_root(
    alloc: Global,
    func: &mut HirFunction,
    env: &mut Environment,
    solved: &mut List<Solved>,
) -> Result<AliasingEffects, InferError>
    requires { function_fits func.old env.old ≡ true }
    ensures run { (fs : _) → Accounts fs solved.old → RootLeads (root_analysed func.old (analysis env.old fs)) result func.new env.new solved.new }
    ensures fits { OnOk result (function_fits func.new (with_errors env.new []) ≡ true) }
    ensures ranged { OnOk result ((fs : _) → IsOkAnd (root_analysed func.old (analysis env.old fs)) IsRanged) }
    ensures no_fault { IsPassFault result → ⊥ }
{
    let found = infer_effects_certified(alloc, func, env, false)?;
    solved.push(found)?;
    let summary = infer_mutation_aliasing_ranges(alloc, func, env, false)?;
    validate_locals_not_reassigned_after_render(alloc, func, env)?;
    validate_no_freezing_known_mutable_functions(alloc, func, env)?;
    Ok(summary)
}

/// All functions of a unit, the root last.
fn infer_all<P: InnerPasses>(
    alloc: Global,
    func: &mut HirFunction,
    env: &mut Environment,
    passes: &mut P,
    solved: &mut List<Solved>,
) -> Result<AliasingEffects, InferError>
    requires fits { function_fits func.old env.old ≡ true }
    requires keeps_all { P.keeps_all ≡ true }
    ensures run { (fs : _) → Accounts fs solved.old → RootLeads (all_analysed func.old (analysis env.old fs)) result func.new env.new solved.new }
    ensures fits { OnOk result (function_fits func.new (with_errors env.new []) ≡ true) }
    ensures ranged { OnOk result ((fs : _) → Accounts fs solved.old → IsOkAnd (all_analysed func.old (analysis env.old fs)) IsRanged) }
    ensures faults { P.faults passes.old ≤ P.faults passes.new }
    ensures failed { IsPassFault result → HasFailed (P.faults passes.old) (P.faults passes.new) (P.at_last passes.new) }
    ensures last { IfErr result (λ e. IsNamedFault (P.failed_last passes.new) env.new e) }
{
    analyse_kept(alloc, func, env, passes, solved)?;
    infer_root(alloc, func, env, solved)
}

/// The reports, which are taken out of the environment.
fn take_reports(alloc: Global, env: &mut Environment) -> List<Report>
    ensures reports { result ≡ env.old.errors }
    ensures taken { env.new ≡ with_errors env.old [] }
{
    mem::replace(&mut env.errors, List::new(alloc))
}

/// Infers a unit that is well formed: its nested functions, innermost first, and then its root. The passes of the
/// caller keep everything, as `KeepAll` and `FailingPasses` do. The unit is dropped on `Err`.
///
/// Nested functions are analysed as `analyse_functions_certified` does it, with no logger. On the root the effects pass, the range
/// pass and both validations run. docs/MODEL.md has the rules.
///
/// On Ok `check_function` holds of the root that is handed out. Each identifier that a legal path of the alias graph joins to a
/// mutation that the root records has its range end past it; so does, along any path of the root's blocks, each one that reaches
/// a written object, where the root is forward and makes each place once. There is no range end that the root's range pass set
/// without such a mutation or an instruction that assigns or stores the identifier, and the summary ends with the root's flows.
///
/// A refusal is the first in this order, and names its function: those of `infer_effects_certified`, or `TooMany`, where no
/// number is left for a position of the alias graph. `PassFault` comes only where the count of the passes' faults
/// rose, or stands at its last value, and names the pass that failed last; `Memory` is out of memory, which can come at any time.
pub fn infer_unit<P: InnerPasses>(
    alloc: Global,
    unit: Checked,
    passes: &mut P,
) -> Result<Inferred, InferError>
    requires { P.keeps_all ≡ true }
    ensures answer { InfersUnit (unit_analysed unit) result }
    ensures fits { IfOk result (λ i. function_fits i.unit.function i.unit.env ≡ true) }
    ensures cover { IfOk result (λ i. IsOkAnd (unit_analysed unit) (λ a. RootIsCovered a.functions i)) }
    ensures heap { IfOk result (λ i. IsOkAnd (unit_analysed unit) (λ a. RootCoversHeap a.functions i)) }
    ensures cause { IfOk result (λ i. IsOkAnd (unit_analysed unit) (λ a. RootHasCauses a.functions i)) }
    ensures flows { IfOk result (λ i. IsOkAnd (unit_analysed unit) (λ a. RootListsFlows a.functions i)) }
    ensures faults { P.faults passes.old ≤ P.faults passes.new }
    ensures failed { IsPassFault result → HasFailed (P.faults passes.old) (P.faults passes.new) (P.at_last passes.new) }
    ensures last { IfErr result (λ e. NamesItsPass (P.failed_last passes.new) e) }
{
    let Unit {
        mut function,
        mut env,
    } = unit.into_unit();
    let mut solved = List::new(alloc);
    let summary = infer_all(alloc, &mut function, &mut env, passes, &mut solved)?;
    let reports = take_reports(alloc, &mut env);
    Ok(Inferred {
        unit: Unit { function, env },
        solved,
        summary,
        reports,
    })
}
