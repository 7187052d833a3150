//! One function, once those below it are checked.
ghost use Rattle.std.specs.Prelude.{◌≡◌, true, MatchResult, Ok, Err, Some};
ghost use Rattle.alias_rules.specs.Fitting.{function_fits};
ghost use Rattle.alias_nested.specs.Fitting.{FunctionKept};
ghost use Rattle.alias_fitting_laws.specs.pruning.Pruning.{FunctionPruned};
ghost use Rattle.alias_cert.specs.Functions.{checking, same_name, said as said_of, effects_checked, nested_checked, root_checked, Accounts, ComesWith};

use crate::entries::entries_known;
use crate::function::check_function_certificate;
use crate::summaries::{check_stored, check_summary, range_fault};
use alias_base::{FunctionId, List};
use alias_certificate::{CertFunction, CheckFault};
use alias_effects::{Solved, leave};
use alias_hir::env::Environment;
use alias_hir::hir::HirFunction;
use alias_nested::finish_function;
use alias_ranges::infer_mutation_aliasing_ranges;
use std::alloc::Global;

/// Whether the names are the same.
pub fn same_name(first: Option<FunctionId>, second: Option<FunctionId>) -> bool
    ensures { result ≡ same_name first second }
{
    match (first, second) {
        (None, None) => true,
        (Some(first), Some(second)) => first.0 == second.0,
        _ => false,
    }
}

/// What the certificate says of the function, which is to stand at the position.
fn said(
    functions: &[CertFunction],
    position: usize,
    function: Option<FunctionId>,
) -> Result<&CertFunction, CheckFault>
    ensures { MatchResult result (λ c. said_of functions.now position function ≡ Ok c.now) (λ e. said_of functions.now position function ≡ Err e) }
{
    match functions.get(position) {
        Some(found) => {
            if same_name(found.function, function) {
                Ok(found)
            } else {
                Err(CheckFault::Functions { position })
            }
        }
        None => Err(CheckFault::Functions { position }),
    }
}

/// The function gets the effects that the steps from what is said of it record; what is solved of it is noted.
fn check_effects(
    alloc: Global,
    said: &CertFunction,
    function: Option<FunctionId>,
    func: &mut HirFunction,
    env: &mut Environment,
    is_function_expression: bool,
    solved: &mut List<Solved>,
) -> Result<(), CheckFault>
    requires { function_fits func.old env.old ≡ true }
    ensures run { (fs : _) → Accounts fs solved.old → ComesWith (effects_checked function is_function_expression func.old (checking env.old fs) said.now) result func.new env.new solved.new }
    ensures kept { FunctionKept func.old env.old func.new env.new }
{
    let end = check_function_certificate(alloc, said, func, env, is_function_expression)?;
    entries_known(end.solved.entries.as_slice());
    let found = leave(alloc, func, env, end)?;
    solved.push(Solved { function, ..found })?;
    Ok(())
}

/// A nested function, which is out of its slot, once those below it are checked.
pub(crate) fn check_nested(
    alloc: Global,
    functions: &[CertFunction],
    id: FunctionId,
    func: &mut HirFunction,
    env: &mut Environment,
    solved: &mut List<Solved>,
) -> Result<(), CheckFault>
    requires { function_fits func.old env.old ≡ true }
    ensures run { (fs : _) → Accounts fs solved.old → ComesWith (nested_checked functions.now id func.old (checking env.old fs)) result func.new env.new solved.new }
    ensures kept { FunctionPruned func.old env.old func.new env.new }
{
    let function = Some(id);
    let claimed = said(functions, solved.len(), function)?;
    check_effects(alloc, claimed, function, func, env, true, solved)?;
    match finish_function(alloc, func, env) {
        Ok(()) => check_stored(alloc, claimed, func),
        Err(error) => Err(range_fault(function, error)),
    }
}

/// The root, once the functions below it are checked.
pub(crate) fn check_root(
    alloc: Global,
    functions: &[CertFunction],
    func: &mut HirFunction,
    env: &mut Environment,
    solved: &mut List<Solved>,
) -> Result<(), CheckFault>
    requires { function_fits func.old env.old ≡ true }
    ensures { (fs : _) → Accounts fs solved.old → ComesWith (root_checked functions.now func.old (checking env.old fs)) result func.new env.new solved.new }
{
    let claimed = said(functions, solved.len(), None)?;
    check_effects(alloc, claimed, None, func, env, false, solved)?;
    match infer_mutation_aliasing_ranges(alloc, func, env, false) {
        Ok(summary) => check_summary(alloc, claimed, summary.as_slice()),
        Err(error) => Err(range_fault(None, error)),
    }
}
