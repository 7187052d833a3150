//! The functions below a function, innermost first.
ghost use Rattle.std.specs.Prelude.{◌≡◌, ◌<◌, true, false, Some, length, slice_get};
ghost use Rattle.alias_rules.specs.function_rules.Rules.{is_among};
ghost use Rattle.alias_rules.specs.Fitting.{function_fits};
ghost use Rattle.alias_rules.specs.Nesting.{created_in};
ghost use Rattle.alias_nesting_laws.specs.Slots.{with_function};
ghost use Rattle.alias_nested.specs.Fitting.{EnvironmentPruned};
ghost use Rattle.alias_nested.specs.Slots.{emptied};
ghost use Rattle.alias_fitting_laws.specs.pruning.Pruning.{FunctionPruned};
ghost use Rattle.alias_cert.specs.Functions.{checking, Accounts, Comes, ComesWith};
ghost use Rattle.alias_cert.specs.Units.{taken_checked, slot_checked, below_checked};

use crate::functions::check_nested;
use alias_base::{FunctionId, List};
use alias_certificate::{CertFunction, CheckFault};
use alias_effects::Solved;
use alias_hir::env::Environment;
use alias_hir::hir::HirFunction;
use alias_nested::created::created_functions;
use alias_nested::slots::{put_back, take_out};
use std::alloc::Global;

/// The functions on so many levels below the function, those below each before it. What is solved of each is noted.
#[cycle(nested)]
pub(crate) fn check_created(
    alloc: Global,
    functions: &[CertFunction],
    levels: u32,
    func: &HirFunction,
    env: &mut Environment,
    solved: &mut List<Solved>,
) -> Result<(), CheckFault>
    requires { function_fits func.now env.old ≡ true }
    ensures run { (fs : _) → Accounts fs solved.old → Comes (below_checked functions.now levels func.now (checking env.old fs)) result env.new solved.new }
    ensures kept { EnvironmentPruned env.old env.new }
{
    if levels == 0 {
        return Ok(());
    }
    let created = created_functions(alloc, func)?;
    for id in created.as_slice() {
        check_slot(alloc, functions, levels - 1, *id, env, solved)?;
    }
    Ok(())
}

/// The function of the number, which is taken out of its slot, and put back whatever comes.
#[cycle(nested)]
fn check_slot(
    alloc: Global,
    functions: &[CertFunction],
    levels: u32,
    id: FunctionId,
    env: &mut Environment,
    solved: &mut List<Solved>,
) -> Result<(), CheckFault>
    requires there { id.0 < length env.old.functions }
    requires fits { (f : _) → slice_get env.old.functions id.0 ≡ Some f → function_fits f (with_function id (emptied f.returns) env.old) ≡ true }
    requires other { (f : _) → slice_get env.old.functions id.0 ≡ Some f → is_among (created_in f) id.0 ≡ false }
    ensures run { (fs : _) → Accounts fs solved.old → Comes (slot_checked functions.now (below_checked functions.now levels) id (checking env.old fs)) result env.new solved.new }
    ensures kept { EnvironmentPruned env.old env.new }
{
    let mut func = take_out(alloc, id, env);
    let answer = check_taken(alloc, functions, levels, id, &mut func, env, solved);
    put_back(id, func, env);
    answer
}

/// The function of the number, which is out of its slot: first those below it.
#[cycle(nested)]
fn check_taken(
    alloc: Global,
    functions: &[CertFunction],
    levels: u32,
    id: FunctionId,
    func: &mut HirFunction,
    env: &mut Environment,
    solved: &mut List<Solved>,
) -> Result<(), CheckFault>
    requires { function_fits func.old env.old ≡ true }
    ensures run { (fs : _) → Accounts fs solved.old → ComesWith (taken_checked functions.now (below_checked functions.now levels) id func.old (checking env.old fs)) result func.new env.new solved.new }
    ensures kept { FunctionPruned func.old env.old func.new env.new }
{
    check_created(alloc, functions, levels, func, env, solved)?;
    check_nested(alloc, functions, id, func, env, solved)
}
