//! The functions below a function, innermost first.
ghost use Rattle.std.specs.Prelude.{◌≡◌, ◌<◌, true, false, Some, length, slice_get};
ghost use Rattle.alias_rules.specs.function_rules.Rules.{is_among};
ghost use Rattle.alias_rules.specs.Fitting.{function_fits};
ghost use Rattle.alias_rules.specs.Nesting.{created_in};
ghost use Rattle.alias_nesting_laws.specs.Slots.{with_function};
ghost use Rattle.alias_nested.specs.Fitting.{EnvironmentPruned};
ghost use Rattle.alias_nested.specs.Slots.{emptied};
ghost use Rattle.alias_fitting_laws.specs.pruning.Pruning.{FunctionPruned};
ghost use Rattle.alias_follow.specs.Functions.{following, Accounts, Comes, ComesWith};
ghost use Rattle.alias_follow.specs.Units.{taken_followed, slot_followed, below_followed};

use crate::functions::{Handed, follow_nested};
use alias_base::FunctionId;
use alias_certificate::{CertFunction, CheckFault};
use alias_hir::env::Environment;
use alias_hir::hir::HirFunction;
use alias_nested::created::created_functions;
use alias_nested::slots::{put_back, take_out};
use std::alloc::Global;

/// The functions on so many levels below the function, those below each before it. What is handed out of each is noted.
#[cycle(nested)]
pub(crate) fn follow_created(
    alloc: Global,
    given: &[CertFunction],
    levels: u32,
    func: &HirFunction,
    env: &mut Environment,
    handed: &mut Handed,
) -> Result<(), CheckFault>
    requires { function_fits func.now env.old ≡ true }
    ensures run { (fs : _) → Accounts fs handed.old.solved handed.old.beyond → Comes (below_followed given.now levels func.now (following env.old fs)) result env.new handed.new.solved handed.new.beyond }
    ensures kept { EnvironmentPruned env.old env.new }
{
    if levels == 0 {
        return Ok(());
    }
    let created = created_functions(alloc, func)?;
    for id in created.as_slice() {
        follow_slot(alloc, given, levels - 1, *id, env, handed)?;
    }
    Ok(())
}

/// The function of the number, which is taken out of its slot, and put back whatever comes.
#[cycle(nested)]
fn follow_slot(
    alloc: Global,
    given: &[CertFunction],
    levels: u32,
    id: FunctionId,
    env: &mut Environment,
    handed: &mut Handed,
) -> Result<(), CheckFault>
    requires there { id.0 < length env.old.functions }
    requires fits { (f : _) → slice_get env.old.functions id.0 ≡ Some f → function_fits f (with_function id (emptied f.returns) env.old) ≡ true }
    requires other { (f : _) → slice_get env.old.functions id.0 ≡ Some f → is_among (created_in f) id.0 ≡ false }
    ensures run { (fs : _) → Accounts fs handed.old.solved handed.old.beyond → Comes (slot_followed given.now (below_followed given.now levels) id (following env.old fs)) result env.new handed.new.solved handed.new.beyond }
    ensures kept { EnvironmentPruned env.old env.new }
{
    let mut func = take_out(alloc, id, env);
    let answer = follow_taken(alloc, given, levels, id, &mut func, env, handed);
    put_back(id, func, env);
    answer
}

/// The function of the number, which is out of its slot: first those below it.
#[cycle(nested)]
fn follow_taken(
    alloc: Global,
    given: &[CertFunction],
    levels: u32,
    id: FunctionId,
    func: &mut HirFunction,
    env: &mut Environment,
    handed: &mut Handed,
) -> Result<(), CheckFault>
    requires { function_fits func.old env.old ≡ true }
    ensures run { (fs : _) → Accounts fs handed.old.solved handed.old.beyond → ComesWith (taken_followed given.now (below_followed given.now levels) id func.old (following env.old fs)) result func.new env.new handed.new.solved handed.new.beyond }
    ensures kept { FunctionPruned func.old env.old func.new env.new }
{
    follow_created(alloc, given, levels, func, env, handed)?;
    follow_nested(alloc, given, id, func, env, handed)
}
