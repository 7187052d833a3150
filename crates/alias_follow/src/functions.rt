//! One function of a unit, once those below it are followed.
ghost use Rattle.std.specs.Prelude.{◌≡◌, ◌++◌, ◌∷◌, [], true, OnOk};
ghost use Rattle.alias_hir.specs.Errors.{is_memory as is_free};
ghost use Rattle.alias_effects.specs.Faults.{GivesInto};
ghost use Rattle.alias_rules.specs.Fitting.{function_fits};
ghost use Rattle.alias_nested.specs.Fitting.{FunctionKept};
ghost use Rattle.alias_fitting_laws.specs.pruning.Pruning.{FunctionPruned};
ghost use Rattle.alias_nested.specs.Units.{validated};
ghost use Rattle.alias_follow.specs.Functions.{following, effects_followed, nested_followed, root_ended, root_followed, Accounts, ComesWith, RootEnds, RootComes};

use crate::function::{FunctionBeyond, FunctionEnd, follow_function, given_of};
use alias_base::{FunctionId, List};
use alias_cert::summaries::range_fault;
use alias_certificate::{CertFunction, CheckFault};
use alias_effects::{Solved, leave};
use alias_hir::effect::AliasingEffects;
use alias_hir::env::Environment;
use alias_hir::error::InferError;
use alias_hir::hir::HirFunction;
use alias_nested::finish_function;
use alias_ranges::infer_mutation_aliasing_ranges;
use alias_validate::{
    validate_locals_not_reassigned_after_render, validate_no_freezing_known_mutable_functions,
};
use std::alloc::{AllocError, Global};

/// What was handed out of the functions so far.
#[derive(Drop)]
pub(crate) struct Handed {
    pub(crate) solved: List<Solved>,
    pub(crate) beyond: List<FunctionBeyond>,
}

/// Notes what is handed out of a function.
fn note(handed: &mut Handed, solved: Solved, beyond: FunctionBeyond) -> Result<(), AllocError>
    ensures solved { OnOk result (handed.new.solved ≡ handed.old.solved ++ solved ∷ []) }
    ensures beyond { OnOk result (handed.new.beyond ≡ handed.old.beyond ++ beyond ∷ []) }
{
    handed.solved.push(solved)?;
    handed.beyond.push(beyond)?;
    Ok(())
}

/// The function gets the effects that its steps record; what is handed out of it is noted.
fn follow_effects(
    alloc: Global,
    given: &[CertFunction],
    function: Option<FunctionId>,
    func: &mut HirFunction,
    env: &mut Environment,
    is_function_expression: bool,
    handed: &mut Handed,
) -> Result<(), CheckFault>
    requires { function_fits func.old env.old ≡ true }
    ensures run { (fs : _) → Accounts fs handed.old.solved handed.old.beyond → ComesWith (effects_followed given.now function is_function_expression func.old (following env.old fs)) result func.new env.new handed.new.solved handed.new.beyond }
    ensures kept { FunctionKept func.old env.old func.new env.new }
{
    let said = given_of(given, function);
    let followed = follow_function(alloc, said, function, func, env, is_function_expression)?;
    let FunctionEnd { end, beyond } = followed;
    let found = leave(alloc, func, env, end)?;
    note(handed, Solved { function, ..found }, beyond)?;
    Ok(())
}

/// A nested function, which is out of its slot, once those below it are followed.
pub(crate) fn follow_nested(
    alloc: Global,
    given: &[CertFunction],
    id: FunctionId,
    func: &mut HirFunction,
    env: &mut Environment,
    handed: &mut Handed,
) -> Result<(), CheckFault>
    requires { function_fits func.old env.old ≡ true }
    ensures run { (fs : _) → Accounts fs handed.old.solved handed.old.beyond → ComesWith (nested_followed given.now id func.old (following env.old fs)) result func.new env.new handed.new.solved handed.new.beyond }
    ensures kept { FunctionPruned func.old env.old func.new env.new }
{
    let function = Some(id);
    follow_effects(alloc, given, function, func, env, true, handed)?;
    match finish_function(alloc, func, env) {
        Ok(()) => Ok(()),
        Err(error) => Err(range_fault(function, error)),
    }
}

/// Both validations of the root.
fn validate(alloc: Global, func: &HirFunction, env: &mut Environment) -> Result<(), InferError>
    ensures { GivesInto is_free (validated func.now env.old) result env.new }
{
    validate_locals_not_reassigned_after_render(alloc, func, env)?;
    validate_no_freezing_known_mutable_functions(alloc, func, env)?;
    Ok(())
}

/// The range pass and both validations of the root that carries its effects.
fn finish_root(
    alloc: Global,
    func: &mut HirFunction,
    env: &mut Environment,
) -> Result<AliasingEffects, InferError>
    requires { function_fits func.old env.old ≡ true }
    ensures { RootEnds (root_ended func.old env.old) result func.new env.new }
{
    let summary = infer_mutation_aliasing_ranges(alloc, func, env, false)?;
    validate(alloc, func, env)?;
    Ok(summary)
}

/// The root, once the functions below it are followed: the effects, the range pass and both validations.
pub(crate) fn follow_root(
    alloc: Global,
    given: &[CertFunction],
    func: &mut HirFunction,
    env: &mut Environment,
    handed: &mut Handed,
) -> Result<AliasingEffects, CheckFault>
    requires { function_fits func.old env.old ≡ true }
    ensures { (fs : _) → Accounts fs handed.old.solved handed.old.beyond → RootComes (root_followed given.now func.old (following env.old fs)) result func.new env.new handed.new.solved handed.new.beyond }
{
    follow_effects(alloc, given, None, func, env, false, handed)?;
    match finish_root(alloc, func, env) {
        Ok(summary) => Ok(summary),
        Err(error) => Err(range_fault(None, error)),
    }
}
