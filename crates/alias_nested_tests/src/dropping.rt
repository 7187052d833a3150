//! A pass that changes functions: it drops the last instruction that the first block lists.
ghost use Rattle.std.specs.Prelude.{◌≡◌, [], true, false, IfOk};
ghost use Rattle.alias_inner_passes.specs.Passes.{Keeps};
ghost use Rattle.alias_rules.specs.Fitting.{function_fits};
ghost use Rattle.alias_nested_tests.specs.Dropping.{with_first, first_or, IsFront};

use alias_base::{InstructionId, List};
use alias_hir::env::Environment;
use alias_hir::hir::HirFunction;
use alias_inner_passes::{InnerPasses, PassStop};
use alias_rules::function::check_function;
use std::alloc::{AllocError, Global};
use std::mem;

/// The first pass drops the last instruction that the first block of a function lists; the two others do nothing.
#[derive(Clone, Copy)]
pub(crate) struct DropLast;

/// All that the first block of the function lists but the last.
#[tactic(auto, using(crate::specs::DroppingLaws::front_of, crate::specs::DroppingLaws::front_none))]
fn all_but_last(alloc: Global, func: &HirFunction) -> Result<List<InstructionId>, AllocError>
    ensures { IfOk result (λ listed. IsFront listed (first_or [] func.now.body.blocks)) }
{
    match func.body.blocks.get_index(0) {
        Some((_, block)) => {
            let mut listed = List::from_slice(alloc, block.instructions.as_slice())?;
            listed.pop();
            Ok(listed)
        }
        None => Ok(List::new(alloc)),
    }
}

/// Lets the first block list these instructions, and gives what it listed; gives these back where there is no block.
fn listing(func: &mut HirFunction, listed: List<InstructionId>) -> List<InstructionId>
    ensures func { func.new ≡ with_first listed func.old }
    ensures before { result ≡ first_or listed func.old.body.blocks }
{
    match func.body.blocks.get_index_mut(0) {
        Some(block) => mem::replace(&mut block.instructions, listed),
        None => listed,
    }
}

/// Drops the last instruction of the first block, where the inference takes the function without it.
fn drop_last(alloc: Global, func: &mut HirFunction, env: &Environment) -> Result<(), AllocError>
    requires { function_fits func.old env.now ≡ true }
    ensures { Keeps func.old env.now func.new env.now }
{
    let listed = all_but_last(alloc, func)?;
    let before = listing(func, listed);
    match check_function(alloc, func, env) {
        Ok(true) => Ok(()),
        Ok(false) => {
            listing(func, before);
            Ok(())
        }
        Err(error) => {
            listing(func, before);
            Err(error)
        }
    }
}

impl InnerPasses for DropLast {
    ghost faults = { λ _. 0 };

    ghost at_last = { λ _. false };

    ghost failed_last = { λ _ _ _. ⊥ };

    ghost keeps_all = { false };

    fn dead_code_elimination(
        &mut self,
        alloc: Global,
        func: &mut HirFunction,
        env: &mut Environment,
    ) -> Result<(), PassStop> {
        drop_last(alloc, func, env)?;
        Ok(())
    }

    fn rewrite_instruction_kinds_based_on_reassignment(
        &mut self,
        _alloc: Global,
        _func: &mut HirFunction,
        _env: &mut Environment,
    ) -> Result<(), PassStop> {
        Ok(())
    }

    fn infer_reactive_scope_variables(
        &mut self,
        _alloc: Global,
        _func: &mut HirFunction,
        _env: &mut Environment,
    ) -> Result<(), PassStop> {
        Ok(())
    }
}
