//! Passes that keep everything.
ghost use Rattle.std.specs.Prelude.{ℕ, ◌≡◌, ◌≤◌, Bool, true, false, Some, Ok, Err, if◌then◌else◌, is_err};
ghost use Rattle.alias_base.specs.failures.Failures.{fails_now};
ghost use Rattle.alias_hir.specs.declared.error.Pass.TheVariants.{DeadCodeElimination, RewriteInstructionKindsBasedOnReassignment, InferReactiveScopeVariables};
ghost use Rattle.alias_inner_passes.specs.Passes.{Keeps};
ghost use Rattle.alias_inner_passes.specs.Planned.{after_call};
ghost use Rattle.alias_rules.specs.Fitting.{function_fits};
ghost use Rattle.alias_inner_passes.specs.declared.passes.PassStop.TheVariants.{Failed};

use crate::passes::{InnerPasses, PassStop};
use alias_base::List;
use alias_base::failures::PlannedFailures;
use alias_hir::env::Environment;
use alias_hir::error::Pass;
use alias_hir::hir::HirFunction;
use std::alloc::Global;
use std::marker::Model;

/// Passes that do nothing and never fail.
#[derive(Clone, Copy, Debug)]
pub struct KeepAll;

/// Passes that do nothing, some calls of which fail, as planned, and the pass whose call failed last.
#[derive(Drop)]
pub struct FailingPasses {
    calls: PlannedFailures,
    last: Option<Pass>,
}

impl Model for FailingPasses {
    ghost use Rattle.alias_inner_passes.specs.Planned.{Planned};

    ghost Value = { Planned };

    ghost view = { λ p. record { calls = p.calls; last = p.last } };
}

impl FailingPasses {
    ghost use Rattle.alias_inner_passes.specs.Planned.{none_called};

    /// Passes whose calls of these numbers fail, where the first call has number 1, of whichever pass it is.
    /// Takes no memory.
    pub fn new(calls: List<u64>) -> FailingPasses
        ensures { result ≡ none_called calls }
    {
        FailingPasses {
            calls: PlannedFailures::new(calls),
            last: None,
        }
    }

    /// Counts a call of the pass, and fails where it is planned to.
    fn next_call(&mut self, pass: Pass) -> Result<(), PassStop>
        ensures stop { result ≡ (if fails_now self.old.calls then Err Failed else Ok tt) }
        ensures counted { self.new ≡ after_call pass self.old }
        ensures last { result ≡ Err Failed → self.new.last ≡ Some pass }
    {
        if self.calls.fails_now() {
            self.last = Some(pass);
            Err(PassStop::Failed)
        } else {
            Ok(())
        }
    }
}

impl InnerPasses for KeepAll {
    ghost faults = { λ _. 0 };

    ghost at_last = { λ _. false };

    ghost failed_last = { λ _ _ _. ⊥ };

    ghost keeps_all = { true };

    fn dead_code_elimination(
        &mut self,
        _alloc: Global,
        _func: &mut HirFunction,
        _env: &mut Environment,
    ) -> Result<(), PassStop>
        requires { function_fits _func.old _env.old ≡ true }
        ensures ok { result ≡ Ok tt }
        ensures kept { Keeps _func.old _env.old _func.new _env.new }
        ensures same { (_func.new ≡ _func.old) × (_env.new ≡ _env.old) }
    {
        Ok(())
    }

    fn rewrite_instruction_kinds_based_on_reassignment(
        &mut self,
        _alloc: Global,
        _func: &mut HirFunction,
        _env: &mut Environment,
    ) -> Result<(), PassStop>
        requires { function_fits _func.old _env.old ≡ true }
        ensures ok { result ≡ Ok tt }
        ensures kept { Keeps _func.old _env.old _func.new _env.new }
        ensures same { (_func.new ≡ _func.old) × (_env.new ≡ _env.old) }
    {
        Ok(())
    }

    fn infer_reactive_scope_variables(
        &mut self,
        _alloc: Global,
        _func: &mut HirFunction,
        _env: &mut Environment,
    ) -> Result<(), PassStop>
        requires { function_fits _func.old _env.old ≡ true }
        ensures ok { result ≡ Ok tt }
        ensures kept { Keeps _func.old _env.old _func.new _env.new }
        ensures same { (_func.new ≡ _func.old) × (_env.new ≡ _env.old) }
    {
        Ok(())
    }
}

impl InnerPasses for FailingPasses {
    ghost faults = { λ p. p.calls.faults };

    ghost at_last = { λ _. false };

    ghost failed_last = { λ p pass _. p.last ≡ Some pass };

    ghost keeps_all = { true };

    fn dead_code_elimination(
        &mut self,
        _alloc: Global,
        _func: &mut HirFunction,
        _env: &mut Environment,
    ) -> Result<(), PassStop>
        requires { function_fits _func.old _env.old ≡ true }
        ensures stop { result ≡ (if fails_now self.old.calls then Err Failed else Ok tt) }
        ensures counted { self.new ≡ after_call DeadCodeElimination self.old }
        ensures last { result ≡ Err Failed → self.new.last ≡ Some DeadCodeElimination }
        ensures kept { Keeps _func.old _env.old _func.new _env.new }
        ensures same { (_func.new ≡ _func.old) × (_env.new ≡ _env.old) }
    {
        self.next_call(Pass::DeadCodeElimination)
    }

    fn rewrite_instruction_kinds_based_on_reassignment(
        &mut self,
        _alloc: Global,
        _func: &mut HirFunction,
        _env: &mut Environment,
    ) -> Result<(), PassStop>
        requires { function_fits _func.old _env.old ≡ true }
        ensures stop { result ≡ (if fails_now self.old.calls then Err Failed else Ok tt) }
        ensures counted { self.new ≡ after_call RewriteInstructionKindsBasedOnReassignment self.old }
        ensures last { result ≡ Err Failed → self.new.last ≡ Some RewriteInstructionKindsBasedOnReassignment }
        ensures kept { Keeps _func.old _env.old _func.new _env.new }
        ensures same { (_func.new ≡ _func.old) × (_env.new ≡ _env.old) }
    {
        self.next_call(Pass::RewriteInstructionKindsBasedOnReassignment)
    }

    fn infer_reactive_scope_variables(
        &mut self,
        _alloc: Global,
        _func: &mut HirFunction,
        _env: &mut Environment,
    ) -> Result<(), PassStop>
        requires { function_fits _func.old _env.old ≡ true }
        ensures stop { result ≡ (if fails_now self.old.calls then Err Failed else Ok tt) }
        ensures counted { self.new ≡ after_call InferReactiveScopeVariables self.old }
        ensures last { result ≡ Err Failed → self.new.last ≡ Some InferReactiveScopeVariables }
        ensures kept { Keeps _func.old _env.old _func.new _env.new }
        ensures same { (_func.new ≡ _func.old) × (_env.new ≡ _env.old) }
    {
        self.next_call(Pass::InferReactiveScopeVariables)
    }
}
