//! What a pass of the caller may do.
ghost use Rattle.std.specs.Prelude.{ℕ, ◌≡◌, ◌≤◌, Bool, true, Err};
ghost use Rattle.alias_base.specs.failures.Failures.{HasFailed};
ghost use Rattle.alias_hir.specs.declared.error.Pass.{Pass};
ghost use Rattle.alias_hir.specs.declared.error.Pass.TheVariants.{DeadCodeElimination, RewriteInstructionKindsBasedOnReassignment, InferReactiveScopeVariables};
ghost use Rattle.alias_hir.specs.declared.hir.HirFunction.{HirFunction};
ghost use Rattle.alias_inner_passes.specs.Passes.{Keeps};
ghost use Rattle.alias_inner_passes.specs.declared.passes.PassStop.TheVariants.{Failed, Memory};
ghost use Rattle.alias_rules.specs.Fitting.{function_fits};

use alias_hir::env::Environment;
use alias_hir::hir::HirFunction;
use std::alloc::{AllocError, Global};
use thiserror::Error;

/// Why a pass stopped.
#[derive(Clone, Copy, Debug, Error)]
pub enum PassStop {
    /// It failed.
    #[error("the pass failed")]
    Failed,
    /// Out of memory, which can come at any growth.
    #[error("no memory is left")]
    Memory(AllocError),
}

impl From<AllocError> for PassStop {
    ghost from_gives = { λ e s. s ≡ Memory e };

    fn from(e: AllocError) -> PassStop {
        PassStop::Memory(e)
    }
}

/// The passes of the caller. On every answer the inference still takes the function, and what is said of a
/// pass in `Keeps` holds. `Failed` comes only where the count of faults rose, or stands at its last value; and then the
/// last fault is one of that pass, on the function that it leaves.
pub trait InnerPasses {
    /// How often a pass has failed; never falls.
    ghost faults: { Self → ℕ };

    /// Whether the count of faults stands at its last value, so that a further fault cannot raise it.
    ghost at_last: { Self → Bool };

    /// What is known of the last fault: that it was one of this pass, which left this function.
    ghost failed_last: { Self → Pass → HirFunction → Type 0 };

    /// Whether each pass leaves the function and the tables as they are, on every answer.
    ghost keeps_all: { Bool };

    /// Drops instructions whose results nothing reads.
    fn dead_code_elimination(
        &mut self,
        alloc: Global,
        func: &mut HirFunction,
        env: &mut Environment,
    ) -> Result<(), PassStop>
        requires { function_fits func.old env.old ≡ true }
        ensures kept { Keeps func.old env.old func.new env.new }
        ensures same { keeps_all ≡ true → (func.new ≡ func.old) × (env.new ≡ env.old) }
        ensures faults { faults self.old ≤ faults self.new }
        ensures failed { result ≡ Err Failed → HasFailed (faults self.old) (faults self.new) (at_last self.new) }
        ensures last { result ≡ Err Failed → failed_last self.new DeadCodeElimination func.new };

    /// Rewrites the kinds of declarations and stores by what is assigned again.
    fn rewrite_instruction_kinds_based_on_reassignment(
        &mut self,
        alloc: Global,
        func: &mut HirFunction,
        env: &mut Environment,
    ) -> Result<(), PassStop>
        requires { function_fits func.old env.old ≡ true }
        ensures kept { Keeps func.old env.old func.new env.new }
        ensures same { keeps_all ≡ true → (func.new ≡ func.old) × (env.new ≡ env.old) }
        ensures faults { faults self.old ≤ faults self.new }
        ensures failed { result ≡ Err Failed → HasFailed (faults self.old) (faults self.new) (at_last self.new) }
        ensures last { result ≡ Err Failed → failed_last self.new RewriteInstructionKindsBasedOnReassignment func.new };

    /// Finds the scopes of identifiers.
    fn infer_reactive_scope_variables(
        &mut self,
        alloc: Global,
        func: &mut HirFunction,
        env: &mut Environment,
    ) -> Result<(), PassStop>
        requires { function_fits func.old env.old ≡ true }
        ensures kept { Keeps func.old env.old func.new env.new }
        ensures same { keeps_all ≡ true → (func.new ≡ func.old) × (env.new ≡ env.old) }
        ensures faults { faults self.old ≤ faults self.new }
        ensures failed { result ≡ Err Failed → HasFailed (faults self.old) (faults self.new) (at_last self.new) }
        ensures last { result ≡ Err Failed → failed_last self.new InferReactiveScopeVariables func.new };
}
