//! What is known of a function before its instructions are stepped.
ghost use Rattle.std.specs.Prelude.{◌≡◌, IfOk};
ghost use Rattle.alias_facts.specs.Facts.{function_facts};

use crate::handlers::{Handlers, handler_bindings};
use crate::hoisted::{Hoisted, find_hoisted_context_declarations};
use crate::spreads::{Spreads, find_non_mutated_destructure_spreads};
use alias_hir::env::Environment;
use alias_hir::hir::HirFunction;
use std::alloc::{AllocError, Global};

/// What is known of a function before its instructions are stepped.
pub struct FunctionFacts {
    /// The declarations that it hoists, each with the place that reads it first.
    pub hoisted: Hoisted,
    /// The spreads of patterns that nothing writes.
    pub spreads: Spreads,
    /// What the handlers of its `Try`s bind.
    pub handlers: Handlers,
}

impl Drop for FunctionFacts {
    fn drop(self) {
        let FunctionFacts {
            hoisted: _,
            spreads: _,
            handlers: _,
        } = self;
    }
}

/// What is known of the function. The one error is out of memory.
pub fn function_facts(
    alloc: Global,
    func: &HirFunction,
    env: &Environment,
) -> Result<FunctionFacts, AllocError>
    ensures { IfOk result (λ f. f ≡ function_facts func.now env.now) }
{
    Ok(FunctionFacts {
        hoisted: find_hoisted_context_declarations(alloc, func, env)?,
        spreads: find_non_mutated_destructure_spreads(alloc, func, env)?,
        handlers: handler_bindings(alloc, func)?,
    })
}
