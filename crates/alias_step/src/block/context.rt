//! What the steps of a function's blocks know.

use alias_facts::FunctionFacts;
use alias_hir::env::Environment;
use alias_hir::hir::HirFunction;

/// What the steps of a function's blocks know: the same for all of them.
#[derive(Clone, Copy)]
pub struct BlockContext<'a> {
    pub env: &'a Environment,
    pub func: &'a HirFunction,
    /// What is known of the function before its instructions are stepped.
    pub facts: &'a FunctionFacts,
    pub is_function_expression: bool,
}
