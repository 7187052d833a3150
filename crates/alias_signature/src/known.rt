//! What the signatures of a function's instructions are made from.

use alias_facts::FunctionFacts;
use alias_hir::env::Environment;
use alias_hir::report::ReportId;

/// What the signature of an instruction is made from, besides the instruction.
#[derive(Clone, Copy)]
pub struct Known<'a> {
    pub env: &'a Environment,
    pub facts: &'a FunctionFacts,
    /// The report of an instruction that writes a global variable. `None` for every other kind.
    pub error: Option<ReportId>,
}
