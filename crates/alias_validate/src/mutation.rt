//! What is marked.

use alias_base::IdentifierId;
use alias_hir::place::Span;

/// A mutated identifier, with the span of its mutation.
#[derive(Clone, Copy, Debug, PartialEq, Eq)]
pub struct ContextMutation {
    pub identifier: IdentifierId,
    pub span: Option<Span>,
}
