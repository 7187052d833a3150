//! What a walk comes to.

use crate::marks::Marks;
use alias_base::List;
use alias_hir::place::Place;
use alias_hir::report::Report;

/// What a walk comes to at a step: it goes on, or it ends with a place or with none.
#[derive(Clone, Copy, Debug, PartialEq, Eq)]
pub enum WalkOutcome {
    Continue,
    End(Option<Place>),
}

/// What the walks of all functions share: the context variables, and the reports so far.
#[derive(Drop)]
pub struct Shared {
    pub context_variables: Marks<()>,
    pub reports: List<Report>,
}
