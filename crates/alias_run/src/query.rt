//! What can be asked about a unit.
use alias_base::{FunctionId, IdentifierId};

/// What is asked about a unit that is well formed.
#[derive(Clone, Copy, Debug, PartialEq, Eq)]
pub enum Query {
    /// What is inferred of it.
    Inference,
    /// Whether what follows it in the input is a certificate of it.
    Acceptance,
    /// The text of what is inferred of it, with what a verifier of each line needs. The unit is read twice for it.
    BriefText,
    /// Whether what follows it in the input is exactly the text that follows from what that says itself.
    Verification,
    /// The reports on it, each with the place that it comes from.
    Lints,
    /// Why the range of an identifier ends where it does. `None` is the root.
    Explanation {
        function: Option<FunctionId>,
        identifier: IdentifierId,
    },
    /// Why the range of each identifier of a function ends where it does. `None` is the root.
    FunctionExplanation {
        function: Option<FunctionId>,
    },
    /// Whether it is plain.
    Plainness,
}
