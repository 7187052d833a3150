//! What a run answers.
use alias_base::{List, Text};
use alias_cert::Accepted;
use alias_explain::{Explanation, IdentifierExplanation};
use alias_lint::Lint;
use alias_nested::Inferred;
use alias_plain::laws::Plainness;

/// What a run answers, where it has an answer.
#[derive(Drop)]
pub enum Answer {
    /// Nothing: the run was refused or stopped, or the program told of itself.
    Nothing,
    /// What was inferred of a unit.
    Inferred(Inferred),
    /// The unit whose certificate is accepted, with what is solved of its functions.
    Accepted(Accepted),
    /// The text of what was inferred of a unit, with what a verifier of each line needs.
    Briefed(Text),
    /// How many functions a unit has, where the text is exactly the one that follows for it.
    Verified(usize),
    /// The reports on a unit, each with the place that it comes from.
    Linted(List<Lint>),
    /// Why a range ends where it does.
    Explained(Explanation),
    /// Why the range of each identifier of a function ends where it does.
    FunctionExplained(List<IdentifierExplanation>),
    /// Whether a unit is plain.
    Decided(Plainness),
}
