//! What holds of what is inferred of a unit: of its lints, its explanations, and its solutions.
#![tactic(auto)]

pub mod handed;
pub mod inferred;
pub mod lints;
