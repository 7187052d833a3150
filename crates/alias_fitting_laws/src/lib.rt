//! What the inference takes it takes again: whatever is inferred of functions, and where they lose what they create.
#![tactic(auto)]

pub mod bare;
pub mod pruning;
