//! What the inference of a unit and the analysis of its functions answer: in which order, and which refusals never.
#![tactic(auto)]

pub mod answers;
pub mod applies;
pub mod order;
pub mod refusals;
