//! What holds of a nested function that is out of its slot, as the passes take it.
#![tactic(auto)]

pub mod laws;
