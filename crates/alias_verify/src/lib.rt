//! Whether a text is one that follows for a unit from what it says.
#![tactic(auto)]

pub mod calls;
pub mod forward;

pub use calls::verify;
