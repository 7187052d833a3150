//! Brief certificates: the text that follows for a unit, and where a text differs from it first.
#![tactic(auto)]

pub mod briefs;
pub mod calls;
pub mod difference;
pub mod saying;

pub use calls::{VerifyFault, brief, text_of};
