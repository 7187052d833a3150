//! The passes of the caller that run between those of the inference.
#![tactic(auto)]

pub mod keeping;
pub mod passes;

pub use keeping::{FailingPasses, KeepAll};
pub use passes::{InnerPasses, PassStop};
