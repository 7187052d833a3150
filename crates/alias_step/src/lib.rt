//! The step of an instruction: its signature's effects in order, calls among them.
#![tactic(auto)]

pub mod block;
pub mod call;
pub mod calls;
pub mod defaults;
mod expansions;
pub mod instruction;
mod operands;

pub use calls::{apply_effect, apply_effects};
pub use instruction::apply_signature;
