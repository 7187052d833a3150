//! The signature of each instruction: the effects that it has before the state is looked at. A module for each
//! family of kinds, and one that chooses among them.
#![tactic(auto)]

mod arrays;
mod calls;
mod contexts;
mod creating;
mod functions;
mod globals;
mod iterators;
mod jsx;
mod known;
mod literals;
mod loads;
mod memoization;
mod objects;
mod patterns;
mod signatures;
mod stores;

pub use globals::{globals_report, instruction_report};
pub use known::Known;
pub use signatures::{compute_signature_for_instruction, signature_of};
