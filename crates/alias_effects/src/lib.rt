//! The effects pass: what each instruction of a function creates, aliases, freezes and mutates, with entry
//! states that anybody can check.
#![tactic(auto)]

mod infer;
pub mod output;
pub mod pass;
mod recording;
pub mod refused;
pub mod solved;

pub use alias_step::block::{InstructionEffects, TerminalEffects};
pub use infer::{infer_effects_certified, infer_mutation_aliasing_effects, leave};
pub use output::PassEnd;
pub use pass::{EffectsFlow, Recording};
pub use refused::refusal;
pub use solved::{BlockEntry, Solved};
