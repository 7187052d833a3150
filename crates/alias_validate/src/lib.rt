//! The two validations of a function whose effects are inferred: which locals are reassigned after rendering, and
//! which functions that mutate locals are frozen.
#![tactic(auto)]

pub mod freezing;
pub mod instruction_steps;
pub mod marks;
pub mod mutation;
pub mod operand_marks;
pub mod outcome;
mod reassigning;
pub mod reports;

pub use freezing::validate_no_freezing_known_mutable_functions;
pub use reassigning::validate_locals_not_reassigned_after_render;
