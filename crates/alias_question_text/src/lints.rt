//! What `lint` and `explain` print.

pub mod explanations;
pub mod lints;

pub use crate::lints::explanations::{push_explanation, push_function_explanation};
pub use crate::lints::lints::push_lints;
