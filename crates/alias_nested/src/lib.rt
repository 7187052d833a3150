//! The whole chain: the functions of a unit, innermost first, and then its root.
#![tactic(auto)]

pub mod analyse;
mod annotating;
pub mod created;
pub mod errors;
pub mod finish;
mod function;
pub mod infer;
pub mod slots;

pub use analyse::{analyse_functions, analyse_functions_certified};
pub use finish::finish_function;
pub use infer::{Inferred, infer_unit};
