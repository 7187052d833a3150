//! Follows what is given of a unit: its functions are taken in the order of the inference, and each reached block of a
//! function steps once, from what arrives, raised by the lines that are given for it.
#![tactic(auto)]

pub mod function;
mod functions;
pub mod lines;
mod nested;
pub mod unit;

pub use function::FunctionBeyond;
pub use unit::{Followed, follow};
