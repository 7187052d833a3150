//! The effects of a function's places, and its mutable ranges by default, from what is recorded of its instructions.

mod blocks;
mod instructions;
mod ranges;
mod table;

pub use crate::places::blocks::place_function;
