//! `lint_lines`: the reports of a unit, with the places in functions that they come from.

mod block_table;
mod frozen;
pub mod lints;
mod pushing;
mod reassigned;
mod summaries;
mod walks;

pub use crate::lines::lints::lint_lines;
