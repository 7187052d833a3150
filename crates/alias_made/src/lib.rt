//! Units that are made from a seed, for measuring and for trying the inference without a file.
#![tactic(auto)]

pub mod blocks;
pub mod draws;
pub mod instructions;
pub mod laws;
pub mod unit;

pub use unit::made_unit;
