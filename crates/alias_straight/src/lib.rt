//! Units that are read straight off the tokens, where they are written in the usual way.
#![tactic(auto)]

pub mod calls;
pub mod elements;
pub mod entries;
pub mod expressions;
pub mod fault;
pub mod functions;
pub mod members;
pub mod names;
pub mod operations;
pub mod patterns;
pub mod places;
pub mod stores;
pub mod tables;
pub mod terminals;
pub mod tokens;
pub mod unit;
pub mod values;

pub use fault::TakeFault;
pub use tokens::FromTokens;
pub use unit::read_unit;
