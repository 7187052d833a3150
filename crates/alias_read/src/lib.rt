//! A unit from its JSON.
#![tactic(auto)]

pub mod calls;
pub mod config_kinds;
pub mod elements;
pub mod entries;
pub mod fault;
pub mod functions;
pub mod json;
pub mod names;
pub mod objects;
pub mod operations;
pub mod patterns;
pub mod places;
pub mod shapes;
pub mod signatures;
pub mod stores;
pub mod tables;
pub mod terminal_kinds;
pub mod terminals;
pub mod type_kinds;
pub mod types;
pub mod unit;
pub mod value_kinds;
pub mod values;

pub use alias_json::{TextRule, ValueFault};
pub use fault::TextFault;
pub use unit::read_unit_by_tree;
