//! Whether a unit is plain: a flow of the identifiers that aren't sure, and the conditions of each instruction over it.
#![tactic(auto)]

mod conditions;
mod flow;
pub mod laws;
mod making;
mod plain;
mod scan;
pub mod scope;
mod sure;
pub mod unsure;

pub use crate::laws::{PlainFault, Plainness};
pub use plain::plain_unit;
