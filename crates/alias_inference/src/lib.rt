//! The inference of a unit and the analysis of nested functions, for a host: the calls of `alias_nested`, with their
//! clauses, and beside these what follows from them of the answers.
#![tactic(auto)]

mod functions;
mod units;

pub use alias_nested::Inferred;
pub use functions::{analyse_functions, analyse_functions_certified};
pub use units::infer_unit;
