//! Checks whether a certificate is one of a unit: whether its entry states solve each function, with the effects, the
//! temporaries and the summaries that it tells.
#![tactic(auto)]

pub mod check;
pub mod effects;
pub mod entries;
pub mod function;
pub mod functions;
mod nested;
pub mod summaries;

pub use check::{Accepted, check_certificate};
