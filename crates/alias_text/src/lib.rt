//! What is inferred of a unit, as text.
#![tactic(auto)]

pub mod certificates;
mod counts;
pub mod detail;
pub mod effects;
pub mod functions;
pub mod quoting;
pub mod ranges;
pub mod refusals;
pub mod reports;
pub mod results;
pub mod summaries;

pub use detail::Detail;
