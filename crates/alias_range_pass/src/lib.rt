//! The range pass: mutable ranges, the effects of places, and a function's summary, from what its instructions record.
#![tactic(auto)]

mod pass;
pub mod places;
mod refusals;
pub mod summary;

pub use pass::run_range_pass;
