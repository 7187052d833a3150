//! Which ranges a range pass ends, that none ends without a cause, and what holds of those of nested functions.
#![tactic(auto)]

pub mod causes;
pub mod ends;
pub mod handed;
pub mod nested;
