//! What `lint`, `explain` and `plain` print.
#![tactic(auto)]

pub mod lints;
pub mod plain;
