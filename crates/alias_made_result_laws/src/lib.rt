//! Made units are plain and forward, and no counter comes to its last value for one: so their inference has a result.
#![tactic(auto)]

pub mod counts;
pub mod plain;
