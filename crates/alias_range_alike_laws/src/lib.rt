//! That the range pass gives what is alike over functions that carry what is alike.
#![tactic(auto)]

pub mod laws;
