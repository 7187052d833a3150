//! That what `brief` prints reads back.
#![tactic(auto)]

pub mod laws;
