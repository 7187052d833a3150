//! That what `brief` prints is accepted by `verify`.
#![tactic(auto)]

pub mod laws;
mod states;
