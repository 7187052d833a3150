//! That of a unit whose functions are all forward what `verify` accepts is what `infer` prints.
#![tactic(auto)]

pub mod laws;
