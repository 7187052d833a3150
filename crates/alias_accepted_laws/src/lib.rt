//! That the certificate of an inference is accepted.
#![tactic(auto)]

pub mod laws;
