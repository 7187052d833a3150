//! That the certificate of an effects pass is accepted, and printed as it is said; and what follows where a certificate is accepted,
//! or isn't.
#![tactic(auto)]

pub mod checked;
pub mod laws;
