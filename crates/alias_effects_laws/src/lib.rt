//! What the effects pass records, and what its entry states and temporaries name.
#![tactic(auto)]

pub mod entries;
pub mod naming;
pub mod writes;
