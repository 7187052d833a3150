//! What the inference of a whole unit has wherever the effects pass of a plain function asks something of the table.
#![tactic(auto)]

pub mod laws;
