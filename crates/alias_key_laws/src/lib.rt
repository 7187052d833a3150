//! The orders of sites, keys and kinds of mutation are total; equal keys name one site; and no walk is cut short.
#![tactic(auto)]

pub mod keys;
pub mod orders;
pub mod sites;
pub mod walks;
