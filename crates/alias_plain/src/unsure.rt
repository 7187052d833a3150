//! Sets of identifiers that aren't sure, as a lattice: shared where they are alike, and dense where they are not.

pub mod set;
pub mod ways;
pub mod word;

pub use crate::unsure::set::UnsureSet;
pub use crate::unsure::ways::UnsureWays;
