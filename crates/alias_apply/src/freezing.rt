//! Freezing on: what the function of a frozen site captures is frozen too, and what that leads to.

pub mod context;
mod sites;
mod tasks;
pub mod transitive;

pub use crate::freezing::context::context_of;
pub use crate::freezing::transitive::{freeze_place_transitively, freeze_transitively};
