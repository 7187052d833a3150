//! The walks of a function's mutations and renders over its alias graph, and the summary that callers see of it.

mod flows;
mod marked_places;
pub mod start;
mod summary;
mod walking;

pub use crate::summary::marked_places::capture_function;
pub use crate::summary::start::WalkStart;
pub use crate::summary::summary::{summarize, summarized_ids, tracked};
pub use crate::summary::walking::walk_listing;
