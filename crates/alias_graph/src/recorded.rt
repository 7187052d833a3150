//! What a function's effects record: the events of its alias graph, its mutations and renders, and that graph.

mod block_listing;
pub mod events;
mod id_set;
pub mod listing;
pub mod recording;

pub use crate::recorded::block_listing::list_function;
pub use crate::recorded::events::EventList;
pub use crate::recorded::listing::{Listing, RecordedMutation, RecordedRender};
pub use crate::recorded::recording::{RecordedGraph, recorded_graph};
