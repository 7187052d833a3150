//! The graph of aliases, and the walk of a mutation over it.
//!
//! A mutation marks each node that a legal path leads to, and raises the range ends of their identifiers.
//! Where errors are recorded it adds the reports of the functions that it comes to, and so does a render.
#![tactic(auto)]

mod adjacency;
pub mod events;
pub mod graph;
mod known_links;
pub mod node_map;
mod node_marks;
mod part;
mod pushes;
mod raise;
pub mod recorded;
mod render;
mod reports;
mod scratch;
mod search;
mod seen;
mod seen_table;
pub mod steps;
pub mod types;
mod walk;

pub use events::{GraphEvent, build};
pub use graph::AliasGraph;
pub use reports::push_reports;
pub use steps::Steps;
pub use types::{EdgeKind, Link, LinkList, MutationInfo, MutationKind, Node, NodeValue, RangeWalk};
