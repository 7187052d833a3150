//! The graph of what a function's effects record.
ghost use Rattle.alias_graph.specs.recorded.Recording.{GraphGives};
ghost use Rattle.alias_graph.specs.recorded.BlockListings.{listed};

use crate::recorded::block_listing::list_function;
use crate::recorded::listing::{Listing, RecordedMutation, RecordedRender};
use crate::{AliasGraph, build};
use alias_base::List;
use alias_hir::error::HirError;
use alias_hir::hir::HirFunction;
use std::alloc::Global;

/// The graph of what a function's effects record, with its mutations and renders in stored order.
#[derive(Drop)]
pub struct RecordedGraph {
    pub graph: AliasGraph,
    pub mutations: List<RecordedMutation>,
    pub renders: List<RecordedRender>,
}

/// What the range pass walks over. An `Apply` adds nothing. `TooMany` comes exactly where a position above the
/// last is needed.
pub fn recorded_graph(alloc: Global, func: &HirFunction) -> Result<RecordedGraph, HirError>
    ensures { GraphGives (listed func.now) result }
{
    let listing = list_function(alloc, func)?;
    let graph = build(alloc, listing.events.as_slice())?;
    let Listing {
        mutations,
        renders,
        ..
    } = listing;
    Ok(RecordedGraph {
        graph,
        mutations,
        renders,
    })
}
