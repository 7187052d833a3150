//! What a visit leaves at a node and at its identifier.
ghost use Rattle.std.specs.Prelude.{◌≡◌, ◌<◌, ℕ, length};
ghost use Rattle.alias_graph.specs.NodeMarks.{later, first_reason, remarked, range_visited};
ghost use Rattle.alias_graph.specs.Flat.{stored_visited};

use crate::types::{Entry, MutationInfo, Node, Origin};
use alias_base::{EvaluationOrder, IdentifierId, List};
use alias_hir::effect::MutationReason;
use alias_hir::env::Identifier;

/// The mark after one more mutation: a mark that is as high stays.
fn remarked(info: MutationInfo, mark: Option<MutationInfo>) -> Option<MutationInfo>
    ensures { result ≡ remarked info mark }
{
    match mark {
        Some(old) if info.kind <= old.kind => Some(old),
        _ => Some(info),
    }
}

/// The greater of the two positions.
fn later(index: u32, last: Option<u32>) -> Option<u32>
    ensures { result ≡ later index last }
{
    match last {
        None => Some(index),
        Some(old) => Some(old.max(index)),
    }
}

/// The reason of before, if there was one.
fn first_reason(
    reason: Option<MutationReason>,
    old: Option<MutationReason>,
) -> Option<MutationReason>
    ensures { result ≡ first_reason reason old }
{
    match old {
        None => reason,
        Some(old) => Some(old),
    }
}

/// Marks a node as mutated at a position.
pub(crate) fn visit_node(node: &mut Node, index: u32, origin: Origin, entry: Entry)
    ensures { node.new ≡ stored_visited index origin entry node.old }
{
    let info = MutationInfo {
        kind: entry.kind,
        span: origin.span,
    };
    node.last_mutated = later(index, node.last_mutated);
    node.mutation_reason = first_reason(origin.reason, node.mutation_reason);
    if entry.transitive {
        node.transitive = remarked(info, node.transitive);
    } else {
        node.local = remarked(info, node.local);
    }
}

/// Raises the range end of an identifier to `end`, where one is given.
pub(crate) fn visit_range(
    identifiers: &mut List<Identifier>,
    id: IdentifierId,
    end: Option<EvaluationOrder>,
)
    requires { id.0 < length identifiers.old }
    ensures { identifiers.new ≡ range_visited end id identifiers.old }
{
    if let Some(end) = end {
        let identifier = identifiers.item_mut(id.0 as usize);
        let raised = identifier.mutable_range.end.0.max(end.0);
        identifier.mutable_range.end = EvaluationOrder(raised);
    }
}
