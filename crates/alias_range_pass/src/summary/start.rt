//! Where walks over the alias graph begin.
ghost use Rattle.std.specs.Prelude.{◌≡◌, ◌≢◌};
ghost use Rattle.alias_graph.specs.recorded.Fitting.{OrderHasNext};
ghost use Rattle.alias_range_pass.specs.summary.Sweeping.{mark_start, range_walk};
ghost use Rattle.alias_range_pass.specs.summary.Flows.{flow_start};

use alias_base::EvaluationOrder;
use alias_graph::recorded::RecordedMutation;
use alias_graph::{MutationKind, RangeWalk};
use alias_hir::effect::MutationReason;
use alias_hir::place::Place;

/// Where a walk over the alias graph begins, and what it brings to the nodes that it comes to.
#[derive(Clone, Copy, Debug, PartialEq, Eq)]
pub struct WalkStart {
    pub index: u32,
    pub place: Place,
    pub transitive: bool,
    pub kind: MutationKind,
    pub reason: Option<MutationReason>,
    /// Where the ranges of what is reached end at least.
    pub end: Option<EvaluationOrder>,
}

/// The walk of a mutation that leaves marks. The ranges of what it reaches are raised already.
pub(crate) fn mark_start(mutation: &RecordedMutation) -> WalkStart
    ensures { result ≡ mark_start mutation.now }
{
    WalkStart {
        index: mutation.index,
        place: mutation.place,
        transitive: mutation.transitive,
        kind: mutation.kind,
        reason: mutation.reason,
        end: None,
    }
}

/// What a mutation raises: the ranges of what it reaches end past the instruction.
pub(crate) fn range_walk(mutation: &RecordedMutation) -> RangeWalk
    requires { OrderHasNext mutation.now.order }
    ensures { result ≡ range_walk mutation.now }
{
    RangeWalk {
        index: mutation.index,
        start: mutation.place.identifier,
        transitive: mutation.transitive,
        kind: mutation.kind,
        end: EvaluationOrder(mutation.order.0 + 1),
    }
}

/// The walk that is simulated from a tracked place. No range changes.
pub(crate) fn flow_start(index: u32, into: &Place) -> WalkStart
    ensures { result ≡ flow_start index into.now }
{
    WalkStart {
        index,
        place: *into,
        transitive: true,
        kind: MutationKind::Conditional,
        reason: None,
        end: None,
    }
}
