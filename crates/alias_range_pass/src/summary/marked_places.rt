//! The marks of context places and parameters, as effects, and as effects of their places.
ghost use Rattle.std.specs.Prelude.{◌≡◌, ◌++◌, ◌∷◌, [], map, OnOk};
ghost use Rattle.std.specs.List.{flat_map};
ghost use Rattle.alias_range_pass.specs.summary.MarkedPlaces.{at_mark, local_effect, transitive_effect, mark_effects, marks_of_all, is_marked, captured, param_captured, function_captured};

use alias_base::IdentifierId;
use alias_graph::{AliasGraph, MutationInfo, MutationKind};
use alias_hir::effect::{AliasingEffect, AliasingEffects, MutationReason};
use alias_hir::hir::{HirFunction, ParamPattern};
use alias_hir::place::{Effect, Place};
use std::alloc::AllocError;

fn local_effect(kind: MutationKind, reason: Option<MutationReason>, place: Place) -> AliasingEffect
    ensures { result ≡ local_effect kind reason place }
{
    match kind {
        MutationKind::Conditional => AliasingEffect::MutateConditionally { value: place },
        MutationKind::Definite => AliasingEffect::Mutate {
            value: place,
            reason,
        },
    }
}

fn transitive_effect(kind: MutationKind, place: Place) -> AliasingEffect
    ensures { result ≡ transitive_effect kind place }
{
    match kind {
        MutationKind::Conditional => AliasingEffect::MutateTransitiveConditionally { value: place },
        MutationKind::Definite => AliasingEffect::MutateTransitive { value: place },
    }
}

/// The place, with the span of a mark.
fn at_mark(info: MutationInfo, place: &Place) -> Place
    ensures { result ≡ at_mark info place.now }
{
    Place {
        identifier: place.identifier,
        effect: place.effect,
        reactive: place.reactive,
        span: info.span,
    }
}

/// Lists the local mark of a place, and then the transitive one.
fn push_marks(
    graph: &AliasGraph,
    place: &Place,
    summary: &mut AliasingEffects,
) -> Result<(), AllocError>
    ensures { OnOk result (summary.new ≡ summary.old ++ mark_effects graph.now place.now) }
{
    let Some(node) = graph.node(place.identifier) else {
        return Ok(());
    };
    if let Some(info) = node.local {
        summary.push(local_effect(info.kind, node.mutation_reason, at_mark(info, place)))?;
    }
    if let Some(info) = node.transitive {
        summary.push(transitive_effect(info.kind, at_mark(info, place)))?;
    }
    Ok(())
}

/// Lists the marks of places, in order.
pub(crate) fn push_all_marks(
    graph: &AliasGraph,
    places: &[Place],
    summary: &mut AliasingEffects,
) -> Result<(), AllocError>
    ensures { OnOk result (summary.new ≡ summary.old ++ marks_of_all graph.now places.now) }
{
    for place in places {
        push_marks(graph, place, summary)?;
    }
    Ok(())
}

fn is_marked(graph: &AliasGraph, id: IdentifierId) -> bool
    ensures { result ≡ is_marked graph.now id }
{
    match graph.node(id) {
        None => false,
        Some(node) => node.local.is_some() || node.transitive.is_some(),
    }
}

/// A marked place gets Capture.
fn capture(graph: &AliasGraph, place: &mut Place)
    ensures { place.new ≡ captured graph.now place.old }
{
    if is_marked(graph, place.identifier) {
        place.effect = Effect::Capture;
    }
}

fn capture_param(graph: &AliasGraph, param: &mut ParamPattern)
    ensures { param.new ≡ param_captured graph.now param.old }
{
    match param {
        ParamPattern::Place(place) => capture(graph, place),
        ParamPattern::Spread(spread) => capture(graph, &mut spread.place),
    }
}

fn capture_params(graph: &AliasGraph, params: &mut [ParamPattern])
    ensures { params.new ≡ map (param_captured graph.now) params.old }
{
    for param in params.iter_mut() {
        capture_param(graph, param);
    }
}

fn capture_places(graph: &AliasGraph, places: &mut [Place])
    ensures { places.new ≡ map (captured graph.now) places.old }
{
    for place in places.iter_mut() {
        capture(graph, place);
    }
}

/// Marked parameters and context places get Capture.
pub fn capture_function(graph: &AliasGraph, func: &mut HirFunction)
    ensures { func.new ≡ function_captured graph.now func.old }
{
    capture_params(graph, func.params.as_mut_slice());
    capture_places(graph, func.context.as_mut_slice());
}
