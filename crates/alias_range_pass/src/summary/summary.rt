//! The summary of a function: what callers see of its effects.
ghost use Rattle.std.specs.Prelude.{◌≡◌, ◌+◌, ◌++◌, ◌∷◌, [], ◌≤◌, length, map, IfOk, OnOk, OnErr};
ghost use Rattle.alias_hir.specs.Parts.{param_place};
ghost use Rattle.alias_graph.specs.Nodes.{Nodes, Within};
ghost use Rattle.alias_graph.specs.Reach.{AllMutatedBefore};
ghost use Rattle.alias_range_pass.specs.summary.MarkedPlaces.{marks_of_all, function_captured, IsSameOrCaptured};
ghost use Rattle.alias_range_pass.specs.summary.Flows.{flows_listed};
ghost use Rattle.alias_range_pass.specs.summary.Summaries.{context_and_params, is_jsx_at, returned_kind, returns_created, tracked, summarized};
ghost use Rattle.alias_range_pass.specs.summary.Laws.{SameLinks, EndsWithFlows};
ghost use Rattle.alias_range_pass.specs.summary.Sweeping.{identifier_of, summarized_ids};

use crate::summary::flows::push_flows;
use crate::summary::marked_places::{capture_function, push_all_marks};
use alias_base::{IdentifierId, List};
use alias_graph::AliasGraph;
use alias_hir::effect::{AliasingEffect, AliasingEffects, ValueKind, ValueReason};
use alias_hir::env::Environment;
use alias_hir::hir::{HirFunction, ParamPattern};
use alias_hir::place::Place;
use alias_hir::types::{is_jsx_type, is_primitive_at, type_of};
use std::alloc::{AllocError, Global};

fn param_place(param: &ParamPattern) -> Place
    ensures { result ≡ param_place param.now }
{
    match param {
        ParamPattern::Place(place) => *place,
        ParamPattern::Spread(spread) => spread.place,
    }
}

fn push_params(places: &mut List<Place>, params: &[ParamPattern]) -> Result<(), AllocError>
    ensures { OnOk result (places.new ≡ places.old ++ map param_place params.now) }
{
    for param in params {
        places.push(param_place(param))?;
    }
    Ok(())
}

fn push_places(places: &mut List<Place>, more: &[Place]) -> Result<(), AllocError>
    ensures { OnOk result (places.new ≡ places.old ++ more.now) }
{
    for place in more {
        places.push(*place)?;
    }
    Ok(())
}

/// Context places, and then parameters.
fn context_and_params(alloc: Global, func: &HirFunction) -> Result<List<Place>, AllocError>
    ensures { IfOk result (λ places. places ≡ context_and_params func.now) }
{
    let mut places = List::new(alloc);
    push_places(&mut places, func.context.as_slice())?;
    push_params(&mut places, func.params.as_slice())?;
    Ok(places)
}

fn push_ids(ids: &mut List<IdentifierId>, places: &[Place]) -> Result<(), AllocError>
    ensures { OnOk result (ids.new ≡ ids.old ++ map identifier_of places.now) }
{
    for place in places {
        ids.push(place.identifier)?;
    }
    Ok(())
}

/// The identifiers whose marks a summary tells of: those of context places and parameters.
pub fn summarized_ids(alloc: Global, func: &HirFunction) -> Result<List<IdentifierId>, AllocError>
    ensures { IfOk result (λ ids. ids ≡ summarized_ids func.now) }
{
    let places = context_and_params(alloc, func)?;
    let mut ids = List::new(alloc);
    push_ids(&mut ids, places.as_slice())?;
    Ok(ids)
}

/// Parameters, context places and returns: the places between which a summary lists flows.
pub fn tracked(alloc: Global, func: &HirFunction) -> Result<List<Place>, AllocError>
    ensures { IfOk result (λ places. places ≡ tracked func.now) }
{
    let mut places = List::new(alloc);
    push_params(&mut places, func.params.as_slice())?;
    push_places(&mut places, func.context.as_slice())?;
    places.push(func.returns)?;
    Ok(places)
}

fn is_jsx_at(env: &Environment, id: IdentifierId) -> bool
    ensures { result ≡ is_jsx_at env.now id }
{
    match type_of(env, id) {
        Some(ty) => is_jsx_type(ty),
        None => false,
    }
}

fn returned_kind(env: &Environment, id: IdentifierId) -> ValueKind
    ensures { result ≡ returned_kind env.now id }
{
    if is_primitive_at(env, id) {
        ValueKind::Primitive
    } else if is_jsx_at(env, id) {
        ValueKind::Frozen
    } else {
        ValueKind::Mutable
    }
}

/// What a function returns, as a new value.
fn returns_created(env: &Environment, func: &HirFunction) -> AliasingEffect
    ensures { result ≡ returns_created env.now func.now }
{
    AliasingEffect::Create {
        into: func.returns,
        value: returned_kind(env, func.returns.identifier),
        reason: ValueReason::KnownReturnSignature,
    }
}

/// Lists marks, what is returned, and flows. Marked parameters and context places get Capture.
#[tactic(auto, using(crate::proofs::summary::Captured::not_captured, crate::proofs::summary::Captured::all_captured))]
fn push_summary(
    graph: &mut AliasGraph,
    next: u32,
    marked: &[Place],
    created: AliasingEffect,
    places: &[Place],
    summary: &mut AliasingEffects,
    func: &mut HirFunction,
    env: &mut Environment,
) -> Result<(), AllocError>
    requires within { Within (length env.old.identifiers) graph.old }
    requires left { next + length places.now ≤ 4294967295 }
    ensures summary { OnOk result (summary.new ≡ ((summary.old ++ marks_of_all graph.old marked.now) ++ created ∷ []) ++ flows_listed graph.old next func.old.returns places.now places.now) }
    ensures func { OnOk result (func.new ≡ function_captured graph.old func.old) }
    ensures err { OnErr result (IsSameOrCaptured graph.old func.old func.new) }
    ensures env { env.new ≡ env.old }
{
    push_all_marks(graph, marked, summary)?;
    summary.push(created)?;
    capture_function(graph, func);
    push_flows(graph, next, &func.returns, places, summary, env)?;
    Ok(())
}

/// Goes on with the summary of a function whose mutations have walked: the marks of context places and parameters,
/// what is returned, and the flows between the tracked places, at positions from `next` on. Marked parameters and context
/// places get the effect Capture.
#[tactic(auto, using(crate::proofs::summary::Captured::not_captured))]
pub fn summarize(
    alloc: Global,
    graph: &mut AliasGraph,
    next: u32,
    places: &[Place],
    summary: &mut AliasingEffects,
    func: &mut HirFunction,
    env: &mut Environment,
) -> Result<(), AllocError>
    requires within { Within (length env.old.identifiers) graph.old }
    requires places { places.now ≡ tracked func.old }
    requires left { next + length places.now ≤ 4294967295 }
    ensures summary { OnOk result (summary.new ≡ summarized graph.old next func.old env.old summary.old) }
    ensures func { OnOk result (func.new ≡ function_captured graph.old func.old) }
    ensures err { OnErr result (IsSameOrCaptured graph.old func.old func.new) }
    ensures env { env.new ≡ env.old }
    ensures flows { OnOk result ((g : Nodes) → SameLinks g graph.old → AllMutatedBefore graph.old next → EndsWithFlows g next func.old.returns (tracked func.old) summary.new) }
{
    let marked = context_and_params(alloc, func)?;
    let created = returns_created(env, func);
    push_summary(
        graph,
        next,
        marked.as_slice(),
        created,
        places,
        summary,
        func,
        env,
    )?;
    Ok(())
}
