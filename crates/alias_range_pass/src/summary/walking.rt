//! The walks of a function's mutations and renders.
ghost use Rattle.std.specs.Prelude.{◌≡◌, ◌<◌, false, length, map, reverse, IfOk, OnOk, OnErr};
ghost use Rattle.alias_graph.specs.recorded.Fitting.{AllOf, OrderHasNext, OrderFits, ListingFits};
ghost use Rattle.alias_graph.specs.recorded.Recording.{graph_listed};
ghost use Rattle.alias_graph.specs.Nodes.{Within};
ghost use Rattle.alias_graph.specs.Raising.{EndsRise, Raised};
ghost use Rattle.alias_range_pass.specs.summary.Keeping.{WalksKeep};
ghost use Rattle.alias_range_pass.specs.summary.Laws.{Covers, MutationCauses};
ghost use Rattle.alias_range_pass.specs.summary.Sweeping.{range_walk, after_marks, IsPart};
ghost use Rattle.alias_range_pass.specs.summary.Walking.{nodes_after, env_after, after_render, after_renders, env_reported, mutations_done, renders_done};

use crate::summary::start::{WalkStart, mark_start, range_walk};
use alias_base::{IdentifierId, List};
use alias_graph::recorded::{Listing, RecordedMutation, RecordedRender};
use alias_graph::{AliasGraph, RangeWalk, Steps, push_reports};
use alias_hir::env::Environment;
use std::alloc::{AllocError, Global};
use std::marker::Brand;
use std::sync::ledger::{Blank, Ledger};

/// A walk, counted in a ledger that nothing else is counted in.
#[tactic(auto, using(crate::specs::summary::KeepingLaws::walk_keeps, crate::specs::summary::KeepingLaws::stopped_keeps, crate::specs::summary::KeepingLaws::walk_within))]
fn walk_counted<L: Ledger>(
    graph: &mut AliasGraph,
    env: &mut Environment,
    start: WalkStart,
    should_record_errors: bool,
    blank: Blank,
) -> Result<(), AllocError>
    requires within { Within (length env.old.identifiers) graph.old }
    requires name { blank.name ≡ L.name }
    requires parts { blank.parts ≡ L.parts }
    requires some { 0 < blank.parts }
    ensures graph { OnOk result (graph.new ≡ nodes_after start graph.old) }
    ensures env { OnOk result (env.new ≡ env_after should_record_errors start graph.old env.old) }
    ensures quiet { OnErr result (should_record_errors ≡ false → env.new ≡ env.old) }
    ensures within { OnOk result (Within (length env.new.identifiers) graph.new) }
    ensures kept { WalksKeep env.old env.new }
{
    let mut steps = Steps::<L>::start(blank);
    graph.mutate(
        start.index,
        start.place.identifier,
        start.end,
        start.transitive,
        start.kind,
        start.place.span,
        start.reason,
        env,
        should_record_errors,
        &mut steps,
    )?;
    Ok(())
}

/// A walk, whose steps nobody asks for.
pub(crate) fn walk(
    graph: &mut AliasGraph,
    env: &mut Environment,
    start: WalkStart,
    should_record_errors: bool,
) -> Result<(), AllocError>
    requires within { Within (length env.old.identifiers) graph.old }
    ensures graph { OnOk result (graph.new ≡ nodes_after start graph.old) }
    ensures env { OnOk result (env.new ≡ env_after should_record_errors start graph.old env.old) }
    ensures quiet { OnErr result (should_record_errors ≡ false → env.new ≡ env.old) }
    ensures within { OnOk result (Within (length env.new.identifiers) graph.new) }
    ensures kept { WalksKeep env.old env.new }
{
    walk_counted::<Brand>(graph, env, start, should_record_errors, Blank::new(1))
}

/// What the mutations raise, the last first.
#[tactic(auto, using(crate::proofs::summary::Sweeps::walks_begin, crate::proofs::summary::Sweeps::walks_more, crate::proofs::summary::Sweeps::all_at))]
fn range_walks(alloc: Global, mutations: &[RecordedMutation]) -> Result<List<RangeWalk>, AllocError>
    requires { AllOf OrderFits mutations.now }
    ensures { IfOk result (λ walks. walks ≡ map range_walk (reverse mutations.now)) }
{
    let mut walks = List::new(alloc);
    let mut left = mutations.len();
    'walks: while 0 < left {
        left -= 1;
        walks.push(range_walk(&mutations[left]))?;
    }
    Ok(walks)
}

/// Raises the ranges of what mutations reach, by one sweep: they end past each such mutation then.
#[tactic(auto, using(crate::specs::summary::KeepingLaws::keeps_same))]
fn raise_ranges(
    alloc: Global,
    mutations: &[RecordedMutation],
    graph: &mut AliasGraph,
    env: &mut Environment,
) -> Result<(), AllocError>
    requires orders { AllOf OrderFits mutations.now }
    requires within { Within (length env.old.identifiers) graph.old }
    ensures graph { graph.new ≡ graph.old }
    ensures raised { OnOk result (Raised graph.old (map range_walk (reverse mutations.now)) env.old.identifiers env.new.identifiers) }
    ensures env { env.new ≡ record env.old { identifiers = env.new.identifiers } }
    ensures rise { EndsRise env.old.identifiers env.new.identifiers }
{
    let walks = range_walks(alloc, mutations)?;
    graph.raise(walks.as_slice(), &mut env.identifiers)?;
    Ok(())
}

/// Walks from each mutation, in order, which leaves marks.
#[tactic(auto, using(crate::specs::summary::KeepingLaws::keeps_trans, crate::specs::summary::KeepingLaws::keeps_same))]
fn mark_mutations(
    graph: &mut AliasGraph,
    env: &mut Environment,
    mutations: &[RecordedMutation],
    should_record_errors: bool,
) -> Result<(), AllocError>
    requires { Within (length env.old.identifiers) graph.old }
    ensures ok { OnOk result ((graph.new, env.new) ≡ after_marks should_record_errors mutations.now (graph.old, env.old)) }
    ensures within { OnOk result (Within (length env.new.identifiers) graph.new) }
    ensures kept { WalksKeep env.old env.new }
{
    for mutation in mutations {
        walk(graph, env, mark_start(mutation), should_record_errors)?;
    }
    Ok(())
}

/// Runs each render, in order.
#[tactic(auto, using(crate::specs::summary::KeepingLaws::keeps_trans, crate::specs::summary::KeepingLaws::keeps_same, crate::specs::summary::KeepingLaws::reports_keep, crate::specs::summary::KeepingLaws::grown_keeps))]
fn run_renders(
    graph: &AliasGraph,
    env: &mut Environment,
    renders: &[RecordedRender],
) -> Result<(), AllocError>
    ensures ok { OnOk result (env.new ≡ after_renders graph.now renders.now env.old) }
    ensures kept { WalksKeep env.old env.new }
{
    for render in renders {
        graph.render(render.index, render.place.identifier, env)?;
    }
    Ok(())
}

/// Records the reports of error effects.
#[tactic(auto, using(crate::specs::summary::KeepingLaws::reports_keep, crate::specs::summary::KeepingLaws::keeps_same, crate::specs::summary::KeepingLaws::front_keeps))]
fn report_effects(
    alloc: Global,
    should_record_errors: bool,
    listing: &Listing,
    env: &mut Environment,
) -> Result<(), AllocError>
    ensures ok { OnOk result (env.new ≡ env_reported should_record_errors listing.now env.old) }
    ensures kept { WalksKeep env.old env.new }
{
    if should_record_errors {
        push_reports(
            alloc,
            &mut env.errors,
            &env.interned,
            listing.summary.as_slice(),
        )?;
    }
    Ok(())
}

/// Walks from each mutation of a listing, and then runs its renders where errors are recorded.
#[tactic(auto, using(crate::specs::summary::KeepingLaws::keeps_trans, crate::specs::summary::KeepingLaws::keeps_same))]
fn walk_and_render(
    should_record_errors: bool,
    listing: &Listing,
    graph: &mut AliasGraph,
    env: &mut Environment,
) -> Result<(), AllocError>
    requires { Within (length env.old.identifiers) graph.old }
    ensures graph { OnOk result (graph.new ≡ (after_marks should_record_errors listing.now.mutations (graph.old, env.old)).0) }
    ensures env { OnOk result (env.new ≡ renders_done should_record_errors listing.now (after_marks should_record_errors listing.now.mutations (graph.old, env.old))) }
    ensures within { OnOk result (Within (length env.new.identifiers) graph.new) }
    ensures kept { WalksKeep env.old env.new }
{
    mark_mutations(
        graph,
        env,
        listing.mutations.as_slice(),
        should_record_errors,
    )?;
    if should_record_errors {
        run_renders(graph, env, listing.renders.as_slice())?;
    }
    Ok(())
}

/// Records the reports of error effects where errors are recorded, and raises ranges. Then it cuts the graph off to what
/// is seen of it, and walks.
#[tactic(auto, using(crate::specs::summary::KeepingLaws::keeps_trans, crate::specs::summary::KeepingLaws::keeps_same, crate::specs::summary::KeepingLaws::rise_keeps))]
fn walk_all(
    alloc: Global,
    should_record_errors: bool,
    listing: &Listing,
    ids: &[IdentifierId],
    graph: &mut AliasGraph,
    env: &mut Environment,
) -> Result<(), AllocError>
    requires fits { ListingFits (length env.old.identifiers) listing.now }
    requires graph { graph.old ≡ graph_listed listing.now }
    ensures graph { OnOk result (IsPart ids.now (mutations_done should_record_errors listing.now env.old).0 graph.new) }
    ensures env { OnOk result (env.new ≡ renders_done should_record_errors listing.now (mutations_done should_record_errors listing.now env.old)) }
    ensures within { OnOk result (Within (length env.new.identifiers) graph.new) }
    ensures kept { WalksKeep env.old env.new }
{
    report_effects(alloc, should_record_errors, listing, env)?;
    raise_ranges(alloc, listing.mutations.as_slice(), graph, env)?;
    graph.cut_off(ids, should_record_errors, env)?;
    walk_and_render(should_record_errors, listing, graph, env)?;
    Ok(())
}

/// Walks over the graph of a listing: from each recorded mutation, and then, where errors are recorded, from each
/// render. Where errors are recorded, the reports of error effects come first. What is left of the graph is the part in which
/// these identifiers are, with the marks of all walks.
///
/// Nothing of the environment but range ends and reports changes; no end falls, and no report goes.
pub fn walk_listing(
    alloc: Global,
    should_record_errors: bool,
    listing: &Listing,
    ids: &[IdentifierId],
    graph: &mut AliasGraph,
    env: &mut Environment,
) -> Result<(), AllocError>
    requires fits { ListingFits (length env.old.identifiers) listing.now }
    requires graph { graph.old ≡ graph_listed listing.now }
    ensures graph { OnOk result (IsPart ids.now (mutations_done should_record_errors listing.now env.old).0 graph.new) }
    ensures env { OnOk result (env.new ≡ renders_done should_record_errors listing.now (mutations_done should_record_errors listing.now env.old)) }
    ensures within { OnOk result (Within (length env.new.identifiers) graph.new) }
    ensures kept { WalksKeep env.old env.new }
    ensures cover { OnOk result (Covers graph.old listing.now.mutations env.new.identifiers) }
    ensures cause { OnOk result (MutationCauses graph.old listing.now.mutations env.old.identifiers env.new.identifiers) }
{
    walk_all(alloc, should_record_errors, listing, ids, graph, env)?;
    Ok(())
}
