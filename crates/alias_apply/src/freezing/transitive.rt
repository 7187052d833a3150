//! Freezing transitively from sites, by a stack of what is left to do.

ghost use Rattle.std.specs.Prelude.{◌≡◌, ◌++◌, OnOk, IfOk};
ghost use Rattle.alias_lattice.specs.States.{frozen};
ghost use Rattle.alias_apply.specs.freezing.Contexts.{context_of};
ghost use Rattle.alias_apply.specs.freezing.Sites.{sites_at};
ghost use Rattle.alias_apply.specs.freezing.Transitive.{at_sites, frozen_transitively, place_frozen_transitively};
ghost use Rattle.alias_apply.specs.freezing.TransitiveLaws.{Sorted};
ghost use Rattle.alias_apply.specs.freezing.Tasks.{NextIs, stacked_sites};

use crate::freezing::sites::{does_freeze, sites_at};
use crate::freezing::tasks::{Task, push_context, push_sites_of};
use alias_base::IdentifierId;
use alias_hir::effect::ValueReason;
use alias_hir::env::Environment;
use alias_lattice::{InferenceState, Lattice, Site};
use std::alloc::{AllocError, Global};

/// Freezes a place, and puts its sites on the stack.
fn freeze_top(
    alloc: Global,
    state: &mut InferenceState,
    stack: &mut Vec<Task>,
    place: IdentifierId,
    reason: ValueReason,
) -> Result<(), AllocError>
    ensures state { OnOk result (state.new ≡ frozen place reason state.old) }
    ensures stack { OnOk result (stack.new.items ≡ stack.old.items ++ stacked_sites (sites_at state.old place)) }
{
    push_sites_of(alloc, stack, state, place)?;
    // The caller knows that it acts: it asked before.
    let _acts = state.freeze(place, reason)?;
    Ok(())
}

/// Takes tasks off the stack up to a place that freezes. `reason` is why it will be.
fn next_freezing(
    stack: &mut Vec<Task>,
    state: &InferenceState,
    env: &Environment,
    reason: ValueReason,
) -> Result<Option<IdentifierId>, AllocError>
    requires { Sorted state.now }
    ensures { IfOk result (λ next. NextIs (context_of env.now) reason stack.old.items state.now next stack.new.items) }
{
    // The clause speaks of the reason; the body doesn't need it.
    let _reason = reason;
    // The last first: what a frozen place leads to is frozen before the places beside it, as a call of itself would do.
    'tasks: while let Some(task) = stack.pop() {
        match task {
            Task::AtPlace(place) => {
                if does_freeze(state, place) {
                    return Ok(Some(place));
                }
            }
            Task::AtSite(site) => push_context(stack, env, site)?,
        }
    }
    Ok(None)
}

/// Goes into the site: each context place of its function is frozen, and what these lead to. The one error is
/// out of memory, after which some of it may be.
pub fn freeze_transitively(
    alloc: Global,
    state: &mut InferenceState,
    env: &Environment,
    site: Site,
    reason: ValueReason,
) -> Result<(), AllocError>
    ensures { OnOk result (state.new ≡ frozen_transitively reason (context_of env.now) site state.old) }
{
    let mut stack = Vec::new(alloc);
    stack.push(Task::AtSite(site))?;
    // Does nothing: it tells the prover that this is a proper value.
    state.recall_proper();
    'freezings: loop {
        match next_freezing(&mut stack, state, env, reason)? {
            Some(place) => freeze_top(alloc, state, &mut stack, place, reason)?,
            None => return Ok(()),
        }
    }
}

/// Goes into each of the sites, in order.
fn freeze_all_transitively(
    alloc: Global,
    state: &mut InferenceState,
    env: &Environment,
    sites: &[Site],
    reason: ValueReason,
) -> Result<(), AllocError>
    ensures { OnOk result (state.new ≡ at_sites (frozen_transitively reason (context_of env.now)) sites.now state.old) }
{
    for site in sites {
        freeze_transitively(alloc, state, env, *site, reason)?;
    }
    Ok(())
}

/// Goes into each site of the place, in ascending order. The one error is out of memory, after which some of them
/// may be gone into.
pub fn freeze_place_transitively(
    alloc: Global,
    state: &mut InferenceState,
    env: &Environment,
    place: IdentifierId,
    reason: ValueReason,
) -> Result<(), AllocError>
    ensures { OnOk result (state.new ≡ place_frozen_transitively reason (context_of env.now) place state.old) }
{
    let sites = sites_at(alloc, state, place)?;
    freeze_all_transitively(alloc, state, env, sites.as_slice(), reason)
}
