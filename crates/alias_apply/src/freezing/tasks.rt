//! What is left to do while a site is gone into.

ghost use Rattle.std.specs.Prelude.{◌≡◌, ◌++◌, OnOk};
ghost use Rattle.alias_apply.specs.freezing.Contexts.{context_of};
ghost use Rattle.alias_apply.specs.freezing.Sites.{sites_at};
ghost use Rattle.alias_apply.specs.freezing.Tasks.{led_to, stacked_sites, stacked_places};

use crate::freezing::context::context_of;
use crate::freezing::sites::sites_at;
use alias_base::IdentifierId;
use alias_hir::env::Environment;
use alias_hir::place::Place;
use alias_lattice::{InferenceState, Site};
use std::alloc::{AllocError, Global};

/// What is left to do: a place that may freeze, or a site that is gone into.
#[derive(Clone, Copy, Drop)]
pub enum Task {
    AtPlace(IdentifierId),
    AtSite(Site),
}

/// Puts the places on the stack, the first on top.
fn push_places(stack: &mut Vec<Task>, places: &[Place]) -> Result<(), AllocError>
    ensures { OnOk result (stack.new.items ≡ stack.old.items ++ stacked_places places.now) }
{
    let mut left = places.len();
    'places: while left > 0 {
        left -= 1;
        stack.push(Task::AtPlace(places[left].identifier))?;
    }
    Ok(())
}

/// Puts the sites on the stack, the first on top.
fn push_sites(stack: &mut Vec<Task>, sites: &[Site]) -> Result<(), AllocError>
    ensures { OnOk result (stack.new.items ≡ stack.old.items ++ stacked_sites sites.now) }
{
    let mut left = sites.len();
    'sites: while left > 0 {
        left -= 1;
        stack.push(Task::AtSite(sites[left]))?;
    }
    Ok(())
}

/// Puts what the site leads to on the stack: the context places of its function.
pub fn push_context(stack: &mut Vec<Task>, env: &Environment, site: Site) -> Result<(), AllocError>
    ensures { OnOk result (stack.new.items ≡ stack.old.items ++ led_to (context_of env.now) site) }
{
    match site {
        Site::Function(f) => push_places(stack, context_of(env, f)),
        _ => Ok(()),
    }
}

/// Puts the sites of the place on the stack.
pub fn push_sites_of(
    alloc: Global,
    stack: &mut Vec<Task>,
    state: &InferenceState,
    place: IdentifierId,
) -> Result<(), AllocError>
    ensures { OnOk result (stack.new.items ≡ stack.old.items ++ stacked_sites (sites_at state.now place)) }
{
    let sites = sites_at(alloc, state, place)?;
    push_sites(stack, sites.as_slice())
}
