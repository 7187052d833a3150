//! The sites of a place, and whether it freezes.

ghost use Rattle.std.specs.Prelude.{◌≡◌, IfOk};
ghost use Rattle.alias_lattice.specs.States.{freezes, does_freeze};
ghost use Rattle.alias_apply.specs.freezing.Sites.{in_order, sites_at};

use alias_base::IdentifierId;
use alias_hir::effect::ValueKind;
use alias_lattice::{InferenceState, Lattice, Site, SiteSet};
use std::alloc::{AllocError, Global};

/// The sites of a set, in ascending order.
fn sites_in_order(alloc: Global, sites: &SiteSet) -> Result<Vec<Site>, AllocError>
    ensures { IfOk result (λ listed. listed.items ≡ in_order sites.now) }
{
    // Does nothing: it tells the prover that this is a proper value.
    sites.recall_proper();
    let mut listed = Vec::new(alloc);
    let mut after = None;
    'sites: while let Some(site) = sites.next_site(after) {
        listed.push(site)?;
        after = Some(site);
    }
    Ok(listed)
}

/// The sites of the place, in ascending order. None where it isn't defined.
pub fn sites_at(
    alloc: Global,
    state: &InferenceState,
    place: IdentifierId,
) -> Result<Vec<Site>, AllocError>
    ensures { IfOk result (λ listed. listed.items ≡ sites_at state.now place) }
{
    match state.values_for(place) {
        Some(sites) => sites_in_order(alloc, sites),
        None => Ok(Vec::new(alloc)),
    }
}

/// Whether a freeze changes a value of this kind.
fn freezes(kind: ValueKind) -> bool
    ensures { result ≡ freezes kind }
{
    matches!(
        kind,
        ValueKind::Context | ValueKind::Mutable | ValueKind::MaybeFrozen
    )
}

/// Whether a freeze of the place acts.
pub fn does_freeze(state: &InferenceState, place: IdentifierId) -> bool
    ensures { result ≡ does_freeze state.now place }
{
    // Does nothing: it tells the prover that this is a proper value.
    state.recall_proper();
    state.is_defined(place) && freezes(state.kind_with_span(place, None).value.kind)
}
