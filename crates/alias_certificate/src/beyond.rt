//! What a state has beyond one that is below it.
ghost use Rattle.std.specs.Prelude.{◌≡◌, ◌++◌, IfOk, OnOk, option_map};
ghost use Rattle.alias_certificate.specs.states.Beyond.{is_there, more_value, more_values, has_site, more_site, more_sites, more_variable, more_variables, nothing_beyond, beyond_of};

use crate::{CertValue, CertVariable};
use alias_base::{IdentifierId, List};
use alias_lattice::{AbstractValue, InferenceState, Lattice, Site, SiteSet};
use std::alloc::{AllocError, Global};

/// What a state has beyond one that is below it, as lines that raise the one to the other.
#[derive(Drop)]
pub struct Beyond {
    /// The values that the other hasn't, each whole, by ascending sites.
    pub values: List<CertValue>,
    /// The sites that identifiers of the other haven't, both ascending.
    pub variables: List<CertVariable>,
}

/// Nothing. Takes no memory.
pub fn nothing_beyond(alloc: Global) -> Beyond
    ensures { result ≡ nothing_beyond }
{
    Beyond {
        values: List::new(alloc),
        variables: List::new(alloc),
    }
}

/// Whether the line's value is there already.
fn is_there(old: Option<AbstractValue>, line: &CertValue) -> bool
    ensures { result ≡ is_there old line.now.value }
{
    match old {
        Some(old) => line.value.is_below(&old),
        None => false,
    }
}

/// The value of the site, where the other state hasn't it.
pub(crate) fn push_more_value(
    more: &mut List<CertValue>,
    old: &InferenceState,
    site: Site,
    value: AbstractValue,
) -> Result<(), AllocError>
    ensures { OnOk result (more.new ≡ more.old ++ more_value old.now (site, value)) }
{
    let line = CertValue { site, value };
    if !is_there(old.value_of(site), &line) {
        more.push(line)?;
    }
    Ok(())
}

/// The values that the other state hasn't.
fn more_values(
    alloc: Global,
    state: &InferenceState,
    old: &InferenceState,
) -> Result<List<CertValue>, AllocError>
    ensures { IfOk result (λ more. more ≡ more_values old.now state.now.values) }
{
    // Does nothing: it tells the prover that this is a proper value.
    state.recall_proper();
    let mut more = List::new(alloc);
    let mut after = None;
    'values: while let Some((site, value)) = state.next_value(after) {
        push_more_value(&mut more, old, site, value)?;
        after = Some(site);
    }
    Ok(more)
}

/// Whether the site is one of the set, if there is a set.
fn has_site(alloc: Global, old: Option<&SiteSet>, site: Site) -> Result<bool, AllocError>
    ensures { IfOk result (λ there. there ≡ has_site (option_map (λ t. t.now) old.entry) site) }
{
    let Some(old) = old else {
        return Ok(false);
    };
    let mut one = SiteSet::empty(alloc);
    one.insert(site)?;
    Ok(one.is_below(old))
}

/// The site, where the other set hasn't it.
fn push_more_site(
    alloc: Global,
    more: &mut List<Site>,
    old: Option<&SiteSet>,
    site: Site,
) -> Result<(), AllocError>
    ensures { OnOk result (more.new ≡ more.old ++ more_site (option_map (λ t. t.now) old.entry) (site, tt)) }
{
    if !has_site(alloc, old, site)? {
        more.push(site)?;
    }
    Ok(())
}

/// The sites that the other set hasn't.
fn more_sites(
    alloc: Global,
    sites: &SiteSet,
    old: Option<&SiteSet>,
) -> Result<List<Site>, AllocError>
    ensures { IfOk result (λ more. more ≡ more_sites (option_map (λ t. t.now) old.entry) sites.now) }
{
    // Does nothing: it tells the prover that this is a proper value.
    sites.recall_proper();
    let mut more = List::new(alloc);
    let mut after = None;
    'sites: while let Some(site) = sites.next_site(after) {
        push_more_site(alloc, &mut more, old, site)?;
        after = Some(site);
    }
    Ok(more)
}

/// The sites of the identifier that it hasn't in the other state, where there are any.
pub(crate) fn push_more_variable(
    alloc: Global,
    more: &mut List<CertVariable>,
    old: &InferenceState,
    identifier: IdentifierId,
    sites: &SiteSet,
) -> Result<(), AllocError>
    ensures { OnOk result (more.new ≡ more.old ++ more_variable old.now (identifier, sites.now)) }
{
    let sites = more_sites(alloc, sites, old.values_for(identifier))?;
    if !sites.as_slice().is_empty() {
        more.push(CertVariable { identifier, sites })?;
    }
    Ok(())
}

/// The sites that the other state's identifiers haven't.
fn more_variables(
    alloc: Global,
    state: &InferenceState,
    old: &InferenceState,
) -> Result<List<CertVariable>, AllocError>
    ensures { IfOk result (λ more. more ≡ more_variables old.now state.now.variables) }
{
    // Does nothing: it tells the prover that this is a proper value.
    state.recall_proper();
    let mut more = List::new(alloc);
    let mut after = None;
    'variables: while let Some((identifier, sites)) = state.next_variable(after) {
        push_more_variable(alloc, &mut more, old, identifier, sites)?;
        after = Some(identifier);
    }
    Ok(more)
}

/// What the state has beyond the old one, which is below it. The one error is out of memory.
pub fn beyond_of(
    alloc: Global,
    state: &InferenceState,
    old: &InferenceState,
) -> Result<Beyond, AllocError>
    ensures { IfOk result (λ more. more ≡ beyond_of state.now old.now) }
{
    Ok(Beyond {
        values: more_values(alloc, state, old)?,
        variables: more_variables(alloc, state, old)?,
    })
}
