//! The entry state that a certificate says of a block.
ghost use Rattle.std.specs.Prelude.{◌≡◌, nat_lt, [], Some, None, IfOk, OnOk, if◌then◌else◌};
ghost use Rattle.std.specs.List.{list_all};
ghost use Rattle.alias_lattice.specs.States.{defined_as, state_join};
ghost use Rattle.alias_certificate.specs.states.Raised.{values_raised, variables_raised, are_sites_named, raised_state};
ghost use Rattle.alias_certificate.specs.states.States.{is_site_there, with_values, with_sites, is_full, are_valued, is_variable_there, with_variables, stated_state};

use crate::created::CreatedFunctions;
use crate::{CertBlock, CertValue, CertVariable};
use alias_base::IdentifierId;
use alias_lattice::{InferenceState, Lattice, Site, SiteSet};
use std::alloc::{AllocError, Global};

fn is_below(identifier: IdentifierId, identifiers: usize) -> bool
    ensures { result ≡ nat_lt identifier.0 identifiers }
{
    (identifier.0 as usize) < identifiers
}

/// Whether the identifiers of the site are below the number, and its function is one of those created.
fn is_site_there(identifiers: usize, created: &CreatedFunctions, site: Site) -> bool
    ensures { result ≡ is_site_there identifiers created.now site }
{
    match site {
        Site::Parameter(x) | Site::Context(x) | Site::Default(x) => is_below(x, identifiers),
        Site::Created { into, .. } => is_below(into, identifiers),
        Site::CreatedFrom { from, into }
        | Site::AssignFrozen { from, into }
        | Site::AssignCopy { from, into } => {
            is_below(from, identifiers) && is_below(into, identifiers)
        }
        Site::Function(function) => created.has(function),
    }
}

fn are_sites_there(identifiers: usize, created: &CreatedFunctions, values: &[CertValue]) -> bool
    ensures { result ≡ list_all (λ v. is_site_there identifiers created.now v.site) values.now }
{
    values
        .iter()
        .all(|value| is_site_there(identifiers, created, value.site))
}

pub(crate) fn give_values(
    state: &mut InferenceState,
    values: &[CertValue],
) -> Result<(), AllocError>
    ensures { OnOk result (state.new ≡ with_values values.now state.old) }
{
    for value in values {
        state.initialize(value.site, value.value)?;
    }
    Ok(())
}

/// Whether each of the sites has a value.
fn are_valued(state: &InferenceState, sites: &[Site]) -> bool
    ensures { result ≡ are_valued state.now sites.now }
{
    sites.iter().all(|site| state.value_of(*site).is_some())
}

/// The set of the sites.
pub(crate) fn set_of(alloc: Global, sites: &[Site]) -> Result<SiteSet, AllocError>
    ensures { IfOk result (λ set. set ≡ with_sites sites.now []) }
{
    let mut set = SiteSet::empty(alloc);
    for site in sites {
        set.insert(*site)?;
    }
    Ok(set)
}

fn is_variable_there(identifiers: usize, state: &InferenceState, variable: &CertVariable) -> bool
    ensures { result ≡ is_variable_there identifiers state.now variable.now }
{
    let sites = variable.sites.as_slice();
    is_below(variable.identifier, identifiers) && !sites.is_empty() && are_valued(state, sites)
}

/// Gives the identifiers their sets, and answers whether all that they name is there.
fn define_variables(
    alloc: Global,
    identifiers: usize,
    state: &mut InferenceState,
    variables: &[CertVariable],
) -> Result<bool, AllocError>
    ensures { IfOk result (λ there. with_variables identifiers variables.now state.old ≡ (if there then Some state.new else None)) }
{
    for variable in variables {
        if !is_variable_there(identifiers, &*state, variable) {
            return Ok(false);
        }
        let sites = set_of(alloc, variable.sites.as_slice())?;
        state.define_all(variable.identifier, sites)?;
    }
    Ok(true)
}

/// The entry state that is said of the block, or `None` where it names what isn't there: an identifier that isn't below
/// `identifiers`, a function that isn't one of those created, no site of an identifier, or a site without a value. The one
/// error is out of memory.
pub fn stated_state(
    alloc: Global,
    identifiers: usize,
    created: &CreatedFunctions,
    block: &CertBlock,
) -> Result<Option<InferenceState>, AllocError>
    ensures { IfOk result (λ state. state ≡ stated_state identifiers created.now block.now) }
{
    let values = block.values.as_slice();
    if !are_sites_there(identifiers, created, values) {
        return Ok(None);
    }
    let mut state = InferenceState::empty(alloc);
    give_values(&mut state, values)?;
    let variables = block.variables.as_slice();
    if define_variables(alloc, identifiers, &mut state, variables)? {
        Ok(Some(state))
    } else {
        Ok(None)
    }
}

/// Joins the values in: that of each site, or the line's where the site has none.
fn raise_values(
    alloc: Global,
    state: &mut InferenceState,
    values: &[CertValue],
) -> Result<(), AllocError>
    ensures { OnOk result (state.new ≡ values_raised values.now state.old) }
{
    let mut said = InferenceState::empty(alloc);
    give_values(&mut said, values)?;
    state.merge_from(&said)?;
    Ok(())
}

/// Gives the identifiers the sites besides their own, and answers whether all that they name is there.
fn raise_variables(
    alloc: Global,
    identifiers: usize,
    state: &mut InferenceState,
    variables: &[CertVariable],
) -> Result<bool, AllocError>
    ensures { IfOk result (λ there. variables_raised identifiers variables.now state.old ≡ (if there then Some state.new else None)) }
{
    let mut said = state.try_clone()?;
    if !define_variables(alloc, identifiers, &mut said, variables)? {
        return Ok(false);
    }
    state.merge_from(&said)?;
    Ok(true)
}

/// Whether the sites of a line are all there.
fn is_named(identifiers: usize, created: &CreatedFunctions, variable: &CertVariable) -> bool
    ensures { result ≡ list_all (λ k. is_site_there identifiers created.now k) variable.now.sites }
{
    variable
        .sites
        .as_slice()
        .iter()
        .all(|site| is_site_there(identifiers, created, *site))
}

fn are_sites_named(
    identifiers: usize,
    created: &CreatedFunctions,
    variables: &[CertVariable],
) -> bool
    ensures { result ≡ are_sites_named identifiers created.now variables.now }
{
    variables
        .iter()
        .all(|variable| is_named(identifiers, created, variable))
}

/// The state that the block's lines raise the given one to, which is above it: the values of their sites are joined with
/// its own, and its identifiers have their sites besides. `None` where they name what isn't there: an identifier that isn't
/// below `identifiers`, a function that isn't one of those created, no site of an identifier, or a site that has no value
/// then. The one error is out of memory.
pub fn raised_state(
    alloc: Global,
    identifiers: usize,
    created: &CreatedFunctions,
    block: &CertBlock,
    state: InferenceState,
) -> Result<Option<InferenceState>, AllocError>
    ensures { IfOk result (λ raised. raised ≡ raised_state identifiers created.now block.now state) }
{
    let values = block.values.as_slice();
    let variables = block.variables.as_slice();
    if !are_sites_there(identifiers, created, values)
        || !are_sites_named(identifiers, created, variables)
    {
        return Ok(None);
    }
    let mut raised = state;
    raise_values(alloc, &mut raised, values)?;
    if raise_variables(alloc, identifiers, &mut raised, variables)? {
        Ok(Some(raised))
    } else {
        Ok(None)
    }
}
