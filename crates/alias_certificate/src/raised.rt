//! The state that lines raise another to, and what it has beyond that one. It is looked for at the sites and
//! identifiers of the lines alone: all others stay as they are.
ghost use Rattle.std.specs.Prelude.{◌≡◌, ◌++◌, [], IfOk, OnOk, option_map};
ghost use Rattle.alias_lattice.specs.SiteOrder.{site_cmp};
ghost use Rattle.alias_lattice.specs.States.{value_at, empty_state};
ghost use Rattle.alias_certificate.specs.states.Beyond.{more_value, more_variables, beyond_of};
ghost use Rattle.alias_certificate.specs.states.Lines.{at_key, at_keys, with_sets, beyond_at};
ghost use Rattle.alias_certificate.specs.states.Raised.{raised_state};
ghost use Rattle.alias_certificate.specs.states.States.{with_values};

use crate::beyond::{push_more_value, push_more_variable};
use crate::states::{give_values, raised_state, set_of};
use crate::{Beyond, CertBlock, CertValue, CertVariable, CreatedFunctions};
use alias_base::{IdentifierId, List};
use alias_lattice::{InferenceState, Lattice, LatticeMap, Site, SiteSet};
use std::alloc::{AllocError, Global};

/// The value of the site, where the other state hasn't it.
fn push_value_at(
    more: &mut List<CertValue>,
    state: &InferenceState,
    old: &InferenceState,
    site: Site,
) -> Result<(), AllocError>
    ensures { OnOk result (more.new ≡ more.old ++ at_key (more_value old.now) site (value_at state.now site)) }
{
    match state.value_of(site) {
        Some(value) => push_more_value(more, old, site, value),
        None => Ok(()),
    }
}

/// The values that the other state hasn't, of the sites that have one in the state `said`.
fn values_at(
    alloc: Global,
    said: &InferenceState,
    state: &InferenceState,
    old: &InferenceState,
) -> Result<List<CertValue>, AllocError>
    ensures { IfOk result (λ more. more ≡ at_keys site_cmp (more_value old.now) state.now.values said.now.values) }
{
    // Does nothing: it tells the prover that this is a proper value.
    said.recall_proper();
    let mut more = List::new(alloc);
    let mut after = None;
    'values: while let Some(entry) = said.next_value(after) {
        push_value_at(&mut more, state, old, entry.0)?;
        after = Some(entry.0);
    }
    Ok(more)
}

/// The values that the other state hasn't, of the sites of the lines.
fn values_at_lines(
    alloc: Global,
    values: &[CertValue],
    state: &InferenceState,
    old: &InferenceState,
) -> Result<List<CertValue>, AllocError>
    ensures { IfOk result (λ more. more ≡ at_keys site_cmp (more_value old.now) state.now.values (with_values values.now empty_state).values) }
{
    let mut said = InferenceState::empty(alloc);
    give_values(&mut said, values)?;
    values_at(alloc, &said, state, old)
}

/// The set that the lines give each identifier, which is that of its last line.
fn sets_of(
    alloc: Global,
    variables: &[CertVariable],
) -> Result<LatticeMap<IdentifierId, SiteSet>, AllocError>
    ensures { IfOk result (λ sets. sets ≡ with_sets variables.now []) }
{
    let mut sets = LatticeMap::empty(alloc);
    for variable in variables {
        let sites = set_of(alloc, variable.sites.as_slice())?;
        sets.set(variable.identifier, sites)?;
    }
    Ok(sets)
}

/// The sites of the sets that the state's identifiers haven't.
fn sites_of_sets(
    alloc: Global,
    sets: &LatticeMap<IdentifierId, SiteSet>,
    old: &InferenceState,
) -> Result<List<CertVariable>, AllocError>
    ensures { IfOk result (λ more. more ≡ more_variables old.now sets.now) }
{
    // Does nothing: it tells the prover that this is a proper value.
    sets.recall_proper();
    let mut more = List::new(alloc);
    let mut after = None;
    'variables: while let Some(entry) = sets.entry_after(after) {
        push_more_variable(alloc, &mut more, old, entry.0, &entry.1)?;
        after = Some(entry.0);
    }
    Ok(more)
}

/// What the state has beyond the old one at the sites and identifiers of the block's lines.
fn beyond_at(
    alloc: Global,
    block: &CertBlock,
    state: &InferenceState,
    old: &InferenceState,
) -> Result<Beyond, AllocError>
    ensures { IfOk result (λ more. more ≡ beyond_at block.now state.now old.now) }
{
    let values = values_at_lines(alloc, block.values.as_slice(), state, old)?;
    let sets = sets_of(alloc, block.variables.as_slice())?;
    let variables = sites_of_sets(alloc, &sets, old)?;
    Ok(Beyond { values, variables })
}

/// The state that the block's lines raise the old one to, with what it has beyond the old one, or `None` where they
/// name what isn't there (`raised_state`). What is beyond takes the time of the lines, and not of the states. The one
/// error is out of memory.
pub fn raised_with_beyond(
    alloc: Global,
    identifiers: usize,
    created: &CreatedFunctions,
    block: &CertBlock,
    old: &InferenceState,
) -> Result<Option<(InferenceState, Beyond)>, AllocError>
    ensures { IfOk result (λ raised. raised ≡ option_map (λ s. (s, beyond_of s old.now)) (raised_state identifiers created.now block.now old.now)) }
{
    // Does nothing: it tells the prover that this is a proper value.
    old.recall_proper();
    let below = old.try_clone()?;
    match raised_state(alloc, identifiers, created, block, below)? {
        Some(state) => {
            // Does nothing: it tells the prover that this is a proper value.
            state.recall_proper();
            let more = beyond_at(alloc, block, &state, old)?;
            Ok(Some((state, more)))
        }
        None => Ok(None),
    }
}
