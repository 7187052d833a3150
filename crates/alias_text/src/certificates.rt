//! Visits, entry states, interned effects and temporaries, as lines.
ghost use Rattle.std.specs.Prelude.{◌≡◌, ◌++◌, OnOk, codes};
ghost use Rattle.std.specs.List.{AllByRecursion, flat_map};
ghost use Rattle.std.specs.Fmt.{decimal};
ghost use Rattle.json.specs.Print.{quoted};
ghost use Rattle.alias_lattice.specs.Reasons.{ReasonBits, reasons_in};
ghost use Rattle.alias_text.specs.Lines.{kind_word, reason_word};
ghost use Rattle.alias_text.specs.Certificates.{form_text, both_text, two_ids, site_text, reasons_text, value_line, spaced_site, sites_text, variable_line, state_lines, spaced_block, visits_line, first_line, key_text, temporary_line, table_lines};
ghost use Rattle.alias_text.specs.Fitting.{Small, SmallSite, FittingValue, SmallEntry, SmallVariable, FittingState, SmallKey, SmallTemporary};

use crate::effects::{kind_word, push_effect, push_spaced, reason_word};
use crate::quoting::push_quoted;
use alias_base::{BlockId, IdentifierId, Text};
use alias_effects::Solved;
use alias_hir::effect::{AliasingEffect, ValueKind, ValueReason};
use alias_lattice::{AbstractValue, InferenceState, Lattice, ReasonIter, ReasonSet, Site, SiteSet};
use alias_tables::{TempKey, Temporary};
use std::alloc::{AllocError, Global};

/// Appends a form and the number that it names, as in `Function(0)`.
fn push_form(out: &mut Text, form: &str, number: u32) -> Result<(), AllocError>
    ensures text { OnOk result (out.new ≡ out.old ++ form_text form.now (decimal number)) }
    ensures fits { Small number }
{
    out.push_str(form)?;
    out.push_str("(")?;
    out.push_number(u64::from(number))?;
    out.push_str(")")
}

/// Appends a form and the identifiers that it names, as in `AssignCopy(1,2)`.
fn push_form_of_two(
    out: &mut Text,
    form: &str,
    from: IdentifierId,
    into: IdentifierId,
) -> Result<(), AllocError>
    ensures text { OnOk result (out.new ≡ out.old ++ form_text form.now (two_ids from into)) }
    ensures fits { Small from.0 × Small into.0 }
{
    out.push_str(form)?;
    out.push_str("(")?;
    out.push_number(u64::from(from.0))?;
    out.push_str(",")?;
    out.push_number(u64::from(into.0))?;
    out.push_str(")")
}

/// Appends the site of a new value.
fn push_created(
    out: &mut Text,
    into: IdentifierId,
    kind: ValueKind,
    reason: ValueReason,
) -> Result<(), AllocError>
    ensures text { OnOk result (out.new ≡ out.old ++ form_text (codes "Created") (both_text (decimal into.0) (both_text (kind_word kind) (reason_word reason)))) }
    ensures fits { Small into.0 }
{
    out.push_str("Created(")?;
    out.push_number(u64::from(into.0))?;
    out.push_str(",")?;
    out.push_str(kind_word(kind))?;
    out.push_str(",")?;
    out.push_str(reason_word(reason))?;
    out.push_str(")")
}

fn push_site(out: &mut Text, site: Site) -> Result<(), AllocError>
    ensures text { OnOk result (out.new ≡ out.old ++ site_text site) }
    ensures fits { SmallSite site }
{
    match site {
        Site::Parameter(id) => push_form(out, "Parameter", id.0),
        Site::Context(id) => push_form(out, "Context", id.0),
        Site::Created { into, kind, reason } => push_created(out, into, kind, reason),
        Site::CreatedFrom { from, into } => push_form_of_two(out, "CreatedFrom", from, into),
        Site::Function(function) => push_form(out, "Function", function.0),
        Site::AssignFrozen { from, into } => push_form_of_two(out, "AssignFrozen", from, into),
        Site::AssignCopy { from, into } => push_form_of_two(out, "AssignCopy", from, into),
        Site::Default(id) => push_form(out, "Default", id.0),
    }
}

fn push_further_reason(out: &mut Text, reason: ValueReason) -> Result<(), AllocError>
    ensures { OnOk result (out.new ≡ out.old ++ (codes "+" ++ reason_word reason)) }
{
    out.push_str("+")?;
    out.push_str(reason_word(reason))
}

/// Appends the reasons that are left, each behind a `+`.
fn push_further_reasons(out: &mut Text, members: ReasonIter) -> Result<(), AllocError>
    ensures { OnOk result (out.new ≡ out.old ++ flat_map (λ r. codes "+" ++ reason_word r) members) }
{
    for reason in members {
        push_further_reason(out, reason)?;
    }
    Ok(())
}

/// Appends the reasons, joined by `+`, or `-` where there is none.
fn push_reasons(out: &mut Text, reasons: ReasonSet) -> Result<(), AllocError>
    ensures text { OnOk result (out.new ≡ out.old ++ reasons_text (reasons_in reasons)) }
    ensures fits { ReasonBits reasons }
{
    // Does nothing: it tells the prover that this is a proper value.
    reasons.recall_proper();
    let mut members = reasons.iter();
    match members.next() {
        Some(first) => {
            out.push_str(reason_word(first))?;
            push_further_reasons(out, members)
        }
        None => out.push_str("-"),
    }
}

/// Appends the line of a site's value. An `Err` is out of memory: `out` may then hold a part of it.
pub fn push_value_line(out: &mut Text, site: Site, value: AbstractValue) -> Result<(), AllocError>
    ensures text { OnOk result (out.new ≡ out.old ++ value_line (site, value)) }
    ensures fits { OnOk result (FittingValue (site, value)) }
{
    out.push_str("value ")?;
    push_site(out, site)?;
    out.push_str(" ")?;
    out.push_str(kind_word(value.kind))?;
    out.push_str(" ")?;
    push_reasons(out, value.reason)?;
    out.push_str("\n")
}

/// Appends the values of sites, in ascending order.
fn push_values(out: &mut Text, state: &InferenceState) -> Result<(), AllocError>
    ensures text { OnOk result (out.new ≡ out.old ++ flat_map value_line state.now.values) }
    ensures fits { OnOk result (AllByRecursion FittingValue state.now.values) }
{
    // Does nothing: it tells the prover that this is a proper value.
    state.recall_proper();
    let mut after = None;
    'values: while let Some((site, value)) = state.next_value(after) {
        push_value_line(out, site, value)?;
        after = Some(site);
    }
    Ok(())
}

/// Appends a blank and a site. An `Err` is out of memory: `out` may then hold a part of it.
pub fn push_spaced_site(out: &mut Text, site: Site) -> Result<(), AllocError>
    ensures text { OnOk result (out.new ≡ out.old ++ spaced_site site) }
    ensures fits { OnOk result (SmallSite site) }
{
    out.push_str(" ")?;
    push_site(out, site)
}

/// Appends the sites of the set, in ascending order.
fn push_sites(out: &mut Text, sites: &SiteSet) -> Result<(), AllocError>
    ensures text { OnOk result (out.new ≡ out.old ++ sites_text sites.now) }
    ensures fits { OnOk result (AllByRecursion SmallEntry sites.now) }
{
    // Does nothing: it tells the prover that this is a proper value.
    sites.recall_proper();
    let mut after = None;
    'sites: while let Some(site) = sites.next_site(after) {
        push_spaced_site(out, site)?;
        after = Some(site);
    }
    Ok(())
}

fn push_variable_line(out: &mut Text, id: IdentifierId, sites: &SiteSet) -> Result<(), AllocError>
    ensures text { OnOk result (out.new ≡ out.old ++ variable_line (id, sites.now)) }
    ensures fits { OnOk result (SmallVariable (id, sites.now)) }
{
    out.push_str("variable")?;
    push_spaced(out, u64::from(id.0))?;
    push_sites(out, sites)?;
    out.push_str("\n")
}

/// Appends the sets of identifiers, in ascending order.
fn push_variables(out: &mut Text, state: &InferenceState) -> Result<(), AllocError>
    ensures text { OnOk result (out.new ≡ out.old ++ flat_map variable_line state.now.variables) }
    ensures fits { OnOk result (AllByRecursion SmallVariable state.now.variables) }
{
    // Does nothing: it tells the prover that this is a proper value.
    state.recall_proper();
    let mut after = None;
    'variables: while let Some((id, sites)) = state.next_variable(after) {
        push_variable_line(out, id, sites)?;
        after = Some(id);
    }
    Ok(())
}

/// Appends a line for the value of each site and for the set of each identifier. An `Err` is out of memory:
/// `out` may then hold a part of it.
pub(crate) fn push_state(out: &mut Text, state: &InferenceState) -> Result<(), AllocError>
    ensures text { OnOk result (out.new ≡ out.old ++ state_lines state.now) }
    ensures fits { OnOk result (FittingState state.now) }
{
    push_values(out, state)?;
    push_variables(out, state)?;
    // Does nothing: it tells the prover that this is a proper value.
    state.recall_proper();
    Ok(())
}

fn push_blocks(out: &mut Text, blocks: &[BlockId]) -> Result<(), AllocError>
    ensures { OnOk result (out.new ≡ out.old ++ flat_map spaced_block blocks.now) }
{
    for block in blocks {
        push_spaced(out, u64::from(block.0))?;
    }
    Ok(())
}

/// Appends the line of the blocks that were visited. An `Err` is out of memory: `out` may then hold a part of it.
pub(crate) fn push_visits(out: &mut Text, visits: &[BlockId]) -> Result<(), AllocError>
    ensures { OnOk result (out.new ≡ out.old ++ visits_line visits.now) }
{
    out.push_str("visits")?;
    push_blocks(out, visits)?;
    out.push_str("\n")
}

fn push_first_line(out: &mut Text, effect: &AliasingEffect) -> Result<(), AllocError>
    ensures { OnOk result (out.new ≡ out.old ++ first_line effect.now) }
{
    out.push_str("first ")?;
    push_effect(out, effect)?;
    out.push_str("\n")
}

fn push_interned_effects(out: &mut Text, first: &[AliasingEffect]) -> Result<(), AllocError>
    ensures { OnOk result (out.new ≡ out.old ++ flat_map first_line first.now) }
{
    for effect in first {
        push_first_line(out, effect)?;
    }
    Ok(())
}

/// Appends a name of a call whose result goes into the identifier.
fn push_named(
    alloc: Global,
    out: &mut Text,
    into: IdentifierId,
    name: &str,
) -> Result<(), AllocError>
    ensures text { OnOk result (out.new ≡ out.old ++ form_text (codes "Named") (both_text (decimal into.0) (quoted name.now))) }
    ensures fits { OnOk result (Small into.0) }
{
    out.push_str("Named(")?;
    out.push_number(u64::from(into.0))?;
    out.push_str(",")?;
    push_quoted(alloc, out, name)?;
    out.push_str(")")
}

fn push_key(alloc: Global, out: &mut Text, key: &TempKey) -> Result<(), AllocError>
    ensures text { OnOk result (out.new ≡ out.old ++ key_text key.now) }
    ensures fits { OnOk result (SmallKey key.now) }
{
    match key {
        TempKey::Named(into, name) => push_named(alloc, out, *into, name.text.as_str()),
        TempKey::Rest(function) => push_form(out, "Rest", function.0),
    }
}

fn push_temporary_line(
    alloc: Global,
    out: &mut Text,
    temporary: &Temporary,
) -> Result<(), AllocError>
    ensures text { OnOk result (out.new ≡ out.old ++ temporary_line temporary.now) }
    ensures fits { OnOk result (SmallTemporary temporary.now) }
{
    out.push_str("temporary")?;
    push_spaced(out, u64::from(temporary.place.identifier.0))?;
    out.push_str(" ")?;
    push_key(alloc, out, &temporary.key)?;
    out.push_str("\n")
}

/// Appends a line for each temporary. An `Err` is out of memory: `out` may then hold a part of it.
pub fn push_temporaries(
    alloc: Global,
    out: &mut Text,
    temporaries: &[Temporary],
) -> Result<(), AllocError>
    ensures text { OnOk result (out.new ≡ out.old ++ flat_map temporary_line temporaries.now) }
    ensures fits { OnOk result (AllByRecursion SmallTemporary temporaries.now) }
{
    for temporary in temporaries {
        push_temporary_line(alloc, out, temporary)?;
    }
    Ok(())
}

/// Appends a line for each interned effect, and then for each temporary. An `Err` is out of memory: `out` may
/// then hold a part of it.
pub(crate) fn push_tables(alloc: Global, out: &mut Text, solved: &Solved) -> Result<(), AllocError>
    ensures text { OnOk result (out.new ≡ out.old ++ table_lines solved.now) }
    ensures fits { OnOk result (AllByRecursion SmallTemporary solved.now.temporaries) }
{
    push_interned_effects(out, solved.first.as_slice())?;
    push_temporaries(alloc, out, solved.temporaries.as_slice())
}
