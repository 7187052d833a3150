//! What follows for a unit, as lines.
ghost use Rattle.std.specs.Prelude.{◌≡◌, ◌++◌, OnOk, codes, option_map};
ghost use Rattle.std.specs.List.{AllByRecursion, flat_map};
ghost use Rattle.alias_text.specs.Certificates.{spaced_site};
ghost use Rattle.alias_text.specs.Fitting.{SmallSite};
ghost use Rattle.alias_brief.specs.Briefs.{beyond_value, beyond_variable, beyond_lines, beyond_or, entry_text, blocks_from, found_text, temporary_lines, followed_text, function_text, functions_from, brief_text};
ghost use Rattle.alias_brief.specs.Fitting.{FittingMoreValue, SmallMoreVariable, FittingMore, FittingBlock, FittingFrom, FittingFound, FittingTemporaries, FittingFunction, FittingIfKnown, FittingFunctions, IsFitting};

use alias_base::{List, Text};
use alias_cert::entries::entries_known;
use alias_certificate::{Beyond, CertValue, CertVariable};
use alias_effects::{BlockEntry, Solved};
use alias_follow::{Followed, FunctionBeyond};
use alias_hir::effect::AliasingEffect;
use alias_hir::env::Unit;
use alias_hir::hir::HirFunction;
use alias_lattice::Site;
use alias_tables::Temporary;
use alias_text::certificates::{push_spaced_site, push_temporaries, push_value_line};
use alias_text::effects::push_spaced;
use alias_text::functions::{push_block_head, push_block_lines, push_function_head};
use alias_text::ranges::push_ranges;
use alias_text::reports::push_reports;
use alias_text::results::function_of;
use alias_text::summaries::push_summary;
use std::alloc::{AllocError, Global};

fn push_values(out: &mut Text, values: &[CertValue]) -> Result<(), AllocError>
    ensures text { OnOk result (out.new ≡ out.old ++ flat_map beyond_value values.now) }
    ensures fits { OnOk result (AllByRecursion FittingMoreValue values.now) }
{
    for value in values {
        push_value_line(out, value.site, value.value)?;
    }
    Ok(())
}

fn push_sites(out: &mut Text, sites: &[Site]) -> Result<(), AllocError>
    ensures text { OnOk result (out.new ≡ out.old ++ flat_map spaced_site sites.now) }
    ensures fits { OnOk result (AllByRecursion SmallSite sites.now) }
{
    for site in sites {
        push_spaced_site(out, *site)?;
    }
    Ok(())
}

fn push_variable(out: &mut Text, variable: &CertVariable) -> Result<(), AllocError>
    ensures text { OnOk result (out.new ≡ out.old ++ beyond_variable variable.now) }
    ensures fits { OnOk result (SmallMoreVariable variable.now) }
{
    out.push_str("variable")?;
    push_spaced(out, u64::from(variable.identifier.0))?;
    push_sites(out, variable.sites.as_slice())?;
    out.push_str("\n")
}

fn push_variables(out: &mut Text, variables: &[CertVariable]) -> Result<(), AllocError>
    ensures text { OnOk result (out.new ≡ out.old ++ flat_map beyond_variable variables.now) }
    ensures fits { OnOk result (AllByRecursion SmallMoreVariable variables.now) }
{
    for variable in variables {
        push_variable(out, variable)?;
    }
    Ok(())
}

fn push_beyond(out: &mut Text, beyond: Option<&Beyond>) -> Result<(), AllocError>
    ensures text { OnOk result (out.new ≡ out.old ++ beyond_or (option_map (λ b. b.now) beyond.entry)) }
    ensures fits { OnOk result (FittingMore (option_map (λ b. b.now) beyond.entry)) }
{
    let Some(beyond) = beyond else {
        return Ok(());
    };
    push_values(out, beyond.values.as_slice())?;
    push_variables(out, beyond.variables.as_slice())?;
    Ok(())
}

fn push_entry(
    out: &mut Text,
    func: &HirFunction,
    beyond: Option<&Beyond>,
    entry: &BlockEntry,
) -> Result<(), AllocError>
    ensures text { OnOk result (out.new ≡ out.old ++ entry_text func.now (option_map (λ b. b.now) beyond.entry) entry.now) }
    ensures fits { OnOk result (FittingBlock func.now (option_map (λ b. b.now) beyond.entry) entry.now) }
{
    push_block_head(out, entry.block)?;
    push_beyond(out, beyond)?;
    push_block_lines(out, func, entry.block)?;
    Ok(())
}

fn push_entries(
    out: &mut Text,
    func: &HirFunction,
    beyond: &List<Beyond>,
    entries: &[BlockEntry],
) -> Result<(), AllocError>
    ensures text { OnOk result (out.new ≡ out.old ++ blocks_from func.now beyond.now 0 entries.now) }
    ensures fits { OnOk result (FittingFrom func.now beyond.now 0 entries.now) }
{
    for (position, entry) in entries.iter().enumerate() {
        push_entry(out, func, beyond.get(position), entry)?;
    }
    Ok(())
}

/// Appends the blocks of a function that are reached: nothing where the function isn't there.
fn push_found(
    out: &mut Text,
    func: Option<&HirFunction>,
    beyond: &FunctionBeyond,
    entries: &[BlockEntry],
) -> Result<(), AllocError>
    ensures text { OnOk result (out.new ≡ out.old ++ found_text (option_map (λ f. f.now) func.entry) beyond.now entries.now) }
    ensures fits { OnOk result (FittingFound (option_map (λ f. f.now) func.entry) beyond.now entries.now) }
{
    match func {
        Some(func) => push_entries(out, func, &beyond.blocks, entries),
        None => Ok(()),
    }
}

/// Appends the temporaries of a function that isn't forward.
fn push_temporaries_of(
    alloc: Global,
    out: &mut Text,
    is_forward: bool,
    temporaries: &[Temporary],
) -> Result<(), AllocError>
    ensures text { OnOk result (out.new ≡ out.old ++ temporary_lines is_forward temporaries.now) }
    ensures fits { OnOk result (FittingTemporaries is_forward temporaries.now) }
{
    if is_forward {
        return Ok(());
    }
    push_temporaries(alloc, out, temporaries)
}

fn push_followed(
    alloc: Global,
    out: &mut Text,
    unit: &Unit,
    summary: &[AliasingEffect],
    solved: &Solved,
    beyond: &FunctionBeyond,
) -> Result<(), AllocError>
    ensures text { OnOk result (out.new ≡ out.old ++ followed_text unit.now summary.now solved.now beyond.now) }
    ensures fits { OnOk result (FittingFunction unit.now solved.now beyond.now) }
{
    // Does nothing: it tells the prover that the entry states are proper.
    entries_known(solved.entries.as_slice());
    push_function_head(out, solved.function)?;
    let func = function_of(unit, solved.function);
    push_found(out, func, beyond, solved.entries.as_slice())?;
    let temporaries = solved.temporaries.as_slice();
    push_temporaries_of(alloc, out, beyond.is_forward, temporaries)?;
    push_summary(out, unit, summary, solved.function)?;
    Ok(())
}

fn push_function(
    alloc: Global,
    out: &mut Text,
    unit: &Unit,
    summary: &[AliasingEffect],
    solved: &Solved,
    beyond: Option<&FunctionBeyond>,
) -> Result<(), AllocError>
    ensures text { OnOk result (out.new ≡ out.old ++ function_text unit.now summary.now solved.now (option_map (λ b. b.now) beyond.entry)) }
    ensures fits { OnOk result (FittingIfKnown unit.now solved.now (option_map (λ b. b.now) beyond.entry)) }
{
    match beyond {
        Some(beyond) => push_followed(alloc, out, unit, summary, solved, beyond),
        None => Ok(()),
    }
}

fn push_functions(
    alloc: Global,
    out: &mut Text,
    unit: &Unit,
    summary: &[AliasingEffect],
    solved: &[Solved],
    beyond: &List<FunctionBeyond>,
) -> Result<(), AllocError>
    ensures text { OnOk result (out.new ≡ out.old ++ functions_from unit.now summary.now beyond.now 0 solved.now) }
    ensures fits { OnOk result (FittingFunctions unit.now beyond.now 0 solved.now) }
{
    for (position, of_function) in solved.iter().enumerate() {
        push_function(alloc, out, unit, summary, of_function, beyond.get(position))?;
    }
    Ok(())
}

/// Appends what follows for a unit: what is printed of an inference, function by function, with the mutable ranges and the
/// reports; and besides, of a function that has edges back, below the line of each block what its entry state has beyond
/// what arrived, and behind its blocks its temporaries. docs/FORMAT.md has the form of the lines. An `Err` is out of memory:
/// `out` may then hold a part of it.
pub fn push_brief(alloc: Global, out: &mut Text, followed: &Followed) -> Result<(), AllocError>
    ensures text { OnOk result (out.new ≡ out.old ++ brief_text followed.now) }
    ensures fits { OnOk result (IsFitting followed.now) }
{
    let inferred = &followed.inferred;
    let unit = &inferred.unit;
    let summary = inferred.summary.as_slice();
    push_functions(
        alloc,
        out,
        unit,
        summary,
        inferred.solved.as_slice(),
        &followed.beyond,
    )?;
    push_ranges(out, unit.env.identifiers.as_slice())?;
    push_reports(alloc, out, inferred.reports.as_slice())
}
