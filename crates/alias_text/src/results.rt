//! What was inferred of a unit, as lines.
ghost use Rattle.std.specs.Prelude.{◌≡◌, ◌++◌, OnOk, map, option_map};
ghost use Rattle.std.specs.List.{AllByRecursion};
ghost use Rattle.std.specs.Option.{option_copied};
ghost use Rattle.alias_text.specs.Certificates.{state_lines, table_lines};
ghost use Rattle.alias_text.specs.Results.{function_of, certify_only, entry_text, blocks_text, found_text, function_text, functions_text, listing_text, result_text};
ghost use Rattle.alias_text.specs.Fitting.{SmallTemporary, FittingState, FittingEntry, FittingEntries, FittingSolved, AreFitting, IfCertify};

use crate::certificates::{push_state, push_tables, push_visits};
use crate::counts::push_counts;
use crate::detail::Detail;
use crate::functions::{push_block_head, push_block_lines, push_function_head};
use crate::ranges::push_ranges;
use crate::reports::push_reports;
use crate::summaries::push_summary;
use alias_base::{FunctionId, Text};
use alias_effects::{BlockEntry, Solved};
use alias_hir::effect::AliasingEffect;
use alias_hir::env::Unit;
use alias_hir::hir::HirFunction;
use alias_hir::report::Report;
use alias_lattice::InferenceState;
use std::alloc::{AllocError, Global};

/// The function of the unit with this number, which is the root at `None`.
pub fn function_of(unit: &Unit, function: Option<FunctionId>) -> Option<&HirFunction>
    ensures { option_copied result ≡ function_of unit.now function }
{
    match function {
        None => Some(&unit.function),
        Some(id) => unit.env.functions.as_slice().get(id.0 as usize),
    }
}

/// Appends an entry state where a certificate is printed.
fn push_entry_state(
    out: &mut Text,
    detail: Detail,
    state: &InferenceState,
) -> Result<(), AllocError>
    ensures text { OnOk result (out.new ≡ out.old ++ certify_only detail (state_lines state.now)) }
    ensures fits { OnOk result (IfCertify detail (FittingState state.now)) }
{
    match detail {
        Detail::Certify => push_state(out, state),
        Detail::Infer | Detail::Counts => Ok(()),
    }
}

fn push_entry(
    out: &mut Text,
    detail: Detail,
    func: &HirFunction,
    entry: &BlockEntry,
) -> Result<(), AllocError>
    ensures text { OnOk result (out.new ≡ out.old ++ entry_text detail func.now entry.now) }
    ensures fits { OnOk result (IfCertify detail (FittingEntry func.now entry.now)) }
{
    push_block_head(out, entry.block)?;
    push_entry_state(out, detail, &entry.state)?;
    push_block_lines(out, func, entry.block)?;
    Ok(())
}

fn push_entries(
    out: &mut Text,
    detail: Detail,
    func: &HirFunction,
    entries: &[BlockEntry],
) -> Result<(), AllocError>
    ensures text { OnOk result (out.new ≡ out.old ++ blocks_text detail func.now entries.now) }
    ensures fits { OnOk result (IfCertify detail (AllByRecursion (FittingEntry func.now) entries.now)) }
{
    for entry in entries {
        push_entry(out, detail, func, entry)?;
    }
    Ok(())
}

/// Appends the blocks of a function that are reached: nothing where the function isn't there.
fn push_found(
    out: &mut Text,
    detail: Detail,
    func: Option<&HirFunction>,
    entries: &[BlockEntry],
) -> Result<(), AllocError>
    ensures text { OnOk result (out.new ≡ out.old ++ found_text detail (option_map (λ f. f.now) func.entry) entries.now) }
    ensures fits { OnOk result (IfCertify detail (FittingEntries (option_map (λ f. f.now) func.entry) entries.now)) }
{
    match func {
        Some(func) => push_entries(out, detail, func, entries),
        None => Ok(()),
    }
}

/// Appends the tables of a function's solution where a certificate is printed.
fn push_tables_of(
    alloc: Global,
    out: &mut Text,
    detail: Detail,
    solved: &Solved,
) -> Result<(), AllocError>
    ensures text { OnOk result (out.new ≡ out.old ++ certify_only detail (table_lines solved.now)) }
    ensures fits { OnOk result (IfCertify detail (AllByRecursion SmallTemporary solved.now.temporaries)) }
{
    match detail {
        Detail::Certify => push_tables(alloc, out, solved),
        Detail::Infer | Detail::Counts => Ok(()),
    }
}

fn push_function(
    alloc: Global,
    out: &mut Text,
    detail: Detail,
    unit: &Unit,
    summary: &[AliasingEffect],
    solved: &Solved,
) -> Result<(), AllocError>
    ensures text { OnOk result (out.new ≡ out.old ++ function_text detail unit.now summary.now solved.now) }
    ensures fits { OnOk result (IfCertify detail (FittingSolved unit.now solved.now)) }
{
    push_function_head(out, solved.function)?;
    if detail == Detail::Certify {
        push_visits(out, solved.visits.as_slice())?;
    }
    push_found(
        out,
        detail,
        function_of(unit, solved.function),
        solved.entries.as_slice(),
    )?;
    push_tables_of(alloc, out, detail, solved)?;
    push_summary(out, unit, summary, solved.function)?;
    Ok(())
}

fn push_functions(
    alloc: Global,
    out: &mut Text,
    detail: Detail,
    unit: &Unit,
    summary: &[AliasingEffect],
    solved: &[Solved],
) -> Result<(), AllocError>
    ensures text { OnOk result (out.new ≡ out.old ++ functions_text detail unit.now summary.now solved.now) }
    ensures fits { OnOk result (IfCertify detail (AreFitting unit.now solved.now)) }
{
    for of_function in solved {
        push_function(alloc, out, detail, unit, summary, of_function)?;
    }
    Ok(())
}

/// Appends the functions, the mutable ranges and the reports.
fn push_listing(
    alloc: Global,
    out: &mut Text,
    detail: Detail,
    unit: &Unit,
    solved: &[Solved],
    summary: &[AliasingEffect],
    reports: &[Report],
) -> Result<(), AllocError>
    ensures text { OnOk result (out.new ≡ out.old ++ listing_text detail unit.now solved.now summary.now reports.now) }
    ensures fits { OnOk result (IfCertify detail (AreFitting unit.now solved.now)) }
{
    push_functions(alloc, out, detail, unit, summary, solved)?;
    push_ranges(out, unit.env.identifiers.as_slice())?;
    push_reports(alloc, out, reports)
}

/// Appends what was inferred of a unit, where it is recorded on the unit: function by function a line for the
/// function, for each block that is reached a line and those of its effects, and those of the summary, of which
/// `summary` is the root's; then the mutable ranges, and the reports. `Certify` has besides the visits, the entry
/// states, the interned effects and the temporaries, and `Counts` only how many there are. docs/FORMAT.md has the form of
/// the lines. An `Err` is out of memory: `out` may then hold a part of it.
pub fn push_result(
    alloc: Global,
    out: &mut Text,
    detail: Detail,
    unit: &Unit,
    solved: &[Solved],
    summary: &[AliasingEffect],
    reports: &[Report],
) -> Result<(), AllocError>
    ensures text { OnOk result (out.new ≡ out.old ++ result_text detail unit.now solved.now summary.now reports.now) }
    ensures fits { OnOk result (IfCertify detail (AreFitting unit.now solved.now)) }
{
    match detail {
        Detail::Infer | Detail::Certify => {
            push_listing(alloc, out, detail, unit, solved, summary, reports)
        }
        Detail::Counts => push_counts(out, unit, solved, reports),
    }
}
