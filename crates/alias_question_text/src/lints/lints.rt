//! Reports with the places that they come from, as lines.
ghost use Rattle.std.specs.Prelude.{◌≡◌, ◌++◌, length, OnOk};
ghost use Rattle.std.specs.List.{flat_map};
ghost use Rattle.alias_question_text.specs.lints.Lints.{place_text, site_text, lint_line, lints_text};

use alias_base::{InstructionId, Text};
use alias_lint::{Lint, Site};
use alias_text::functions::push_function_name;
use alias_text::reports::print_report;
use std::alloc::{AllocError, Global};

/// Appends the number of an instruction, or `end`.
fn push_place(out: &mut Text, instruction: Option<InstructionId>) -> Result<(), AllocError>
    ensures { OnOk result (out.new ≡ out.old ++ place_text instruction) }
{
    match instruction {
        None => out.push_str("end"),
        Some(id) => out.push_number(u64::from(id.0)),
    }
}

fn push_site(out: &mut Text, site: Site) -> Result<(), AllocError>
    ensures { OnOk result (out.new ≡ out.old ++ site_text site) }
{
    push_function_name(out, site.function)?;
    out.push_str(" ")?;
    out.push_number(u64::from(site.block.0))?;
    out.push_str(" ")?;
    push_place(out, site.instruction)
}

fn push_lint_line(alloc: Global, out: &mut Text, lint: &Lint) -> Result<(), AllocError>
    ensures { OnOk result (out.new ≡ out.old ++ lint_line lint.now) }
{
    out.push_str("lint ")?;
    push_site(out, lint.site)?;
    out.push_str(" ")?;
    let report = print_report(alloc, &lint.report)?;
    out.push_str(report.as_str())?;
    out.push_str("\n")
}

fn push_lint_lines(alloc: Global, out: &mut Text, lints: &[Lint]) -> Result<(), AllocError>
    ensures { OnOk result (out.new ≡ out.old ++ flat_map lint_line lints.now) }
{
    for lint in lints {
        push_lint_line(alloc, out, lint)?;
    }
    Ok(())
}

/// Appends a line for each of the reports in order, and then one with their number. An `Err` is out of memory:
/// `out` may then hold a part of it.
pub fn push_lints(alloc: Global, out: &mut Text, lints: &[Lint]) -> Result<(), AllocError>
    ensures { OnOk result (out.new ≡ out.old ++ lints_text lints.now) }
{
    push_lint_lines(alloc, out, lints)?;
    out.push_str("lints ")?;
    out.push_number(lints.len() as u64)?;
    out.push_str("\n")
}
