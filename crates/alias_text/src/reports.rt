//! Reports, as lines.
ghost use Rattle.std.specs.Prelude.{◌≡◌, ◌++◌, OnOk, IfOk};
ghost use Rattle.std.specs.List.{flat_map};
ghost use Rattle.alias_text.specs.Reports.{category_word, optional_text, span_text, label_text, report_text, report_line, report_lines, reports_text};

use crate::quoting::push_quoted;
use alias_base::Text;
use alias_hir::place::Span;
use alias_hir::report::{ErrorCategory, Label, Report};
use std::alloc::{AllocError, Global};

fn category_word(category: ErrorCategory) -> &'static str
    ensures { result.now ≡ category_word category }
{
    match category {
        ErrorCategory::Invariant => "Invariant",
        ErrorCategory::Todo => "Todo",
        ErrorCategory::Immutability => "Immutability",
        ErrorCategory::Globals => "Globals",
        ErrorCategory::Purity => "Purity",
        ErrorCategory::IncompatibleLibrary => "IncompatibleLibrary",
    }
}

/// Appends a text as a JSON text, or `-` where there is none.
fn push_optional(alloc: Global, out: &mut Text, text: &Option<Text>) -> Result<(), AllocError>
    ensures { OnOk result (out.new ≡ out.old ++ optional_text text.now) }
{
    match text {
        Some(text) => push_quoted(alloc, out, text.as_str()),
        None => out.push_str("-"),
    }
}

fn push_span(out: &mut Text, span: Span) -> Result<(), AllocError>
    ensures { OnOk result (out.new ≡ out.old ++ span_text span) }
{
    out.push_number(u64::from(span.start))?;
    out.push_str("..")?;
    out.push_number(u64::from(span.end))
}

/// Appends what a label points at, and what it says.
fn push_label(alloc: Global, out: &mut Text, label: &Label) -> Result<(), AllocError>
    ensures { OnOk result (out.new ≡ out.old ++ label_text label.now) }
{
    out.push_str(" ")?;
    push_span(out, label.span)?;
    out.push_str(" ")?;
    push_optional(alloc, out, &label.text)
}

fn push_labels(alloc: Global, out: &mut Text, labels: &[Label]) -> Result<(), AllocError>
    ensures { OnOk result (out.new ≡ out.old ++ flat_map label_text labels.now) }
{
    for label in labels {
        push_label(alloc, out, label)?;
    }
    Ok(())
}

fn push_report(alloc: Global, out: &mut Text, report: &Report) -> Result<(), AllocError>
    ensures { OnOk result (out.new ≡ out.old ++ report_text report.now) }
{
    out.push_str(category_word(report.category))?;
    out.push_str(" ")?;
    push_quoted(alloc, out, report.message.as_str())?;
    out.push_str(" ")?;
    push_optional(alloc, out, &report.help)?;
    push_labels(alloc, out, report.labels.as_slice())
}

fn push_report_line(alloc: Global, out: &mut Text, report: &Report) -> Result<(), AllocError>
    ensures { OnOk result (out.new ≡ out.old ++ report_line report.now) }
{
    out.push_str("report ")?;
    push_report(alloc, out, report)?;
    out.push_str("\n")
}

fn push_report_lines(alloc: Global, out: &mut Text, reports: &[Report]) -> Result<(), AllocError>
    ensures { OnOk result (out.new ≡ out.old ++ report_lines reports.now) }
{
    for report in reports {
        push_report_line(alloc, out, report)?;
    }
    Ok(())
}

/// Appends a line with the number of the reports, and then a line for each in order. An `Err` is out of
/// memory: `out` may then hold a part of it.
pub fn push_reports(alloc: Global, out: &mut Text, reports: &[Report]) -> Result<(), AllocError>
    ensures { OnOk result (out.new ≡ out.old ++ reports_text reports.now) }
{
    out.push_str("reports ")?;
    out.push_number(reports.len() as u64)?;
    out.push_str("\n")?;
    push_report_lines(alloc, out, reports)
}

/// The report as text: its category, its message, its help and its labels. An `Err` is out of memory.
pub fn print_report(alloc: Global, report: &Report) -> Result<Text, AllocError>
    ensures { IfOk result (λ text. text ≡ report_text report.now) }
{
    let mut out = Text::new(alloc);
    push_report(alloc, &mut out, report)?;
    Ok(out)
}
