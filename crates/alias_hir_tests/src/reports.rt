//! Reports that come with a refusal, and that are recorded.

use crate::print_fact;
use alias_base::IdentifierId;
use alias_hir::env::Environment;
use alias_hir::place::Span;
use alias_hir::report::{Report, not_settled_report, uninitialized_report};
use std::alloc::Global;

fn help_of(report: &Report) -> Option<&str> {
    match &report.help {
        Some(help) => Some(help.as_str()),
        None => None,
    }
}

fn first_span(report: &Report) -> Option<Span> {
    match report.labels.get(0) {
        Some(label) => Some(label.span),
        None => None,
    }
}

fn print_report(rt: &impl Print, name: &str, report: &Report) {
    let message = report.message.as_str();
    let fact = (report.category, message, help_of(report));
    print_fact(rt, name, &fact);
    let labels = (report.labels.len(), first_span(report));
    print_fact(rt, name, &labels);
}

/// Prints what is reported where the identifier is read without a value.
fn print_missing(rt: &impl Print, alloc: Global, env: &Environment, name: &str, number: u32) {
    if let Ok(report) = uninitialized_report(alloc, env, IdentifierId(number), None) {
        print_report(rt, name, &report);
    }
}

/// Prints that report, records it, and prints whether there are invariant errors before and after.
fn print_not_settled(rt: &impl Print, alloc: Global, env: &mut Environment) {
    if let Ok(report) = not_settled_report(alloc) {
        print_report(rt, "writes_that_a_function_is_not_settled", &report);
        let before = env.has_invariant_errors();
        let _ = env.record_diagnostic(report);
        let fact = (before, env.has_invariant_errors());
        print_fact(
            rt,
            "records_reports: invariant errors before and after",
            &fact,
        );
    }
}

pub(crate) fn print_reports(rt: &impl Print, alloc: Global, env: &mut Environment) {
    print_missing(rt, alloc, env, "writes_that_a_value_is_missing", 0);
    print_missing(rt, alloc, env, "writes_reports_of_what_is_in_no_table", 12);
    print_not_settled(rt, alloc, env);
}
