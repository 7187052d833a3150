//! The runs that the text names, in its order.

use crate::analyses::{Analysis, print_analysis};
use crate::endings::{checked, inferred};
use crate::print_fact;
use alias_base::List;
use alias_inner_passes::FailingPasses;
use alias_rules::check::Checked;
use std::alloc::Global;

/// Passes whose calls of these numbers fail.
fn failing(alloc: Global, words: &str) -> FailingPasses {
    let mut calls = List::new(alloc);
    for word in words.split_whitespace() {
        if let Ok(call) = word.parse::<u64>() {
            let _ = calls.push(call);
        }
    }
    FailingPasses::new(calls)
}

/// The analysis that the word names; `None` where it names an inference.
fn analysis_of(word: &str) -> Option<Analysis> {
    match word {
        "analyse" => Some(Analysis::HandingOut),
        "keep" => Some(Analysis::Keeping),
        "drop" => Some(Analysis::Dropping),
        _ => None,
    }
}

/// Prints what an analysis of the unit, or its inference, comes to with these passes.
fn print_checked(
    rt: &impl Print,
    alloc: Global,
    analysis: Option<Analysis>,
    unit: Checked,
    passes: &mut FailingPasses,
) {
    match analysis {
        Some(analysis) => print_analysis(rt, alloc, analysis, unit, passes),
        None => print_fact(rt, "ends", &inferred(alloc, unit, passes)),
    }
}

fn print_run(rt: &impl Print, alloc: Global, unit: &str, word: &str, calls: &str) {
    if let Some(unit) = checked(alloc, unit) {
        let mut passes = failing(alloc, calls);
        print_checked(rt, alloc, analysis_of(word), unit, &mut passes);
    }
}

/// Prints the line, and what the run that it names comes to.
fn print_line(rt: &impl Print, alloc: Global, unit: &str, line: &str) {
    let _ = rt.println(line);
    let (word, calls) = line.split_once(' ').unwrap_or((line, ""));
    if word != "#" {
        print_run(rt, alloc, unit, word, calls);
    }
}

/// Prints what comes of the lines behind a unit, which is on the first line.
fn print_part(rt: &impl Print, alloc: Global, part: &str) {
    let (unit, runs) = part.split_once('\n').unwrap_or((part, ""));
    for line in runs.lines() {
        print_line(rt, alloc, unit, line);
    }
}

/// Prints what each run of the text comes to: `unit` begins a line with the unit of the runs behind it.
pub(crate) fn print_runs(rt: &impl Print, alloc: Global, text: &str) {
    for part in text.split("\nunit ") {
        print_part(rt, alloc, part);
    }
}
