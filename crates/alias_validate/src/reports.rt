//! The reports of the validations. The one error is out of memory.
ghost use Rattle.std.specs.Prelude.{◌≡◌, ◌++◌, take, length, IfOk, OnOk};
ghost use Rattle.alias_validate.specs.Reports.{quoted_or, variable_or, label, async_report, reassigned_report, frozen_labels, frozen_report};

use crate::mutation::ContextMutation;
use alias_base::{IdentifierId, List, Text};
use alias_hir::env::{Environment, IdentifierName};
use alias_hir::place::{Place, Span};
use alias_hir::report::{ErrorCategory, Label, Report};
use std::alloc::{AllocError, Global};

fn push_quoted_or(
    text: &mut Text,
    name: &Option<IdentifierName>,
    word: &str,
) -> Result<(), AllocError>
    ensures { OnOk result (text.new ≡ text.old ++ quoted_or name.now word.now) }
{
    match name {
        Some(IdentifierName::Named(name)) => {
            text.push_str("`")?;
            text.push_str(name.as_str())?;
            text.push_str("`")
        }
        _ => text.push_str(word),
    }
}

/// Appends the identifier's name in backquotes, or else the word.
fn push_variable_or(
    text: &mut Text,
    env: &Environment,
    identifier: IdentifierId,
    word: &str,
) -> Result<(), AllocError>
    ensures { OnOk result (text.new ≡ text.old ++ variable_or env.now identifier word.now) }
{
    match env.identifiers.get(identifier.0 as usize) {
        Some(known) => push_quoted_or(text, &known.name, word),
        None => text.push_str(word),
    }
}

/// The texts with the identifier's name between them.
fn around(
    alloc: Global,
    before: &str,
    env: &Environment,
    identifier: IdentifierId,
    word: &str,
    after: &str,
) -> Result<Text, AllocError>
    ensures { IfOk result (λ t. t ≡ before.now ++ variable_or env.now identifier word.now ++ after.now) }
{
    let mut text = Text::from_str(alloc, before)?;
    push_variable_or(&mut text, env, identifier, word)?;
    text.push_str(after)?;
    Ok(text)
}

/// The texts, the second of which is the identifier's name.
fn ending(
    alloc: Global,
    before: &str,
    env: &Environment,
    identifier: IdentifierId,
    word: &str,
) -> Result<Text, AllocError>
    ensures { IfOk result (λ t. t ≡ before.now ++ variable_or env.now identifier word.now) }
{
    let mut text = Text::from_str(alloc, before)?;
    push_variable_or(&mut text, env, identifier, word)?;
    Ok(text)
}

fn push_label(labels: &mut List<Label>, span: Option<Span>, text: Text) -> Result<(), AllocError>
    ensures { OnOk result (labels.new ≡ labels.old ++ label span text) }
{
    if let Some(span) = span {
        labels.push(Label {
            span,
            text: Some(text),
        })?;
    }
    Ok(())
}

/// What is told where a place is reassigned in an async function.
pub fn async_report(alloc: Global, env: &Environment, place: Place) -> Result<Report, AllocError>
    ensures { IfOk result (λ r. r ≡ async_report env.now place) }
{
    let text = ending(alloc, "Cannot reassign ", env, place.identifier, "variable")?;
    let mut labels = List::new(alloc);
    push_label(&mut labels, place.span, text)?;
    Ok(Report {
        category: ErrorCategory::Immutability,
        message: Text::from_str(alloc, "Cannot reassign variable in async function")?,
        help: Some(Text::from_str(
            alloc,
            "Reassigning a variable in an async function can cause inconsistent behavior on subsequent renders. Consider using state instead",
        )?),
        labels,
    })
}

/// What is told where a place is reassigned after rendering.
pub fn reassigned_report(
    alloc: Global,
    env: &Environment,
    place: Place,
) -> Result<Report, AllocError>
    ensures { IfOk result (λ r. r ≡ reassigned_report env.now place) }
{
    let help = around(
        alloc,
        "Reassigning ",
        env,
        place.identifier,
        "variable",
        " after render has completed can cause inconsistent behavior on subsequent renders. Consider using state instead",
    )?;
    let text = around(
        alloc,
        "Cannot reassign ",
        env,
        place.identifier,
        "variable",
        " after render completes",
    )?;
    let mut labels = List::new(alloc);
    push_label(&mut labels, place.span, text)?;
    Ok(Report {
        category: ErrorCategory::Immutability,
        message: Text::from_str(alloc, "Cannot reassign variable after render completes")?,
        help: Some(help),
        labels,
    })
}

fn frozen_labels(
    alloc: Global,
    env: &Environment,
    operand: Place,
    mutation: ContextMutation,
) -> Result<List<Label>, AllocError>
    ensures { IfOk result (λ l. l ≡ frozen_labels env.now operand mutation) }
{
    let here = around(
        alloc,
        "This function may (indirectly) reassign or modify ",
        env,
        mutation.identifier,
        "a local variable",
        " after render",
    )?;
    let there = ending(
        alloc,
        "This modifies ",
        env,
        mutation.identifier,
        "a local variable",
    )?;
    let mut labels = List::new(alloc);
    push_label(&mut labels, operand.span, here)?;
    push_label(&mut labels, mutation.span, there)?;
    Ok(labels)
}

/// What is told where an operand is frozen whose function mutates an identifier.
pub fn frozen_report(
    alloc: Global,
    env: &Environment,
    operand: Place,
    mutation: ContextMutation,
) -> Result<Report, AllocError>
    ensures { IfOk result (λ r. r ≡ frozen_report env.now operand mutation) }
{
    let help = around(
        alloc,
        "This argument is a function which may reassign or mutate ",
        env,
        mutation.identifier,
        "a local variable",
        " after render, which can cause inconsistent behavior on subsequent renders. Consider using state instead",
    )?;
    Ok(Report {
        category: ErrorCategory::Immutability,
        message: Text::from_str(
            alloc,
            "Cannot modify local variables after render completes",
        )?,
        help: Some(help),
        labels: frozen_labels(alloc, env, operand, mutation)?,
    })
}

/// Records reports. After an `Err` some may be recorded.
pub fn record_reports(errors: &mut List<Report>, reports: List<Report>) -> Result<(), AllocError>
    ensures ok { OnOk result (errors.new ≡ errors.old ++ reports) }
    ensures before { take (length errors.old) errors.new ≡ errors.old }
{
    for report in reports.into_vec() {
        errors.push(report)?;
    }
    Ok(())
}
