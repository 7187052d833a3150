//! Reports: what the author of the code is told.

ghost use Rattle.std.specs.Prelude.{◌≡◌, ◌++◌, option_map, slice_get, IfOk, OnOk};
ghost use Rattle.alias_hir.specs.Reports.{name_text, printed_identifier, identifier_name, identifier_span, either_span, uninitialized_labels, uninitialized_report, not_settled_report};

use crate::env::{Environment, Identifier, IdentifierName};
use crate::place::Span;
use crate::printed::push_type;
use crate::types::type_of;
use alias_base::{IdentifierId, List, Text, TryClone};
use std::alloc::{AllocError, Global};

/// What a report is about.
#[derive(Clone, Copy, Debug, PartialEq, Eq)]
pub enum ErrorCategory {
    Invariant,
    Todo,
    Immutability,
    Globals,
    Purity,
    IncompatibleLibrary,
}

/// A span that a report points at, with what is said of it.
#[derive(PartialEq)]
pub struct Label {
    pub span: Span,
    pub text: Option<Text>,
}

impl Drop for Label {
    fn drop(self) {
        let Label { span: _, text: _ } = self;
    }
}

/// An interned report as effects name it. Reports that say the same of one identifier have one identity; each
/// of them that points at something else is an instance of its own.
#[derive(Clone, Copy, Debug, PartialEq, Eq)]
pub struct ReportId {
    pub identity: u32,
    pub instance: u32,
}

/// An interned report, of which it is not known yet whether it is recorded, with the identifier that it is about.
pub struct Interned {
    pub identifier: IdentifierId,
    pub report: Report,
}

impl Drop for Interned {
    fn drop(self) {
        let Interned {
            identifier: _,
            report: _,
        } = self;
    }
}

/// A report.
#[derive(PartialEq)]
pub struct Report {
    pub category: ErrorCategory,
    pub message: Text,
    pub help: Option<Text>,
    pub labels: List<Label>,
}

impl Drop for Report {
    fn drop(self) {
        let Report {
            category: _,
            message: _,
            help: _,
            labels: _,
        } = self;
    }
}

impl TryClone for Label {
    fn try_clone(&self, alloc: Global) -> Result<Label, AllocError> {
        Ok(Label {
            span: self.span,
            text: self.text.try_clone(alloc)?,
        })
    }
}

impl TryClone for Report {
    fn try_clone(&self, alloc: Global) -> Result<Report, AllocError> {
        Ok(Report {
            category: self.category,
            message: self.message.try_clone(alloc)?,
            help: self.help.try_clone(alloc)?,
            labels: self.labels.try_clone(alloc)?,
        })
    }
}

impl IdentifierName {
    /// The text of the name.
    pub fn value(&self) -> &str
        ensures { result.now ≡ name_text self.now }
    {
        match self {
            IdentifierName::Named(text) | IdentifierName::Promoted(text) => text.as_str(),
        }
    }
}

/// Appends the identifier's name, or nothing where there is none.
fn push_name(text: &mut Text, identifier: Option<&Identifier>) -> Result<(), AllocError>
    ensures { OnOk result (text.new ≡ text.old ++ identifier_name (option_map (λ i. i.now) identifier.entry)) }
{
    match identifier {
        Some(known) => match &known.name {
            Some(name) => text.push_str(name.value()),
            None => Ok(()),
        },
        None => Ok(()),
    }
}

/// Appends the identifier's name, `$`, its number and its type.
fn push_identifier(
    text: &mut Text,
    env: &Environment,
    identifier: IdentifierId,
) -> Result<(), AllocError>
    ensures { OnOk result (text.new ≡ text.old ++ printed_identifier env.now identifier) }
{
    push_name(text, env.identifiers.get(identifier.0 as usize))?;
    text.push_str("$")?;
    text.push_number(identifier.0 as u64)?;
    match type_of(env, identifier) {
        Some(ty) => push_type(text, ty),
        None => Ok(()),
    }
}

/// The given span, or else the identifier's own.
fn span_of(env: &Environment, identifier: IdentifierId, span: Option<Span>) -> Option<Span>
    ensures { result ≡ either_span span (identifier_span (slice_get env.now.identifiers identifier.0)) }
{
    match span {
        Some(given) => Some(given),
        None => match env.identifiers.get(identifier.0 as usize) {
            Some(known) => known.span,
            None => None,
        },
    }
}

fn uninitialized_labels(alloc: Global, span: Option<Span>) -> Result<List<Label>, AllocError>
    ensures { IfOk result (λ l. l ≡ uninitialized_labels span) }
{
    let mut labels = List::new(alloc);
    if let Some(span) = span {
        let text = Some(Text::from_str(alloc, "this is uninitialized")?);
        labels.push(Label { span, text })?;
    }
    Ok(labels)
}

/// The report where an identifier is read that has no value. It points at the given span, or else at the
/// identifier's own, or at nothing where neither is there. The one error is out of memory.
pub fn uninitialized_report(
    alloc: Global,
    env: &Environment,
    identifier: IdentifierId,
    span: Option<Span>,
) -> Result<Report, AllocError>
    ensures { IfOk result (λ r. r ≡ uninitialized_report env.now identifier span) }
{
    let mut help = Text::from_str(alloc, "<unknown> ")?;
    push_identifier(&mut help, env, identifier)?;
    Ok(Report {
        category: ErrorCategory::Invariant,
        message: Text::from_str(
            alloc,
            "[InferMutationAliasingEffects] Expected value kind to be initialized",
        )?,
        help: Some(help),
        labels: uninitialized_labels(alloc, span_of(env, identifier, span))?,
    })
}

/// The report where the states of a function's blocks were not settled after 100 rounds. It points at
/// nothing. The one error is out of memory.
pub fn not_settled_report(alloc: Global) -> Result<Report, AllocError>
    ensures { IfOk result (λ r. r ≡ not_settled_report) }
{
    Ok(Report {
        category: ErrorCategory::Invariant,
        message: Text::from_str(
            alloc,
            "[InferMutationAliasingEffects] Potential infinite loop: A value, temporary place, or effect was not cached properly",
        )?,
        help: None,
        labels: List::new(alloc),
    })
}
