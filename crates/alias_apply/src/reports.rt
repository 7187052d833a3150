//! The reports of steps.

ghost use Rattle.std.specs.Prelude.{◌≡◌, ◌++◌, codes, slice_get, option_map, IfOk, OnOk};
ghost use Rattle.alias_hir.specs.ReportNumbers.{same_span};
ghost use Rattle.alias_apply.specs.Reports.{name_or, name_in, named, labels_at, late_write_reason, write_reason, write_report, access_labels, access_span, hoisting_labels, hoisting_report, impure_name, impure_report, impure_part_report, incompatible_report, spread_report};

use alias_base::{IdentifierId, List, Text, TryClone};
use alias_hir::effect::ValueReason;
use alias_hir::env::{Environment, IdentifierName};
use alias_hir::place::{Place, Span};
use alias_hir::report::{ErrorCategory, Label, Report};
use alias_lattice::ReasonSet;
use std::alloc::{AllocError, Global};

/// Appends the name in backquotes, or else the word.
fn push_name_or(
    text: &mut Text,
    name: Option<&IdentifierName>,
    other: &str,
) -> Result<(), AllocError>
    ensures { OnOk result (text.new ≡ text.old ++ name_or other.now (option_map (λ n. n.now) name.entry)) }
{
    match name {
        Some(IdentifierName::Named(name)) => {
            text.push_str("`")?;
            text.push_str(name.as_str())?;
            text.push_str("`")
        }
        _ => text.push_str(other),
    }
}

fn name_of(env: &Environment, identifier: IdentifierId) -> Option<&IdentifierName>
    ensures { option_map (λ n. n.now) result ≡ name_in (slice_get env.now.identifiers identifier.0) }
{
    match env.identifiers.get(identifier.0 as usize) {
        Some(known) => known.name.as_ref(),
        None => None,
    }
}

/// The name in backquotes or else the word, and what follows.
fn reported_of(
    alloc: Global,
    env: &Environment,
    identifier: IdentifierId,
    other: &str,
    reported: &str,
) -> Result<Text, AllocError>
    ensures { IfOk result (λ t. t ≡ named env.now identifier other.now ++ reported.now) }
{
    let mut text = Text::new(alloc);
    push_name_or(&mut text, name_of(env, identifier), other)?;
    text.push_str(reported)?;
    Ok(text)
}

fn labels_at(
    alloc: Global,
    span: Option<Span>,
    text: Option<Text>,
) -> Result<List<Label>, AllocError>
    ensures { IfOk result (λ l. l ≡ labels_at span text) }
{
    let mut labels = List::new(alloc);
    if let Some(span) = span {
        labels.push(Label { span, text })?;
    }
    Ok(labels)
}

fn late_write_reason(reasons: &ReasonSet) -> &'static str
    ensures { result.now ≡ late_write_reason reasons.now }
{
    if reasons.contains(&ValueReason::State) {
        "Modifying a value returned from 'useState()', which should not be modified directly. Use the setter function to update instead"
    } else if reasons.contains(&ValueReason::ReducerState) {
        "Modifying a value returned from 'useReducer()', which should not be modified directly. Use the dispatch function to update instead"
    } else if reasons.contains(&ValueReason::Effect) {
        "Modifying a value used previously in an effect function or as an effect dependency is not allowed. Consider moving the modification before calling useEffect()"
    } else if reasons.contains(&ValueReason::HookCaptured) {
        "Modifying a value previously passed as an argument to a hook is not allowed. Consider moving the modification before calling the hook"
    } else if reasons.contains(&ValueReason::HookReturn) {
        "Modifying a value returned from a hook is not allowed. Consider moving the modification into the hook where the value is constructed"
    } else {
        "This modifies a variable that React considers immutable"
    }
}

/// Why a value of these reasons isn't to be written.
pub fn write_reason(reasons: &ReasonSet) -> &'static str
    ensures { result.now ≡ write_reason reasons.now }
{
    if reasons.contains(&ValueReason::Global) {
        "Modifying a variable defined outside a component or hook is not allowed. Consider using an effect"
    } else if reasons.contains(&ValueReason::JsxCaptured) {
        "Modifying a value used previously in JSX is not allowed. Consider moving the modification before the JSX"
    } else if reasons.contains(&ValueReason::Context) {
        "Modifying a value returned from 'useContext()' is not allowed."
    } else if reasons.contains(&ValueReason::KnownReturnSignature) {
        "Modifying a value returned from a function whose return value should not be mutated"
    } else if reasons.contains(&ValueReason::ReactiveFunctionArgument) {
        "Modifying component props or hook arguments is not allowed. Consider using a local variable instead"
    } else {
        late_write_reason(reasons)
    }
}

/// What is reported of a write of a value that isn't to be written.
pub fn write_report(
    alloc: Global,
    env: &Environment,
    identifier: IdentifierId,
    span: Option<Span>,
    reasons: &ReasonSet,
) -> Result<Report, AllocError>
    ensures { IfOk result (λ r. r ≡ write_report env.now identifier span reasons.now) }
{
    let reported = reported_of(alloc, env, identifier, "value", " cannot be modified")?;
    Ok(Report {
        category: ErrorCategory::Immutability,
        message: Text::from_str(alloc, "This value cannot be modified")?,
        help: Some(Text::from_str(alloc, write_reason(reasons))?),
        labels: labels_at(alloc, span, Some(reported))?,
    })
}

fn same_span(a: Span, b: Span) -> bool
    ensures { result ≡ same_span a b }
{
    a.start == b.start && a.end == b.end
}

fn access_labels(
    alloc: Global,
    access: Option<Span>,
    span: Option<Span>,
    text: Text,
) -> Result<List<Label>, AllocError>
    ensures { IfOk result (λ l. l ≡ access_labels access span text) }
{
    if let (Some(a), Some(s)) = (access, span) {
        if same_span(a, s) {
            return Ok(List::new(alloc));
        }
    }
    labels_at(alloc, access, Some(text))
}

fn access_span(access: Option<Place>) -> Option<Span>
    ensures { result ≡ access_span access }
{
    match access {
        Some(place) => place.span,
        None => None,
    }
}

/// Appends the label of the span, if it is there.
fn push_label(labels: &mut List<Label>, span: Option<Span>, text: Text) -> Result<(), AllocError>
    ensures { OnOk result (labels.new ≡ labels.old ++ labels_at span (Some text)) }
{
    if let Some(span) = span {
        labels.push(Label {
            span,
            text: Some(text),
        })?;
    }
    Ok(())
}

fn hoisting_labels(
    alloc: Global,
    env: &Environment,
    identifier: IdentifierId,
    span: Option<Span>,
    access: Option<Place>,
) -> Result<List<Label>, AllocError>
    ensures { IfOk result (λ l. l ≡ hoisting_labels env.now identifier span access) }
{
    let accessed = reported_of(
        alloc,
        env,
        identifier,
        "variable",
        " accessed before it is declared",
    )?;
    let declared = reported_of(alloc, env, identifier, "variable", " is declared here")?;
    let mut labels = access_labels(alloc, access_span(access), span, accessed)?;
    push_label(&mut labels, span, declared)?;
    Ok(labels)
}

/// What is reported of a write of a variable that is read before it is declared.
pub fn hoisting_report(
    alloc: Global,
    env: &Environment,
    identifier: IdentifierId,
    span: Option<Span>,
    access: Option<Place>,
) -> Result<Report, AllocError>
    ensures { IfOk result (λ r. r ≡ hoisting_report env.now identifier span access) }
{
    let help = reported_of(
        alloc,
        env,
        identifier,
        "This variable",
        " is accessed before it is declared, which prevents the earlier access from updating when this value changes over time",
    )?;
    Ok(Report {
        category: ErrorCategory::Immutability,
        message: Text::from_str(alloc, "Cannot access variable before it is declared")?,
        help: Some(help),
        labels: hoisting_labels(alloc, env, identifier, span, access)?,
    })
}

fn push_impure_name(text: &mut Text, name: Option<&Text>) -> Result<(), AllocError>
    ensures { OnOk result (text.new ≡ text.old ++ impure_name (option_map (λ n. n.now) name.entry)) }
{
    match name {
        Some(name) => {
            text.push_str("`")?;
            text.push_str(name.as_str())?;
            text.push_str("` is an impure function. ")
        }
        None => Ok(()),
    }
}

/// What is reported of a call of an impure function, whose signature may name it.
pub fn impure_report(
    alloc: Global,
    name: Option<&Text>,
    span: Option<Span>,
) -> Result<Report, AllocError>
    ensures { IfOk result (λ r. r ≡ impure_report (option_map (λ n. n.now) name.entry) span) }
{
    let mut help = Text::new(alloc);
    push_impure_name(&mut help, name)?;
    help.push_str(
        "Calling an impure function can produce unstable results that update unpredictably when the component happens to re-render. (https://react.dev/reference/rules/components-and-hooks-must-be-pure#components-and-hooks-must-be-idempotent)",
    )?;
    let reported = Text::from_str(alloc, "Cannot call impure function")?;
    Ok(Report {
        category: ErrorCategory::Purity,
        message: Text::from_str(alloc, "Cannot call impure function during render")?,
        help: Some(help),
        labels: labels_at(alloc, span, Some(reported))?,
    })
}

/// What is reported of an impure call that an aliasing part makes.
pub fn impure_part_report(alloc: Global) -> Result<Report, AllocError>
    ensures { IfOk result (λ r. r ≡ impure_part_report) }
{
    Ok(Report {
        category: ErrorCategory::Purity,
        message: Text::from_str(alloc, "Impure function call")?,
        help: None,
        labels: List::new(alloc),
    })
}

/// What is reported of a call of a function that can't be memoized.
pub fn incompatible_report(
    alloc: Global,
    span: Option<Span>,
    text: &Text,
) -> Result<Report, AllocError>
    ensures { IfOk result (λ r. r ≡ incompatible_report span text.now) }
{
    let reported = text.try_clone(alloc)?;
    let help = Text::from_str(
        alloc,
        "This API returns functions which cannot be memoized without leading to stale UI. To prevent this, by default React Compiler will skip memoizing this component/hook. However, you may see issues if values from this API are passed to other components/hooks that are memoized",
    )?;
    Ok(Report {
        category: ErrorCategory::IncompatibleLibrary,
        message: Text::from_str(alloc, "Use of incompatible library")?,
        help: Some(help),
        labels: labels_at(alloc, span, Some(reported))?,
    })
}

/// What is told of a spread argument that would be frozen.
pub fn spread_report(alloc: Global, span: Option<Span>) -> Result<Report, AllocError>
    ensures { IfOk result (λ r. r ≡ spread_report span) }
{
    Ok(Report {
        category: ErrorCategory::Todo,
        message: Text::from_str(alloc, "Support spread syntax for hook arguments")?,
        help: None,
        labels: labels_at(alloc, span, None)?,
    })
}
