//! Reads and writes of variables outside of the function, and what is reported of the writes.
ghost use Rattle.std.specs.Prelude.{◌≡◌, ◌++◌, IfOk, OnOk};
ghost use Rattle.alias_signature.specs.Globals.{load_global_effects, global_effects, store_global_effects, globals_labels, globals_report, instruction_report};

use alias_base::{IdentifierId, List, Text};
use alias_hir::effect::{AliasingEffect, AliasingEffects, ValueKind, ValueReason};
use alias_hir::place::{Place, Span};
use alias_hir::report::{ErrorCategory, Label, Report, ReportId};
use alias_hir::value::InstructionValue;
use std::alloc::{AllocError, Global};

/// A read of the variable.
pub(crate) fn push_load_global(
    effects: &mut AliasingEffects,
    lvalue: &Place,
) -> Result<(), AllocError>
    ensures { OnOk result (effects.new ≡ effects.old ++ load_global_effects lvalue.now) }
{
    effects.push(AliasingEffect::Create {
        into: *lvalue,
        value: ValueKind::Global,
        reason: ValueReason::Global,
    })?;
    Ok(())
}

fn push_global(
    effects: &mut AliasingEffects,
    error: Option<ReportId>,
    value: &Place,
) -> Result<(), AllocError>
    ensures { OnOk result (effects.new ≡ effects.old ++ global_effects error value.now) }
{
    match error {
        Some(error) => effects.push(AliasingEffect::MutateGlobal {
            place: *value,
            error,
        })?,
        None => {}
    }
    Ok(())
}

/// A write of the variable.
pub(crate) fn push_store_global(
    effects: &mut AliasingEffects,
    error: Option<ReportId>,
    lvalue: &Place,
    value: &Place,
) -> Result<(), AllocError>
    ensures { OnOk result (effects.new ≡ effects.old ++ store_global_effects error lvalue.now value.now) }
{
    push_global(effects, error, value)?;
    effects.push(AliasingEffect::Assign {
        from: *value,
        into: *lvalue,
    })?;
    Ok(())
}

/// A text with the name between two others.
fn text_around(alloc: Global, before: &str, name: &str, after: &str) -> Result<Text, AllocError>
    ensures { IfOk result (λ t. t ≡ before.now ++ name.now ++ after.now) }
{
    let mut text = Text::from_str(alloc, before)?;
    text.push_str(name)?;
    text.push_str(after)?;
    Ok(text)
}

fn globals_labels(alloc: Global, name: &str, span: Option<Span>) -> Result<List<Label>, AllocError>
    ensures { IfOk result (λ l. l ≡ globals_labels name.now span) }
{
    let mut labels = List::new(alloc);
    if let Some(span) = span {
        let text = Some(text_around(alloc, "`", name, "` cannot be reassigned")?);
        labels.push(Label { span, text })?;
    }
    Ok(labels)
}

/// What is reported of a write of a global variable of that name. The one error is out of memory.
pub fn globals_report(alloc: Global, name: &str, span: Option<Span>) -> Result<Report, AllocError>
    ensures { IfOk result (λ r. r ≡ globals_report name.now span) }
{
    let help = text_around(
        alloc,
        "Variable `",
        name,
        "` is declared outside of the component/hook. Reassigning this value during render is a form of side effect, which can cause unpredictable behavior depending on when the component happens to re-render. If this variable is used in rendering, use useState instead. Otherwise, consider updating it in an effect. (https://react.dev/reference/rules/components-and-hooks-must-be-pure#side-effects-must-run-outside-of-render)",
    )?;
    Ok(Report {
        category: ErrorCategory::Globals,
        message: Text::from_str(
            alloc,
            "Cannot reassign variables declared outside of the component/hook",
        )?,
        help: Some(help),
        labels: globals_labels(alloc, name, span)?,
    })
}

/// What is reported of the instruction, and of which identifier: a write of a global variable is. The one error is out of
/// memory.
pub fn instruction_report(
    alloc: Global,
    value: &InstructionValue,
    span: Option<Span>,
) -> Result<Option<(IdentifierId, Report)>, AllocError>
    ensures { IfOk result (λ t. t ≡ instruction_report value.now span) }
{
    match value {
        InstructionValue::StoreGlobal { name, value } => Ok(Some((
            value.identifier,
            globals_report(alloc, name.as_str(), span)?,
        ))),
        _ => Ok(None),
    }
}
