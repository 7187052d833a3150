//! Effects as text.
ghost use Rattle.std.specs.Prelude.{◌≡◌, ◌++◌, OnOk, IfOk};
ghost use Rattle.std.specs.List.{flat_map};
ghost use Rattle.alias_text.specs.Lines.{kind_word, reason_word, mutation_text, spaced, one_text, pair_text, create_text, freeze_text, mutate_text, error_text, arg_text, apply_text, create_function_text, effect_text};

use alias_base::{FunctionId, Text};
use alias_hir::effect::{AliasingEffect, MutationReason, ValueKind, ValueReason};
use alias_hir::place::{Place, PlaceOrSpreadOrHole};
use alias_hir::report::ReportId;
use std::alloc::{AllocError, Global};

pub(crate) fn kind_word(kind: ValueKind) -> &'static str
    ensures { result.now ≡ kind_word kind }
{
    match kind {
        ValueKind::Primitive => "Primitive",
        ValueKind::Global => "Global",
        ValueKind::Frozen => "Frozen",
        ValueKind::Mutable => "Mutable",
        ValueKind::Context => "Context",
        ValueKind::MaybeFrozen => "MaybeFrozen",
    }
}

pub(crate) fn reason_word(reason: ValueReason) -> &'static str
    ensures { result.now ≡ reason_word reason }
{
    match reason {
        ValueReason::KnownReturnSignature => "KnownReturnSignature",
        ValueReason::State => "State",
        ValueReason::ReducerState => "ReducerState",
        ValueReason::Context => "Context",
        ValueReason::Effect => "Effect",
        ValueReason::HookCaptured => "HookCaptured",
        ValueReason::HookReturn => "HookReturn",
        ValueReason::Global => "Global",
        ValueReason::JsxCaptured => "JsxCaptured",
        ValueReason::StoreLocal => "StoreLocal",
        ValueReason::ReactiveFunctionArgument => "ReactiveFunctionArgument",
        ValueReason::Other => "Other",
    }
}

/// Appends a space and a number.
pub fn push_spaced(out: &mut Text, number: u64) -> Result<(), AllocError>
    ensures { OnOk result (out.new ≡ out.old ++ spaced number) }
{
    out.push_str(" ")?;
    out.push_number(number)
}

/// Appends a name and one identifier.
fn push_one(out: &mut Text, name: &str, place: &Place) -> Result<(), AllocError>
    ensures { OnOk result (out.new ≡ out.old ++ one_text name.now place.now) }
{
    out.push_str(name)?;
    push_spaced(out, u64::from(place.identifier.0))
}

/// Appends a name and two identifiers.
fn push_pair(out: &mut Text, name: &str, from: &Place, into: &Place) -> Result<(), AllocError>
    ensures { OnOk result (out.new ≡ out.old ++ pair_text name.now from.now into.now) }
{
    push_one(out, name, from)?;
    push_spaced(out, u64::from(into.identifier.0))
}

fn push_create(
    out: &mut Text,
    into: &Place,
    value: ValueKind,
    reason: ValueReason,
) -> Result<(), AllocError>
    ensures { OnOk result (out.new ≡ out.old ++ create_text into.now value reason) }
{
    push_one(out, "Create", into)?;
    out.push_str(" ")?;
    out.push_str(kind_word(value))?;
    out.push_str(" ")?;
    out.push_str(reason_word(reason))
}

fn push_freeze(out: &mut Text, value: &Place, reason: ValueReason) -> Result<(), AllocError>
    ensures { OnOk result (out.new ≡ out.old ++ freeze_text value.now reason) }
{
    push_one(out, "Freeze", value)?;
    out.push_str(" ")?;
    out.push_str(reason_word(reason))
}

fn push_mutation(out: &mut Text, reason: Option<MutationReason>) -> Result<(), AllocError>
    ensures { OnOk result (out.new ≡ out.old ++ mutation_text reason) }
{
    match reason {
        Some(MutationReason::AssignCurrentProperty) => out.push_str(" AssignCurrentProperty"),
        None => Ok(()),
    }
}

fn push_mutate(
    out: &mut Text,
    value: &Place,
    reason: Option<MutationReason>,
) -> Result<(), AllocError>
    ensures { OnOk result (out.new ≡ out.old ++ mutate_text value.now reason) }
{
    push_one(out, "Mutate", value)?;
    push_mutation(out, reason)
}

/// Appends a name, an identifier, and the number of the report of an effect that is an error.
fn push_error(out: &mut Text, name: &str, place: &Place, error: ReportId) -> Result<(), AllocError>
    ensures { OnOk result (out.new ≡ out.old ++ error_text name.now place.now error) }
{
    push_one(out, name, place)?;
    push_spaced(out, u64::from(error.instance))
}

fn push_places(out: &mut Text, places: &[Place]) -> Result<(), AllocError>
    ensures { OnOk result (out.new ≡ out.old ++ flat_map (λ p. spaced p.identifier.0) places.now) }
{
    for place in places {
        push_spaced(out, u64::from(place.identifier.0))?;
    }
    Ok(())
}

fn push_arg(out: &mut Text, arg: &PlaceOrSpreadOrHole) -> Result<(), AllocError>
    ensures { OnOk result (out.new ≡ out.old ++ arg_text arg.now) }
{
    match arg {
        PlaceOrSpreadOrHole::Place(place) => push_spaced(out, u64::from(place.identifier.0)),
        PlaceOrSpreadOrHole::Spread(s) => push_spaced(out, u64::from(s.place.identifier.0)),
        PlaceOrSpreadOrHole::Hole => Ok(()),
    }
}

fn push_args(out: &mut Text, args: &[PlaceOrSpreadOrHole]) -> Result<(), AllocError>
    ensures { OnOk result (out.new ≡ out.old ++ flat_map arg_text args.now) }
{
    for arg in args {
        push_arg(out, arg)?;
    }
    Ok(())
}

fn push_apply(
    out: &mut Text,
    receiver: &Place,
    function: &Place,
    args: &[PlaceOrSpreadOrHole],
    into: &Place,
) -> Result<(), AllocError>
    ensures { OnOk result (out.new ≡ out.old ++ apply_text receiver.now function.now args.now into.now) }
{
    push_pair(out, "Apply", receiver, function)?;
    push_args(out, args)?;
    push_spaced(out, u64::from(into.identifier.0))
}

fn push_create_function(
    out: &mut Text,
    into: &Place,
    function: FunctionId,
    captures: &[Place],
) -> Result<(), AllocError>
    ensures { OnOk result (out.new ≡ out.old ++ create_function_text into.now function captures.now) }
{
    push_one(out, "CreateFunction", into)?;
    push_spaced(out, u64::from(function.0))?;
    push_places(out, captures)
}

/// Appends the effect: its name, and then its fields in their order. An `Err` is out of memory: `out` may then
/// hold a part of it.
pub fn push_effect(out: &mut Text, effect: &AliasingEffect) -> Result<(), AllocError>
    ensures { OnOk result (out.new ≡ out.old ++ effect_text effect.now) }
{
    match effect {
        AliasingEffect::Apply {
            receiver,
            function,
            args,
            into,
            ..
        } => push_apply(out, receiver, function, args.as_slice(), into),
        AliasingEffect::CreateFrom { from, into } => push_pair(out, "CreateFrom", from, into),
        AliasingEffect::ImmutableCapture { from, into } => {
            push_pair(out, "ImmutableCapture", from, into)
        }
        AliasingEffect::Assign { from, into } => push_pair(out, "Assign", from, into),
        AliasingEffect::Alias { from, into } => push_pair(out, "Alias", from, into),
        AliasingEffect::Capture { from, into } => push_pair(out, "Capture", from, into),
        AliasingEffect::MaybeAlias { from, into } => push_pair(out, "MaybeAlias", from, into),
        AliasingEffect::Create {
            into,
            value,
            reason,
        } => push_create(out, into, *value, *reason),
        AliasingEffect::Freeze { value, reason } => push_freeze(out, value, *reason),
        AliasingEffect::Impure { place, error } => push_error(out, "Impure", place, *error),
        AliasingEffect::MutateFrozen { place, error } => {
            push_error(out, "MutateFrozen", place, *error)
        }
        AliasingEffect::MutateGlobal { place, error } => {
            push_error(out, "MutateGlobal", place, *error)
        }
        AliasingEffect::Render { place } => push_one(out, "Render", place),
        AliasingEffect::Mutate { value, reason } => push_mutate(out, value, *reason),
        AliasingEffect::MutateConditionally { value } => {
            push_one(out, "MutateConditionally", value)
        }
        AliasingEffect::MutateTransitive { value } => push_one(out, "MutateTransitive", value),
        AliasingEffect::MutateTransitiveConditionally { value } => {
            push_one(out, "MutateTransitiveConditionally", value)
        }
        AliasingEffect::CreateFunction {
            into,
            function_id,
            captures,
        } => push_create_function(out, into, *function_id, captures.as_slice()),
    }
}

/// The effect as text: its name, and then its fields in their order. An `Err` is out of memory.
pub fn print_effect(alloc: Global, effect: &AliasingEffect) -> Result<Text, AllocError>
    ensures { IfOk result (λ text. text ≡ effect_text effect.now) }
{
    let mut out = Text::new(alloc);
    push_effect(&mut out, effect)?;
    Ok(out)
}
