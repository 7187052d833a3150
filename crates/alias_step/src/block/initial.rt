//! The state that a function's entry begins with.

ghost use Rattle.std.specs.Prelude.{◌≡◌, IfOk, OnOk, option_map, slice_get};
ghost use Rattle.std.specs.List.{fold};
ghost use Rattle.alias_hir.specs.Parts.{param_place};
ghost use Rattle.alias_step.specs.block.Contexts.{held};
ghost use Rattle.alias_step.specs.block.Initial.{reasons_of, context_value, with_context_place, with_context, param_value, with_param, with_param_at, with_component_params, with_params, initial_state};

use crate::block::context::BlockContext;
use alias_apply::kinds::value_with;
use alias_base::List;
use alias_hir::effect::{ValueKind, ValueReason};
use alias_hir::hir::{ContextValue, FunctionType, ParamPattern};
use alias_hir::place::Place;
use alias_lattice::{AbstractValue, InferenceState, ReasonSet, Site};
use std::alloc::{AllocError, Global};

/// The reasons as a set.
fn reasons_of(reasons: &[ValueReason]) -> ReasonSet
    ensures { result ≡ reasons_of reasons.now }
{
    let mut set = ReasonSet::default();
    for reason in reasons {
        set = set.union(&ReasonSet::single(*reason));
    }
    set
}

/// What the function says of a context place, and Context {Other} where it says nothing.
fn context_value(value: Option<&ContextValue>) -> AbstractValue
    ensures { result ≡ context_value (option_map (λ v. v.now) value.entry) }
{
    match value {
        Some(value) => AbstractValue {
            kind: value.kind,
            reason: reasons_of(value.reasons.as_slice()),
        },
        None => value_with(ValueKind::Context, ValueReason::Other),
    }
}

fn define_context_place(
    state: &mut InferenceState,
    place: &Place,
    value: Option<&ContextValue>,
) -> Result<(), AllocError>
    ensures { OnOk result (state.new ≡ with_context_place (option_map (λ v. v.now) value.entry) place.now state.old) }
{
    let id = place.identifier;
    state.give(id, Site::Context(id), context_value(value))
}

/// The context places get their values, in order.
fn define_context(
    state: &mut InferenceState,
    places: &[Place],
    values: &List<ContextValue>,
) -> Result<(), AllocError>
    ensures { OnOk result (state.new ≡ with_context values.now places.now state.old) }
{
    let mut index = 0usize;
    for place in places {
        define_context_place(state, place, values.get(index))?;
        index += 1;
    }
    Ok(())
}

/// The value of a parameter: those of a function expression may be written, those of a component or hook are frozen.
fn param_value(is_function_expression: bool) -> AbstractValue
    ensures { result ≡ param_value is_function_expression }
{
    if is_function_expression {
        value_with(ValueKind::Mutable, ValueReason::Other)
    } else {
        value_with(ValueKind::Frozen, ValueReason::ReactiveFunctionArgument)
    }
}

fn param_place(param: &ParamPattern) -> Place
    ensures { result ≡ param_place param.now }
{
    match param {
        ParamPattern::Place(place) => *place,
        ParamPattern::Spread(spread) => spread.place,
    }
}

fn define_param(
    state: &mut InferenceState,
    value: AbstractValue,
    param: &ParamPattern,
) -> Result<(), AllocError>
    ensures { OnOk result (state.new ≡ with_param value state.old param.now) }
{
    let id = param_place(param).identifier;
    state.give(id, Site::Parameter(id), value)
}

fn define_param_at(
    state: &mut InferenceState,
    value: AbstractValue,
    param: Option<&ParamPattern>,
) -> Result<(), AllocError>
    ensures { OnOk result (state.new ≡ with_param_at value (option_map (λ p. p.now) param.entry) state.old) }
{
    match param {
        Some(param) => define_param(state, value, param),
        None => Ok(()),
    }
}

/// A component has its props and a ref, which may be written.
fn define_component_params(
    state: &mut InferenceState,
    value: AbstractValue,
    params: &List<ParamPattern>,
) -> Result<(), AllocError>
    ensures { OnOk result (state.new ≡ with_component_params value params.now state.old) }
{
    define_param_at(state, value, params.get(0))?;
    let reference = value_with(ValueKind::Mutable, ValueReason::Other);
    define_param_at(state, reference, params.get(1))
}

fn define_all_params(
    state: &mut InferenceState,
    value: &AbstractValue,
    params: &[ParamPattern],
) -> Result<(), AllocError>
    ensures { OnOk result (state.new ≡ fold (with_param value.now) state.old params.now) }
{
    for param in params {
        define_param(state, *value, param)?;
    }
    Ok(())
}

fn define_params(
    state: &mut InferenceState,
    fn_type: FunctionType,
    value: AbstractValue,
    params: &List<ParamPattern>,
) -> Result<(), AllocError>
    ensures { OnOk result (state.new ≡ with_params fn_type value params.now state.old) }
{
    match fn_type {
        FunctionType::Component => define_component_params(state, value, params),
        _ => define_all_params(state, &value, params.as_slice()),
    }
}

/// The state that the function's entry begins with: its context places and its parameters are defined. The one error is
/// out of memory.
pub fn initial_state(
    alloc: Global,
    context: &BlockContext<'_>,
) -> Result<InferenceState, AllocError>
    ensures { IfOk result (λ state. state ≡ initial_state (held context.now)) }
{
    let func = context.func;
    let mut state = InferenceState::empty(alloc);
    define_context(&mut state, func.context.as_slice(), &func.context_values)?;
    let value = param_value(context.is_function_expression);
    define_params(&mut state, func.fn_type, value, &func.params)?;
    Ok(state)
}
