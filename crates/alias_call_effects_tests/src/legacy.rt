//! Calls by a signature without an aliasing part. Each calls 1 with the argument 2, and its result is 3.

use crate::making::{environment, spread_argument, text};
use crate::printing::{print_effects, print_fact, print_refusal};
use alias_base::{IdentifierId, List};
use alias_call_effects::{
    Legacy, SignatureError, compute_effects_for_legacy_signature, format_type_for_print,
    get_argument_effect, get_write_error_reason,
};
use alias_hir::effect::{ValueKind, ValueReason};
use alias_hir::env::Environment;
use alias_hir::place::{Effect, PlaceOrSpreadOrHole};
use alias_hir::report::{ErrorCategory, Report};
use alias_hir::signature::FunctionSignature;
use alias_hir::types::Ty;
use alias_lattice::{AbstractValue, InferenceState, ReasonSet};
use alias_test_units::place;
use std::alloc::Global;

/// How arguments are used, and whether each is spread.
const USES: [(Effect, bool); 4] = [
    (Effect::Freeze, true),
    (Effect::Read, true),
    (Effect::Mutate, true),
    (Effect::Freeze, false),
];

fn print_argument_effects(rt: &impl Print) {
    for (effect, is_spread) in USES {
        let fact = (effect, is_spread, get_argument_effect(effect, is_spread));
        print_fact(rt, "a_spread_is_used_as_it_is_iterated", &fact);
    }
}

/// A signature of an impure function that reads what it is called on, and uses its arguments so.
fn signature(alloc: Global, rest: Effect) -> FunctionSignature {
    FunctionSignature {
        positional_params: List::new(alloc),
        rest_param: Some(rest),
        return_value_kind: ValueKind::Mutable,
        return_value_reason: None,
        callee_effect: Effect::Read,
        no_alias: false,
        mutable_only_if_operands_are_mutable: false,
        impure: true,
        known_incompatible: None,
        canonical_name: None,
        aliasing: None,
    }
}

/// Prints the effects that the call lists and whether it misses a value, or why it is refused.
fn print_answer(rt: &impl Print, name: &str, answer: Result<Legacy, SignatureError>) {
    match &answer {
        Ok(legacy) => {
            print_effects(rt, name, legacy.effects.as_slice());
            print_fact(rt, name, &("misses a value", legacy.missing.is_some()));
        }
        Err(error) => print_refusal(rt, name, error),
    }
}

/// Prints what the call with this argument lists, and how many reports are interned then.
fn print_called(
    rt: &impl Print,
    name: &str,
    alloc: Global,
    env: &mut Environment,
    rest: Effect,
    argument: PlaceOrSpreadOrHole,
) {
    let answer = compute_effects_for_legacy_signature(
        alloc,
        &InferenceState::empty(alloc),
        &signature(alloc, rest),
        &place(3),
        &place(1),
        &[argument],
        None,
        env,
    );
    print_answer(rt, name, answer);
    print_fact(rt, name, &("reports", env.interned.len()));
}

fn another_report(alloc: Global) -> Report {
    Report {
        category: ErrorCategory::Purity,
        message: text(alloc, "another"),
        help: None,
        labels: List::new(alloc),
    }
}

/// Interns another report, and prints whether that succeeds.
fn print_interned(rt: &impl Print, alloc: Global, env: &mut Environment) {
    let other = env.intern_aliasing_report(IdentifierId(0), another_report(alloc));
    print_fact(rt, "interns another report", &other.is_ok());
}

/// A call that would freeze a spread argument, and then three that read 2, of which the first comes before impure calls
/// are reported.
fn print_calls(rt: &impl Print, alloc: Global, env: &mut Environment) {
    env.config.validate_no_impure_functions_in_render = true;
    let name = "a_refused_call_interns_nothing";
    print_called(rt, name, alloc, env, Effect::Freeze, spread_argument());
    let argument = PlaceOrSpreadOrHole::Place(place(2));
    env.config.validate_no_impure_functions_in_render = false;
    let name = "an_impure_call_is_reported_where_that_is_asked, unasked";
    print_called(rt, name, alloc, env, Effect::Read, argument);
    env.config.validate_no_impure_functions_in_render = true;
    print_interned(rt, alloc, env);
    let name = "an_impure_call_is_reported_where_that_is_asked, asked";
    print_called(rt, name, alloc, env, Effect::Read, argument);
    let name = "an_impure_call_is_reported_where_that_is_asked, again";
    print_called(rt, name, alloc, env, Effect::Read, argument);
}

fn print_reason(rt: &impl Print) {
    let value = AbstractValue {
        kind: ValueKind::Frozen,
        reason: ReasonSet::single(ValueReason::State),
    };
    let reason = get_write_error_reason(&value);
    print_fact(rt, "texts_are_those_of_reports", &reason);
}

fn print_type(rt: &impl Print, alloc: Global, ty: &Ty) {
    if let Ok(text) = format_type_for_print(alloc, ty) {
        print_fact(rt, "texts_are_those_of_reports", &text.as_str());
    }
}

pub(crate) fn print_legacy(rt: &impl Print, alloc: Global) {
    print_argument_effects(rt);
    let mut env = environment(alloc);
    print_calls(rt, alloc, &mut env);
    print_reason(rt);
    print_type(rt, alloc, &Ty::Poly);
    print_type(rt, alloc, &Ty::Var);
}
