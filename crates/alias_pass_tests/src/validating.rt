//! A validation that comes to an operand without an effect, of which the inference leaves none.

use crate::functions::{add, add_creation, end, environment};
use crate::print_fact;
use alias_base::{FunctionId, IdentifierId, InstructionId, List};
use alias_hir::env::Environment;
use alias_hir::error::InferError;
use alias_hir::hir::{FunctionType, HirFunction};
use alias_hir::place::{Effect, Place};
use alias_hir::value::{InstructionKind, InstructionValue, LValue};
use alias_test_units::{function, place, returning};
use alias_validate::validate_locals_not_reassigned_after_render;
use std::alloc::Global;

const FIRST: InstructionId = InstructionId(0);

const SECOND: InstructionId = InstructionId(1);

const THIRD: InstructionId = InstructionId(2);

fn with_effect(number: u32, effect: Effect) -> Place {
    let mut place = place(number);
    place.effect = effect;
    place
}

fn variable(effect: Effect, kind: InstructionKind) -> LValue {
    LValue {
        place: with_effect(1, effect),
        kind,
    }
}

/// Assigns 1, of the function that creates it.
fn assigning(alloc: Global) -> HirFunction {
    let mut func = function(alloc, FunctionType::Other);
    let _ = func.context.push(with_effect(1, Effect::Capture));
    let store = InstructionValue::StoreContext {
        lvalue: variable(Effect::Store, InstructionKind::Reassign),
        value: with_effect(4, Effect::Read),
    };
    add(&mut func, 4, InstructionValue::Primitive);
    add(&mut func, 5, store);
    end(alloc, &mut func, &[FIRST, SECOND], returning(4, 2));
    func
}

/// A fragment of 3, as an operand without an effect.
fn fragment(alloc: Global) -> InstructionValue {
    let mut children = List::new(alloc);
    let _ = children.push(place(3));
    InstructionValue::JsxFragment { children }
}

/// Declares 1, creates that function, and has it in a fragment as an operand without an effect.
fn rendering(alloc: Global) -> HirFunction {
    let mut func = function(alloc, FunctionType::Component);
    let declaration = InstructionValue::DeclareContext {
        lvalue: variable(Effect::ConditionallyMutate, InstructionKind::Let),
    };
    add(&mut func, 2, declaration);
    add_creation(&mut func, 3, FunctionId(0));
    add(&mut func, 6, fragment(alloc));
    end(alloc, &mut func, &[FIRST, SECOND, THIRD], returning(2, 2));
    func
}

/// The identifier whose effect the validation misses, where that is why it fails.
fn missed(alloc: Global, func: &HirFunction, env: &mut Environment) -> Option<IdentifierId> {
    match validate_locals_not_reassigned_after_render(alloc, func, env) {
        Err(InferError::EffectsNotInferred { identifier }) => Some(identifier),
        _ => None,
    }
}

/// Prints that identifier, and the number of reports.
pub(crate) fn print_missed(rt: &impl Print, alloc: Global) {
    let mut env = environment(alloc, 8);
    let _ = env.functions.push(assigning(alloc));
    let func = rendering(alloc);
    let fact = (missed(alloc, &func, &mut env), env.errors.len());
    print_fact(rt, "wants_effects: of which, and how many reports", &fact);
}
