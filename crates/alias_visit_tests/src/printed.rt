//! What is printed of values, effects, terminals and instructions. Each is given away, so that its drop is laid out once.

use alias_hir::effect::AliasingEffect;
use alias_hir::env::Environment;
use alias_hir::hir::Instruction;
use alias_hir::place::{Effect, Place};
use alias_hir::terminal::Terminal;
use alias_hir::value::InstructionValue;
use alias_visit::PlaceList;
use alias_visit::lvalues::{each_instruction_lvalue_ids, each_instruction_value_lvalue};
use alias_visit::operands::each_instruction_value_operand;
use alias_visit::places::{effect_places, places_of};
use alias_visit::terminals::each_terminal_operand;
use std::alloc::{AllocError, Global};
use std::fmt::Debug;

/// Prints a fact.
pub(crate) fn print_fact(rt: &impl Print, name: &str, fact: &impl Debug) {
    let _ = println!(rt; "{name}: {fact:?}");
}

/// The digits, and one more.
fn with_digit(digits: u32, digit: u32) -> u32 {
    digits.wrapping_mul(10).wrapping_add(digit)
}

fn effect_digit(effect: Effect) -> u32 {
    match effect {
        Effect::Read => 1,
        Effect::Store => 2,
        _ => 3,
    }
}

/// The numbers of the places.
fn numbers(places: &[Place]) -> (u32, u32, u32) {
    let mut identifiers = 0;
    let mut effects = 0;
    let mut reactive = 0;
    for place in places {
        identifiers = with_digit(identifiers, place.identifier.0);
        effects = with_digit(effects, effect_digit(place.effect));
        reactive = with_digit(reactive, if place.reactive { 1 } else { 2 });
    }
    (identifiers, effects, reactive)
}

/// The numbers of the places that were found.
pub(crate) fn digits(found: Result<PlaceList, AllocError>) -> (u32, u32, u32) {
    match found {
        Ok(places) => numbers(places.as_slice()),
        Err(_) => (0, 0, 0),
    }
}

/// Prints the places that the value reads, and all its places.
pub(crate) fn print_value(
    rt: &impl Print,
    alloc: Global,
    env: &Environment,
    name: &str,
    value: InstructionValue,
) {
    let read = digits(each_instruction_value_operand(alloc, &value, env));
    let fact = (read, digits(places_of(alloc, &value)));
    print_fact(rt, name, &fact);
}

/// Prints the places of the effect.
pub(crate) fn print_effect(rt: &impl Print, alloc: Global, name: &str, effect: AliasingEffect) {
    let fact = digits(effect_places(alloc, &effect));
    print_fact(rt, name, &fact);
}

/// Prints the operands of the terminal.
pub(crate) fn print_terminal(rt: &impl Print, alloc: Global, name: &str, terminal: Terminal) {
    let fact = digits(each_terminal_operand(alloc, &terminal));
    print_fact(rt, name, &fact);
}

/// Prints what the value of the instruction assigns, and the identifiers that the instruction does.
pub(crate) fn print_assigned(rt: &impl Print, alloc: Global, instruction: Instruction) {
    let by_value = digits(each_instruction_value_lvalue(alloc, &instruction.value));
    print_fact(rt, "lists_what_is_assigned: by the value", &by_value);
    if let Ok(ids) = each_instruction_lvalue_ids(alloc, &instruction) {
        print_fact(
            rt,
            "lists_what_is_assigned: by the instruction",
            &ids.as_slice(),
        );
    }
}
