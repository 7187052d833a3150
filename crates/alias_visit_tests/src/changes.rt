//! What the visitors change.

use crate::printed::{print_terminal, print_value};
use crate::values::{call, destructuring};
use alias_base::{BlockId, EvaluationOrder};
use alias_hir::env::Environment;
use alias_hir::place::{Effect, Place};
use alias_hir::terminal::Terminal;
use alias_hir::value::InstructionValue;
use alias_test_units::place;
use alias_visit::lvalues_mut::for_each_instruction_value_lvalue_mut;
use alias_visit::operands_mut::for_each_instruction_value_operand_mut;
use alias_visit::terminals_mut::for_each_terminal_operand_mut;
use std::alloc::Global;

/// Lets each operand of the value be read.
fn read_each(value: &mut InstructionValue) {
    for_each_instruction_value_operand_mut(
        value,
        &mut |p: &mut Place| {
            p.effect = Effect::Read;
        },
    );
}

/// Lets each place that the value assigns be reactive.
fn react_each(value: &mut InstructionValue) {
    for_each_instruction_value_lvalue_mut(
        value,
        &mut |p: &mut Place| {
            p.reactive = true;
        },
    );
}

/// Lets each operand of the terminal be stored.
fn store_each(terminal: &mut Terminal) {
    for_each_terminal_operand_mut(
        terminal,
        &mut |p: &mut Place| {
            p.effect = Effect::Store;
        },
    );
}

/// The key and the value that is taken apart are not assigned.
pub(crate) fn print_changes(rt: &impl Print, alloc: Global, env: &Environment) {
    let mut read = call(alloc);
    read_each(&mut read);
    print_value(rt, alloc, env, "changes_each_operand", read);
    let mut assigned = destructuring(alloc);
    react_each(&mut assigned);
    let name = "changes_each_place_that_is_assigned";
    print_value(rt, alloc, env, name, assigned);
    let mut bound = Terminal::Try {
        id: EvaluationOrder(2),
        block: BlockId(1),
        handler: BlockId(2),
        handler_binding: Some(place(5)),
    };
    store_each(&mut bound);
    print_terminal(rt, alloc, "a_try_binds", bound);
}
