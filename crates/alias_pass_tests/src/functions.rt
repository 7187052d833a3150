//! Functions and environments for the tests, built by hand; with less in them where memory runs out.

use alias_base::{FunctionId, InstructionId};
use alias_hir::env::Environment;
use alias_hir::hir::{FunctionType, HirFunction};
use alias_hir::terminal::Terminal;
use alias_hir::value::{InstructionValue, LoweredFunction};
use alias_test_units::{add_block, add_instruction, function, returning};
use std::alloc::Global;

/// So many identifiers of which nothing is known.
pub(crate) fn environment(alloc: Global, count: u32) -> Environment {
    match alias_test_units::environment(alloc, count) {
        Ok(env) => env,
        Err(_) => Environment::new(alloc),
    }
}

/// Adds the instruction of the next number, with that result.
pub(crate) fn add(func: &mut HirFunction, target: u32, value: InstructionValue) {
    let _ = add_instruction(func, target, value);
}

/// Adds the creation of the function, with that result.
pub(crate) fn add_creation(func: &mut HirFunction, target: u32, created: FunctionId) {
    let lowered_func = LoweredFunction { func: created };
    add(
        func,
        target,
        InstructionValue::FunctionExpression { lowered_func },
    );
}

/// Lets the function's one block have the instructions of these numbers.
pub(crate) fn end(
    alloc: Global,
    func: &mut HirFunction,
    listed: &[InstructionId],
    terminal: Terminal,
) {
    let _ = add_block(alloc, func, 0, listed, terminal);
}

/// A function whose one block returns the identifier at once.
pub(crate) fn returns_at_once(alloc: Global, returned: u32) -> HirFunction {
    let mut func = function(alloc, FunctionType::Other);
    end(alloc, &mut func, &[], returning(returned, 1));
    func
}

/// A function whose one block creates this function and returns it.
pub(crate) fn returns_function(alloc: Global, created: FunctionId) -> HirFunction {
    let mut func = function(alloc, FunctionType::Other);
    add_creation(&mut func, 1, created);
    end(alloc, &mut func, &[InstructionId(0)], returning(1, 2));
    func
}
