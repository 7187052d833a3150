//! All places of a function.

use crate::printed::{digits, print_fact};
use crate::values::{creation, instruction, list_of, switch};
use alias_base::{BlockId, BlockMap, List};
use alias_hir::env::Environment;
use alias_hir::hir::{FunctionType, HirFunction, ParamPattern, Phi};
use alias_hir::place::SpreadPattern;
use alias_test_units::{add_block, function, place};
use alias_visit::places::each_place;
use std::alloc::Global;

fn add<T: Drop>(list: &mut List<T>, item: T) {
    let _ = list.push(item);
}

/// A function whose context is `x7`.
fn nested(alloc: Global) -> HirFunction {
    let mut func = function(alloc, FunctionType::Other);
    func.context = list_of(alloc, &[place(7)]);
    func
}

/// Adds a function whose context is `x7`.
pub(crate) fn add_nested(alloc: Global, env: &mut Environment) {
    add(&mut env.functions, nested(alloc));
}

/// `x4 = phi(x5)`.
fn phi(alloc: Global) -> Phi {
    let mut operands = BlockMap::new(alloc);
    let _ = operands.insert(BlockId(0), place(5));
    Phi {
        place: place(4),
        operands,
    }
}

/// Takes `x1` as its rest, has the context `x2`, and creates the nested function as `x6` in one block, which has a phi
/// and a `switch`.
fn fill(alloc: Global, func: &mut HirFunction) {
    let rest = SpreadPattern { place: place(1) };
    add(&mut func.params, ParamPattern::Spread(rest));
    add(&mut func.context, place(2));
    func.returns = place(3);
    add(&mut func.instructions, instruction(6, creation()));
    let _ = add_block(alloc, func, 0, &[], switch(alloc));
    if let Some(block) = func.body.blocks.get_index_mut(0) {
        add(&mut block.phis, phi(alloc));
    }
}

/// Prints all places of that function, in tables of one nested function.
pub(crate) fn print_places(rt: &impl Print, alloc: Global, env: &Environment) {
    let mut func = function(alloc, FunctionType::Other);
    fill(alloc, &mut func);
    let all = digits(each_place(alloc, env, &func));
    print_fact(rt, "lists_all_places_of_a_function", &all);
}
