//! Units that are checked.

use crate::functions::{environment, returns_at_once, returns_function};
use crate::print_fact;
use alias_base::{FunctionId, List};
use alias_hir::effect::ValueKind;
use alias_hir::env::Unit;
use alias_hir::hir::{ContextValue, HirFunction};
use alias_rules::check::{Checked, check_unit};
use alias_rules::fault::UnitFault;
use alias_test_units::place;
use std::alloc::Global;

/// How many identifiers and blocks there are in the unit that is handed out, by reference and by value.
fn counts(checked: Checked) -> (usize, usize) {
    let identifiers = checked.unit().env.identifiers.len();
    let unit = checked.into_unit();
    (identifiers, unit.function.body.blocks.len())
}

/// As `counts`, of a unit that is well formed; else what is wrong with it.
fn handed_out(alloc: Global, unit: Unit) -> Result<(usize, usize), UnitFault> {
    match check_unit(alloc, unit) {
        Ok(checked) => Ok(counts(checked)),
        Err(fault) => Err(fault),
    }
}

fn print_checked(rt: &impl Print, name: &str, alloc: Global, unit: Unit) {
    print_fact(rt, name, &handed_out(alloc, unit));
}

/// A unit of two identifiers whose root returns one of them at once.
fn small_unit(alloc: Global) -> Unit {
    Unit {
        function: returns_at_once(alloc, 1),
        env: environment(alloc, 2),
    }
}

/// One value for a context place.
fn one_value(alloc: Global) -> List<ContextValue> {
    let mut known = List::new(alloc);
    let _ = known.push(ContextValue {
        kind: ValueKind::Frozen,
        reasons: List::new(alloc),
    });
    known
}

/// A function that has these values for context places.
fn with_values(alloc: Global, known: List<ContextValue>) -> HirFunction {
    let mut func = returns_at_once(alloc, 3);
    func.returns = place(2);
    func.context_values = known;
    func
}

/// The root creates a function, and that one has these values for context places.
fn nesting_unit(alloc: Global, known: List<ContextValue>) -> Unit {
    let mut env = environment(alloc, 4);
    let _ = env.functions.push(with_values(alloc, known));
    Unit {
        function: returns_function(alloc, FunctionId(0)),
        env,
    }
}

pub(crate) fn print_checks(rt: &impl Print, alloc: Global) {
    let name = "hands_out_the_unit_that_was_checked: identifiers and blocks";
    print_checked(rt, name, alloc, small_unit(alloc));
    let name = "nested_functions_have_no_context_values, none";
    print_checked(rt, name, alloc, nesting_unit(alloc, List::new(alloc)));
    let name = "nested_functions_have_no_context_values, one";
    print_checked(rt, name, alloc, nesting_unit(alloc, one_value(alloc)));
}
