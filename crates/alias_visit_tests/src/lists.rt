//! What values read and assign, all their places, and those of effects and terminals.

use crate::printed::{print_assigned, print_effect, print_terminal, print_value};
use crate::values::{
    call, creation, destructuring, element, instruction, list_of, object, store, switch,
};
use alias_base::FunctionId;
use alias_hir::effect::AliasingEffect;
use alias_hir::env::Environment;
use alias_hir::place::{PlaceOrSpreadOrHole, SpreadPattern};
use alias_test_units::place;
use std::alloc::Global;

/// What values read, and all their places, in tables of one nested function.
pub(crate) fn print_values(rt: &impl Print, alloc: Global, env: &Environment) {
    print_value(rt, alloc, env, "a call reads and has", call(alloc));
    print_value(rt, alloc, env, "an object reads and has", object(alloc));
    print_value(rt, alloc, env, "an element reads and has", element(alloc));
    let pattern = destructuring(alloc);
    print_value(rt, alloc, env, "a pattern reads and has", pattern);
    print_value(rt, alloc, env, "a function reads and has", creation());
    print_value(rt, alloc, env, "a store reads and has", store());
}

/// `x1.x2(x3, <hole>, ...x4)` into `x5`.
fn apply(alloc: Global) -> AliasingEffect {
    let args = [
        PlaceOrSpreadOrHole::Place(place(3)),
        PlaceOrSpreadOrHole::Hole,
        PlaceOrSpreadOrHole::Spread(SpreadPattern { place: place(4) }),
    ];
    AliasingEffect::Apply {
        receiver: place(1),
        function: place(2),
        mutates_function: false,
        args: list_of(alloc, &args),
        into: place(5),
        signature: None,
        span: None,
    }
}

/// What creates `x3`, a function that captures `x2` and `x1`.
fn function_creation(alloc: Global) -> AliasingEffect {
    AliasingEffect::CreateFunction {
        into: place(3),
        function_id: FunctionId(0),
        captures: list_of(alloc, &[place(2), place(1)]),
    }
}

pub(crate) fn print_effects(rt: &impl Print, alloc: Global) {
    let capture = AliasingEffect::Capture {
        from: place(2),
        into: place(5),
    };
    print_effect(rt, alloc, "a_capture_has_its_fields_in_order", capture);
    print_effect(rt, alloc, "a_call_has_its_fields_in_order", apply(alloc));
    let creation = function_creation(alloc);
    print_effect(rt, alloc, "a_creation_has_its_fields_in_order", creation);
}

pub(crate) fn print_switch(rt: &impl Print, alloc: Global) {
    let name = "a_switch_reads_the_tests_of_its_cases";
    print_terminal(rt, alloc, name, switch(alloc));
}

pub(crate) fn print_targets(rt: &impl Print, alloc: Global) {
    print_assigned(rt, alloc, instruction(9, destructuring(alloc)));
}
