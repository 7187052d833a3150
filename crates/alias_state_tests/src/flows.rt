//! A line and a loop, whose visits are computed by hand.

use crate::climb::{Climb, Height, Notes};
use crate::print_fact;
use alias_flow::{Solution, is_forward, solve, solve_forward};
use std::alloc::Global;

fn print_notes(rt: &impl Print, name: &str, notes: &Notes) {
    let fact = (notes.first, notes.second, notes.third, notes.fourth);
    print_fact(rt, name, &fact);
}

/// Moves a state along the line, which wants no copy, once it is known as one.
pub(crate) fn print_line(rt: &impl Print, alloc: Global) {
    let mut flow = Climb::new(alloc, true);
    let is_solved = match is_forward(&flow) {
        Ok(true) => solve_forward(alloc, &mut flow).is_ok(),
        _ => false,
    };
    print_fact(
        rt,
        "moves_states_along_a_line: forward and solved",
        &is_solved,
    );
    print_notes(rt, "moves_states_along_a_line: began with", &flow.notes);
}

/// Prints the blocks in the order of their visits, and the height that each was entered with.
fn print_solution(rt: &impl Print, solution: &Solution<Height>) {
    let name = "visits_a_loop_until_it_settles";
    print_fact(rt, name, &solution.visits.as_slice());
    for entry in solution.entries.as_slice() {
        let height = match entry {
            Some(height) => Some(height.height),
            None => None,
        };
        print_fact(rt, name, &height);
    }
}

pub(crate) fn print_loop(rt: &impl Print, alloc: Global) {
    let mut flow = Climb::new(alloc, false);
    print_fact(rt, "tells_a_line_from_a_loop", &is_forward(&flow));
    if let Ok(solution) = solve(alloc, &mut flow) {
        print_solution(rt, &solution);
    }
    print_notes(
        rt,
        "visits_a_loop_until_it_settles: began with",
        &flow.notes,
    );
}
