//! Flows over numbered blocks, and the sequences of visits that solve them.
#![tactic(auto)]

pub mod check;
pub mod flow;
pub mod forward;
pub mod nothing;
pub mod sending;
pub mod solver;
mod work_list;

pub use flow::{Flow, Solution, SolveFault, StepFault};
pub use forward::{is_forward, solve_forward};
pub use nothing::nothing_yet;
pub use solver::solve;
