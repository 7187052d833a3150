//! What is known of a function before its instructions are stepped: the declarations that are hoisted, the spreads of
//! patterns that nothing writes, and what the handlers of `Try`s bind.
#![tactic(auto)]

mod candidates;
mod facts;
mod handlers;
mod hoisted;
mod numbers;
mod spreads;

pub use facts::{FunctionFacts, function_facts};
pub use handlers::{Handlers, handler_bindings};
pub use hoisted::{Hoisted, declaration_of, find_hoisted_context_declarations, is_hoisting};
pub use spreads::{Spreads, find_non_mutated_destructure_spreads};
