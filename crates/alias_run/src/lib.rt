//! A whole run: words and a source in, a status and a text out.
#![tactic(auto)]

pub mod answer;
pub mod command;
mod finding;
mod following;
pub mod outcome;
pub mod query;
mod run;
pub mod status;
mod telling;
pub mod text;

pub use alias_cert::Accepted;
pub use alias_nested::{Inferred, infer_unit};
pub use alias_text::Detail;
pub use alias_text::effects::print_effect;
pub use alias_text::reports::print_report;
pub use answer::Answer;
pub use command::Command;
pub use outcome::Outcome;
pub use query::Query;
pub use run::run_alias;
pub use status::Status;
pub use text::{
    print_accepted, print_brief, print_explanation, print_function_explanation, print_inferred,
    print_lints, print_plainness, print_refusal, print_verified,
};
