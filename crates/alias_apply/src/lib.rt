//! The step of each effect but calls, a function for each.
#![tactic(auto)]

pub mod apply;
pub mod context;
pub mod freezing;
pub mod kinds;
pub mod leaves;
pub mod made;
pub mod mutation;
pub mod progress;
pub mod reports;
pub mod values;

pub use apply::{intern_and_apply_all_plain, intern_and_apply_plain, intern_and_apply_simple};
pub use context::StepContext;
pub use made::MadeIdentifiers;
pub use progress::StepProgress;
