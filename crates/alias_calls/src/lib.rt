//! The lists of effects that calls stand for.
#![tactic(auto)]

pub mod arguments;
pub mod call;
pub mod configs;
pub mod copies;
pub mod immutable;
pub mod legacy;
pub mod summaries;
pub mod visits;

pub use call::{CallSite, ConfigCall, SummaryCall, SummaryNames};
pub use configs::{compute_effects_for_aliasing_signature_config, config_effects};
pub use legacy::{Legacy, compute_effects_for_legacy_signature};
pub use summaries::{
    build_signature_from_function_expression, compute_effects_for_aliasing_signature,
    compute_effects_for_summary,
};
pub use visits::get_argument_effect;
