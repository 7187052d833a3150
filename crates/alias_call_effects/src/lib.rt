//! The effects that a call stands for, asked over an environment, without a pass: by a signature, by the aliasing part of
//! one, and by the summary of a function.
#![tactic(auto)]

mod configs;
pub mod error;
pub mod laws;
mod legacy;
pub mod named;
pub mod summaries;
mod temporaries;
mod texts;

pub use alias_calls::{Legacy, get_argument_effect};
pub use alias_tables::{TempKey, Temporaries, Temporary};
pub use configs::compute_effects_for_aliasing_signature_config;
pub use error::SignatureError;
pub use legacy::compute_effects_for_legacy_signature;
pub use summaries::{
    AliasingSignature, build_signature_from_function_expression,
    compute_effects_for_aliasing_signature,
};
pub use texts::{format_type_for_print, get_write_error_reason};
