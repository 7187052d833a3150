//! Whether recorded effects are those that a certificate tells.

mod kept;
pub mod telling;

pub use crate::effects::telling::{is_claimed, is_summary_claimed};
