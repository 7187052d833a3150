//! Lines that raise what arrives.

pub mod entering;
mod known;
mod numbers;

pub use crate::lines::entering::{Lines, Unfollowed};
pub(crate) use crate::lines::known::lines_known;
