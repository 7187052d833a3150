//! The check of what a certificate says of one function: whether its entry states solve the function's flow, with the effects and
//! the temporaries that it tells.

pub mod claims;
mod entries;
pub mod function;
pub mod lines;
pub mod temporaries;

pub use crate::function::claims::Difference;
pub use crate::function::function::check_function_certificate;
