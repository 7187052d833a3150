//! One function: what follows from what is given of it.

mod faults;
pub mod follow;
mod given;
mod reach;

pub(crate) use crate::function::follow::follow_function;
pub use crate::function::follow::{FunctionBeyond, FunctionEnd};
pub(crate) use crate::function::given::given_of;
