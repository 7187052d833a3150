//! How plainness is decided: which identifiers aren't sure, as a flow over the blocks of a function, what its solution says of paths,
//! and the instructions, gone through until one breaks a condition.

pub mod answer;
pub mod stop;

pub use crate::laws::answer::{PlainFault, Plainness};
pub use crate::laws::stop::Stop;
