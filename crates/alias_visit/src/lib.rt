//! The places of instructions and terminals, in order, for reading and for writing.
#![tactic(auto)]

mod function_places;
pub mod lvalues;
pub mod lvalues_mut;
pub mod operands;
pub mod operands_mut;
mod parts;
mod parts_mut;
pub mod places;
pub mod terminals;
pub mod terminals_mut;

pub use parts::PlaceList;
