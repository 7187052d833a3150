//! The step of a block over tables: its phis, its instructions and its terminal; and the state that the entry of a function
//! begins with.

mod actions;
pub mod block;
pub mod context;
pub mod faults;
mod initial;
pub mod laws;
pub mod recorded;

pub use crate::block::block::infer_block;
pub use crate::block::context::BlockContext;
pub use crate::block::faults::{BlockFault, BlockRefusal};
pub use crate::block::initial::initial_state;
pub use crate::block::recorded::{BlockEffects, InstructionEffects, TerminalEffects};
