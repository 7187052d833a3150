//! One pass over the blocks of a flow: each reached block steps once, in stored order, from what arrives over the edges that
//! go forward, raised by what is given for it; and what goes back is below what stands there.
#![tactic(auto)]

mod arriving;
pub mod given;
pub mod passage;
pub mod steps;

pub use given::Given;
pub use passage::{Passage, begin};
pub use steps::pass_all;
