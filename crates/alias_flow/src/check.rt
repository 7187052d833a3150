//! Checks what somebody says of a flow: which blocks are reached, and that entry states solve it.

mod arriving;
pub mod check;
pub mod claims;
pub mod entries;
pub mod fault;
pub mod reached;

pub use crate::check::check::{begin, not_joined, pass_on, refused};
pub use crate::check::claims::{ClaimedFlow, check_entries};
pub use crate::check::entries::all_known;
pub use crate::check::fault::Unsolved;
pub use crate::check::reached::{reached_ahead, reached_blocks};
