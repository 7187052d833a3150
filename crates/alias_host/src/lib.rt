//! A run for a host that calls the program in its own process: bytes in, a status and bytes out.
#![tactic(auto)]

mod bytes;
mod host;
mod reply;
mod words;

pub use bytes::{BytesSink, SliceSource};
pub use host::run_for_host;
pub use reply::{Reply, reply_to_line};
