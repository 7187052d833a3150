//! Bytes that come from somewhere and go somewhere, where each call may fail.
#![tactic(auto)]

pub mod memory;
pub mod sink;
pub mod source;
pub mod standard;
pub mod whole;

pub use memory::{MemorySink, MemorySource};
pub use sink::{Sink, SinkStop};
pub use source::{Failed, Source};
pub use standard::{ReaderSource, WriterSink};
pub use whole::{LIMIT, ReadStop, read_whole, write_whole};
