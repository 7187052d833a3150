//! Reading to the end, and writing all.
ghost use Rattle.std.specs.Prelude.{ℕ, ◌≡◌, ◌+◌, ◌<◌, ◌≤◌, ◌==◌, nat_lt, Err, vec_len, length, take, IfOk, OnOk, OnErr};
ghost use Rattle.alias_stream.specs.Streams.{Adds, HasFailed, IsAllOf, IsAtEnd, IfKnown};
ghost use Rattle.alias_stream.specs.declared.whole.ReadStop.{ReadStop};
ghost use Rattle.alias_stream.specs.declared.sink.SinkStop.{SinkStop};

use crate::sink::{Sink, SinkStop};
use crate::source::{Failed, Source};
use alias_base::List;
use std::alloc::{AllocError, Global};

/// The greatest number of bytes that is read.
pub const LIMIT: usize = 16_777_216;

/// How many bytes a read asks for.
const CHUNK: usize = 65_536;

/// Why reading to the end stopped.
#[derive(Clone, Copy, Debug)]
pub enum ReadStop {
    /// A read failed outside the program.
    Failed,
    /// There are more than `LIMIT` bytes.
    TooLong,
    /// Out of memory, which can come at any growth.
    Memory(AllocError),
}

impl From<Failed> for ReadStop {
    ghost from_gives = { λ _ s. s ≡ ReadStop.Failed };

    fn from(_e: Failed) -> ReadStop {
        ReadStop::Failed
    }
}

impl From<AllocError> for ReadStop {
    ghost from_gives = { λ e s. s ≡ ReadStop.Memory e };

    fn from(e: AllocError) -> ReadStop {
        ReadStop::Memory(e)
    }
}

/// Room for one read.
fn new_chunk(alloc: Global) -> Result<Vec<u8>, AllocError>
    ensures { IfOk result (λ v. vec_len v ≡ CHUNK) }
{
    vec![in alloc; 0; CHUNK]
}

/// Whether a read of so many bytes, where there was room for some, came to the end.
fn is_at_end(count: usize) -> bool
    ensures { result ≡ (count == 0) }
{
    count == 0
}

/// Whether so many bytes are too many, where `before` have been read.
fn is_too_long(before: usize, count: usize) -> bool
    requires { before ≤ LIMIT }
    ensures { result ≡ nat_lt LIMIT (before + count) }
{
    count > LIMIT - before
}

/// Reads to the end, and gives all the bytes; the source has none left then. An `Err` says that a read failed,
/// that there are more than `LIMIT` bytes, or that memory is out; what was read before it is lost.
pub fn read_whole<S: Source>(alloc: Global, source: &mut S) -> Result<List<u8>, ReadStop>
    ensures whole { IfOk result (λ bytes. IsAllOf (S.left source.old) bytes × (length bytes ≤ LIMIT)) }
    ensures end { OnOk result (IsAtEnd (S.left source.new)) }
    ensures failed { result ≡ Err ReadStop.Failed → HasFailed (S.faults source.old) (S.faults source.new) (S.at_last source.new) }
    ensures too_long { result ≡ Err ReadStop.TooLong → IfKnown (S.left source.old) (λ all. LIMIT < length all) }
    ensures faults { S.faults source.old ≤ S.faults source.new }
{
    let mut chunk = new_chunk(alloc)?;
    let mut bytes = Vec::new(alloc);
    loop {
        let buf = chunk.as_mut_slice();
        let count = source.read(buf)?;
        if is_at_end(count) {
            return Ok(List::from_vec(bytes));
        }
        if is_too_long(bytes.len(), count) {
            return Err(ReadStop::TooLong);
        }
        bytes.extend_from_slice(&buf[..count])?;
    }
}

/// Writes all of the text. An `Err` says that a write failed or that memory is out, and leaves the sink
/// with a first part of the text added.
pub fn write_whole<K: Sink>(sink: &mut K, text: &[u8]) -> Result<(), SinkStop>
    ensures whole { OnOk result (Adds (K.held sink.old) text.now (K.held sink.new)) }
    ensures part { OnErr result ((n : ℕ) × (n < length text.now) × Adds (K.held sink.old) (take n text.now) (K.held sink.new)) }
    ensures failed { result ≡ Err SinkStop.Failed → HasFailed (K.faults sink.old) (K.faults sink.new) (K.at_last sink.new) }
    ensures faults { K.faults sink.old ≤ K.faults sink.new }
{
    let mut written = 0;
    while written < text.len() {
        written += sink.write(&text[written..])?;
    }
    Ok(())
}
