//! Sources and sinks in memory, in pieces and with failures as planned.

use crate::lists::list_of;
use crate::print_fact;
use alias_base::List;
use alias_stream::memory::{MemorySink, MemorySource};
use alias_stream::source::Source;
use alias_stream::whole::{read_whole, write_whole};
use std::alloc::Global;

/// Reads five times of three bytes, which go by one at a time, where the second read is planned to fail. Prints how
/// many bytes come, and the first byte of the room.
pub(crate) fn print_reads(rt: &impl Print, alloc: Global) {
    let mut source = MemorySource::new(list_of(alloc, b"abc"), 1, list_of(alloc, &[2u64]));
    let mut room = [0u8; 4];
    for _ in 0..5u32 {
        let read = source.read(&mut room);
        let fact = (read, room[0]);
        print_fact(rt, "reads_in_pieces_and_fails_as_planned", &fact);
    }
}

/// Writes the text whole to the sink, and prints how that ends and what is kept.
fn print_written(rt: &impl Print, name: &str, mut sink: MemorySink, text: &[u8]) {
    let written = write_whole(&mut sink, text);
    let fact = (written, str::from_utf8(sink.bytes()));
    print_fact(rt, name, &fact);
}

/// Writes six bytes, three at a time, where the second write is planned to fail.
pub(crate) fn print_failed_write(rt: &impl Print, alloc: Global) {
    let sink = MemorySink::new(alloc, 3, list_of(alloc, &[2u64]));
    let name = "keeps_what_was_written_before_a_failure";
    print_written(rt, name, sink, b"abcdef");
}

/// Reads a text whole and writes it, in pieces of so many bytes.
pub(crate) fn print_whole(rt: &impl Print, alloc: Global, piece: usize) {
    print_fact(rt, "reads_and_writes_all: by pieces of", &piece);
    let bytes = list_of(alloc, b"a whole text");
    let mut source = MemorySource::new(bytes, piece.max(1), List::new(alloc));
    if let Ok(text) = read_whole(alloc, &mut source) {
        let sink = MemorySink::new(alloc, piece.max(1), List::new(alloc));
        print_written(rt, "reads_and_writes_all", sink, text.as_slice());
    }
}
