//! Standard input as a source, and standard output as a sink. Nothing is known of what they hold.
ghost use Rattle.std.specs.Prelude.{None, ◌==◌, ◌≡◌};

use crate::sink::{Sink, SinkStop};
use crate::source::{Failed, Source};
use std::io::{Read, Write};

/// A reader as a source.
#[derive(Drop)]
pub struct ReaderSource<R: Read + Drop> {
    reader: R,
    faults: u64,
}

impl<R: Read + Drop> ReaderSource<R> {
    /// A source of what the reader gives, of which no read has failed yet.
    pub fn new(reader: R) -> Self
        ensures { ⟦<Self as Source>⟧.faults result ≡ 0 }
    {
        ReaderSource { reader, faults: 0 }
    }
}

impl<R: Read + Drop> Source for ReaderSource<R> {
    ghost left = { λ _. None };

    ghost faults = { λ s. s.faults };

    ghost at_last = { λ s. s.faults == 18446744073709551615 };

    fn read(&mut self, buf: &mut [u8]) -> Result<usize, Failed> {
        match self.reader.read(buf) {
            Ok(count) => Ok(count),
            Err(_) => {
                self.faults = self.faults.saturating_add(1);
                Err(Failed)
            }
        }
    }
}

/// A writer as a sink. A writer that takes nothing of a piece has failed.
#[derive(Drop)]
pub struct WriterSink<W: Write + Drop> {
    writer: W,
    faults: u64,
}

impl<W: Write + Drop> WriterSink<W> {
    /// A sink into the writer, of which no write has failed yet.
    pub fn new(writer: W) -> Self
        ensures { ⟦<Self as Sink>⟧.faults result ≡ 0 }
    {
        WriterSink { writer, faults: 0 }
    }
}

impl<W: Write + Drop> Sink for WriterSink<W> {
    ghost held = { λ _. None };

    ghost faults = { λ s. s.faults };

    ghost at_last = { λ s. s.faults == 18446744073709551615 };

    fn write(&mut self, piece: &[u8]) -> Result<usize, SinkStop> {
        match self.writer.write(piece) {
            Ok(count) if count > 0 || piece.is_empty() => Ok(count),
            _ => {
                self.faults = self.faults.saturating_add(1);
                Err(SinkStop::Failed)
            }
        }
    }
}
