//! `alias_bench < unit.json`: the effects of a unit's root by the call that hands no entry states out, in the lines and
//! with the statuses of the command `infer`. Nested functions aren't analysed, so it is for units without them.
//!
//! It is there to be timed beside that program, and to be compared with it. No clause says what it writes: it is
//! tested, and not proved to write the right text.
#![tactic(auto)]

mod plain;
mod reach;

use alias_base::Text;
use alias_rules::check::{Checked, check_unit};
use alias_run::Status;
use alias_run::text::push_refusal_line;
use alias_straight::read_unit;
use alias_stream::{ReaderSource, Sink, Source, WriterSink, read_whole, write_whole};
use plain::effects_text;
use std::alloc::Global;
use std::process::ExitCode;

/// The unit that the bytes spell, once it is checked.
fn unit_of(alloc: Global, bytes: &[u8]) -> Result<Checked, Status> {
    let unit = read_unit(alloc, bytes)?;
    Ok(check_unit(alloc, unit)?)
}

/// The text of the unit that the source spells, or why there is none.
fn find<S: Source>(alloc: Global, source: &mut S) -> Result<Text, Status> {
    let bytes = read_whole(alloc, source)?;
    Ok(effects_text(alloc, unit_of(alloc, bytes.as_slice())?)?)
}

/// Writes a text, and gives the status where that is done.
fn write<K: Sink>(sink: &mut K, text: &Text, status: Status) -> Status {
    match write_whole(sink, text.as_str().as_bytes()) {
        Ok(()) => status,
        Err(stop) => Status::from(stop),
    }
}

/// Reads the source to its end, writes to the sink what it leads to, and gives the status.
fn run<S: Source, K: Sink>(alloc: Global, source: &mut S, sink: &mut K) -> Status {
    match find(alloc, source) {
        Ok(text) => write(sink, &text, Status::Done),
        Err(status) => {
            let mut line = Text::new(alloc);
            match push_refusal_line(alloc, &mut line, &status) {
                Ok(()) => write(sink, &line, status),
                Err(_) => Status::Memory,
            }
        }
    }
}

fn main(rt: HostRuntime) -> ExitCode {
    let mut source = ReaderSource::new(rt.stdin());
    let mut sink = WriterSink::new(rt.stdout());
    ExitCode::from(run(rt.alloc(), &mut source, &mut sink).code())
}
