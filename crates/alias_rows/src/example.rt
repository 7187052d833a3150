//! A worked example, and whether a run comes out as it says.

use alias_base::{List, Text};
use alias_run::{
    Answer, Detail, Outcome, print_accepted, print_brief, print_explanation,
    print_function_explanation, print_inferred, print_lints, print_plainness, print_refusal,
    print_verified, run_alias,
};
use alias_stream::{MemorySink, MemorySource};
use std::alloc::{AllocError, Global};

/// Runs of an example that fail, each at another place of the whole run.
#[derive(Clone, Copy)]
pub enum Table {
    /// None.
    Nothing,
    /// At each read in turn.
    EachRead,
    /// At each write in turn.
    EachWrite,
    /// With each proper prefix of the input, which is to be no JSON.
    EachPrefix,
}

/// A run of the program: what it is given, and what must come.
#[derive(Drop)]
pub struct Example {
    pub name: Text,
    /// The words of the command line, with blanks between them.
    pub words: Text,
    pub input: Text,
    /// How many bytes a read or a write goes by at most.
    pub piece: usize,
    /// The number of the read that fails. The first has number 1, and 0 is none.
    pub failing_read: u64,
    /// The number of the write that fails.
    pub failing_write: u64,
    pub status: u8,
    pub written: Text,
    /// Which further runs there are of it.
    pub table: Table,
}

impl Example {
    /// An example of that name: `infer` on an empty input that goes by 100 bytes, with status 0 and nothing written.
    pub fn new(alloc: Global, name: &str) -> Result<Example, AllocError> {
        Ok(Example {
            name: Text::from_str(alloc, name)?,
            words: Text::new(alloc),
            input: Text::new(alloc),
            piece: 100,
            failing_read: 0,
            failing_write: 0,
            status: 0,
            written: Text::new(alloc),
            table: Table::Nothing,
        })
    }
}

/// What a run is given beside the words, and how it must end.
#[derive(Clone, Copy)]
pub struct Run<'a> {
    pub input: &'a [u8],
    pub failing_read: u64,
    pub failing_write: u64,
    pub status: u8,
    pub written: &'a [u8],
}

fn words_of(alloc: Global, text: &str) -> Result<Vec<Text>, AllocError> {
    let mut words = Vec::new(alloc);
    for word in text.split_whitespace() {
        words.push(Text::from_str(alloc, word)?)?;
    }
    Ok(words)
}

/// In which detail a command prints what is inferred.
fn detail_of(words: &str) -> Detail {
    match words {
        "infer" => Detail::Infer,
        "certify" => Detail::Certify,
        _ => Detail::Counts,
    }
}

/// The text of the outcome, by the calls that a host has for it. What the program tells of itself has none.
fn printed(alloc: Global, words: &str, outcome: &Outcome) -> Result<Text, AllocError> {
    match &outcome.answer {
        Answer::Nothing => print_refusal(alloc, &outcome.status),
        Answer::Inferred(inferred) => print_inferred(alloc, inferred, detail_of(words)),
        Answer::Accepted(accepted) => print_accepted(alloc, accepted),
        Answer::Briefed(text) => print_brief(alloc, text),
        Answer::Verified(functions) => print_verified(alloc, *functions),
        Answer::Linted(lints) => print_lints(alloc, lints.as_slice()),
        Answer::Explained(explanation) => print_explanation(alloc, explanation),
        Answer::FunctionExplained(explained) => {
            print_function_explanation(alloc, explained.as_slice())
        }
        Answer::Decided(plainness) => print_plainness(alloc, *plainness),
    }
}

/// Whether the run ends as it must, and writes what it must and nothing else, which is also the text of its outcome. An `Err` is out of memory outside the run.
pub fn ends(alloc: Global, example: &Example, run: &Run<'_>) -> Result<bool, AllocError> {
    let words = words_of(alloc, example.words.as_str())?;
    let piece = example.piece.max(1);
    let reads = List::from_slice(alloc, &[run.failing_read])?;
    let writes = List::from_slice(alloc, &[run.failing_write])?;
    let bytes = List::from_slice(alloc, run.input)?;
    let mut source = MemorySource::new(bytes, piece, reads);
    let mut sink = MemorySink::new(alloc, piece, writes);
    let outcome = run_alias(alloc, words.as_slice(), &mut source, &mut sink);
    let printed = printed(alloc, example.words.as_str(), &outcome);
    let tells = !matches!(outcome.answer, Answer::Nothing) || (run.status != 0 && run.status != 8);
    // Before the first exit, since an exit that drops an outcome is dear to prove.
    let code = outcome.into_code();
    let is_printed = printed?.as_str().as_bytes() == run.written;
    Ok(sink.bytes() == run.written && code == run.status && (is_printed || !tells))
}

/// Whether the example's own run ends as it says.
pub fn passes(alloc: Global, example: &Example) -> Result<bool, AllocError> {
    let run = Run {
        input: example.input.as_str().as_bytes(),
        failing_read: example.failing_read,
        failing_write: example.failing_write,
        status: example.status,
        written: example.written.as_str().as_bytes(),
    };
    ends(alloc, example, &run)
}
