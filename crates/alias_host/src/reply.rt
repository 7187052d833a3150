//! What a line and an input lead to.
ghost use Rattle.std.specs.Prelude.{◌≡◌, [], Option};
ghost use Rattle.alias_run.specs.Commands.{command_of};
ghost use Rattle.alias_run.specs.declared.command.Command.{Command as Asked};
ghost use Rattle.alias_host.specs.Hosts.{IsAsked, IsReply, KeepsPromises, is_memory, text_kept};

use crate::bytes::{BytesSink, SliceSource};
use crate::words::words_of;
use alias_base::Text;
use alias_run::{Outcome, Status, run_alias};
use std::alloc::Global;

/// How a run ended, and its text.
#[derive(Drop)]
pub struct Reply {
    pub status: Status,
    /// Empty where memory ran out.
    pub text: Vec<u8>,
}

/// The reply where memory ran out.
fn ran_out(alloc: Global) -> Reply
    ensures { (result.status ≡ Status.Memory) × (result.text.items ≡ []) }
{
    Reply {
        status: Status::Memory,
        text: Vec::new(alloc),
    }
}

/// Whether memory ran out.
fn is_memory(status: &Status) -> bool
    ensures { result ≡ is_memory status.now }
{
    matches!(status, Status::Memory)
}

/// The text that is kept of what a run wrote: none where memory ran out.
fn text_kept(alloc: Global, status: &Status, text: Vec<u8>) -> Vec<u8>
    ensures { result.items ≡ text_kept status.now text.items }
{
    if is_memory(status) {
        return Vec::new(alloc);
    }
    text
}

/// The reply of a run that wrote this text.
fn replied(alloc: Global, outcome: Outcome, text: Vec<u8>) -> Reply
    ensures status { result.status ≡ outcome.status }
    ensures text { result.text.items ≡ text_kept outcome.status text.items }
{
    let text = text_kept(alloc, &outcome.status, text);
    Reply {
        status: outcome.status,
        text,
    }
}

/// What these words and an input lead to.
fn reply_to_words(alloc: Global, words: &[Text], input: &[u8]) -> Reply
    ensures reply { IsReply (command_of words.now) input.now result.status result.text.items }
    ensures promises { KeepsPromises (command_of words.now) input.now result.status }
{
    let mut source = SliceSource::new(input);
    let mut sink = BytesSink::new(alloc);
    let outcome = run_alias(alloc, words, &mut source, &mut sink);
    replied(alloc, outcome, sink.into_bytes())
}

/// What a line of words and an input lead to.
pub fn reply_to_line(alloc: Global, line: &[u8], input: &[u8]) -> Reply
    ensures { (asked : Option Asked) × IsAsked line.now asked × IsReply asked input.now result.status result.text.items × KeepsPromises asked input.now result.status }
{
    let Ok(line) = str::from_utf8(line) else {
        return reply_to_words(alloc, &[], input);
    };
    match words_of(alloc, line) {
        Ok(words) => reply_to_words(alloc, &words, input),
        Err(_) => ran_out(alloc),
    }
}
