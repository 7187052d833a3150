//! A whole run: words and a source in, a status and a text out.
ghost use Rattle.std.specs.Prelude.{◌≡◌, true, false};
ghost use Rattle.alias_stream.specs.Streams.{HasFailed};
ghost use Rattle.alias_run.specs.Commands.{command_of, reads};
ghost use Rattle.alias_run.specs.Findings.{Leaves};
ghost use Rattle.alias_run.specs.Runs.{IsRun, IsHeadline, IsComplete, IsAccepting};
ghost use Rattle.alias_run.specs.Texts.{IsCertifying, text_of};

use crate::command::Command;
use crate::finding::find;
use crate::outcome::{Outcome, unwritten};
use crate::status::Status;
use crate::text::text_of;
use alias_base::Text;
use alias_stream::{Sink, Source, write_whole};
use std::alloc::Global;

/// Does what the words ask for: `infer` and `certify` read the source to its end and make a unit of it, and `made`
/// makes one without it; the unit is checked, effects are inferred, and the result is written to the sink.
///
/// The words are those of the command line without the program's name; where they are no command, or one that doesn't
/// read, nothing is read. The clause `run` has the exact cause of each status, and what was written at each; the clause
/// `headline` says what status `Done` means, `complete` that no plain unit is refused that settles, `accepts` that
/// `check` rejects no certificate of what is inferred, `certifies` that what `certify` writes reads as one, and `leaves`
/// that a source that was to be read has nothing left where the status is of its whole input. A fault is told by the
/// outcome's status: docs/FORMAT.md has the table.
pub fn run_alias<S: Source, K: Sink>(
    alloc: Global,
    words: &[Text],
    source: &mut S,
    sink: &mut K,
) -> Outcome
    ensures run { let read_failed = HasFailed (S.faults source.old) (S.faults source.new) (S.at_last source.new) in
        let write_failed = HasFailed (K.faults sink.old) (K.faults sink.new) (K.at_last sink.new) in
        IsRun (command_of words.now) (S.left source.old) read_failed write_failed (K.held sink.old) (K.held sink.new) result.status result.answer }
    ensures headline { IsHeadline (command_of words.now) (S.left source.old) (K.held sink.old) (K.held sink.new) result.status result.answer }
    ensures complete { let read_failed = HasFailed (S.faults source.old) (S.faults source.new) (S.at_last source.new) in
        let write_failed = HasFailed (K.faults sink.old) (K.faults sink.new) (K.at_last sink.new) in
        IsComplete (command_of words.now) (S.left source.old) read_failed write_failed result.status }
    ensures accepts { let read_failed = HasFailed (S.faults source.old) (S.faults source.new) (S.at_last source.new) in
        let write_failed = HasFailed (K.faults sink.old) (K.faults sink.new) (K.at_last sink.new) in
        IsAccepting (command_of words.now) (S.left source.old) read_failed write_failed result.status }
    ensures certifies { let asked = command_of words.now in IsCertifying asked result.answer (text_of asked result.status result.answer) }
    ensures unread { reads (command_of words.now) ≡ false → (S.left source.new ≡ S.left source.old) × (S.faults source.new ≡ S.faults source.old) }
    ensures leaves { reads (command_of words.now) ≡ true → Leaves result.status (S.left source.new) }
{
    let asked = Command::from_words(words);
    let outcome = find(alloc, asked, source);
    let Ok(text) = text_of(alloc, asked, &outcome) else {
        return unwritten(outcome, Status::Memory);
    };
    match write_whole(sink, text.as_str().as_bytes()) {
        Ok(()) => outcome,
        Err(stop) => unwritten(outcome, Status::from(stop)),
    }
}
