//! The program: `jirrambeo infer < unit.json`. Its words and streams are the system's; all else is alias_run. At a
//! terminal it says on standard error why a run was refused.
#![tactic(auto)]

ghost use Rattle.std.specs.Prelude.{◌≡◌, IfOk, map, drop, string_bytes};

use alias_base::Text;
use alias_run::{Status, print_refusal, run_alias};
use alias_stream::{ReaderSource, WriterSink};
use std::alloc::{AllocError, Global};
use std::io;
use std::io::IsTerminal;
use std::process::ExitCode;
use std::rt::Env;

/// The words of a command line: its arguments without the first, which is the program's name.
fn words_of(alloc: Global, arguments: Vec<String>) -> Result<Vec<Text>, AllocError>
    ensures { IfOk result (λ words. words.items ≡ map string_bytes (drop 1 arguments.items)) }
{
    arguments
        .into_iter()
        .skip(1)
        .map(Text::from_string)
        .collect(alloc)
}

/// The words that the system gives. The clauses of `std::env::args` do not say what they are.
fn words_given(rt: &(impl Env + AllocGlobal), alloc: Global) -> io::Result<Vec<Text>> {
    let arguments: Vec<String> = std::env::args(rt)?.collect(alloc)?;
    Ok(words_of(alloc, arguments)?)
}

/// Says on standard error why a run was refused, with the line that standard output has, where a person reads it. What can't
/// be said is left unsaid: the status of the program says it too.
fn explain(rt: &HostRuntime, alloc: Global, status: &Status) {
    if status.code() == 0 || !rt.stderr().is_terminal() {
        return;
    }
    let why = status.explanation();
    let _ = match print_refusal(alloc, status) {
        Ok(line) if line.as_str() != "" => eprint!(rt; "jirrambeo: {why}: {}", line.as_str()),
        _ => eprintln!(rt; "jirrambeo: {why}"),
    };
}

/// How the program ends where the words couldn't be had: memory ran out, or one of them isn't UTF-8.
fn without_words(rt: &HostRuntime, alloc: Global, error: &io::Error) -> ExitCode {
    if error.kind() == io::ErrorKind::OutOfMemory {
        let status = Status::Memory;
        explain(rt, alloc, &status);
        return ExitCode::from(status.code());
    }
    let _ = eprintln!(rt;
        "jirrambeo: the words of the command line couldn't be had from the system"
    );
    ExitCode::from(1)
}

fn main(rt: HostRuntime) -> ExitCode {
    let alloc = rt.alloc();
    let words = match words_given(&rt, alloc) {
        Ok(words) => words,
        Err(error) => return without_words(&rt, alloc, &error),
    };
    let mut source = ReaderSource::new(rt.stdin());
    let mut sink = WriterSink::new(rt.stdout());
    let outcome = run_alias(alloc, &words, &mut source, &mut sink);
    explain(&rt, alloc, &outcome.status);
    ExitCode::from(outcome.into_code())
}
