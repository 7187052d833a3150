//! Worked examples: runs each of those that standard input has, and writes a line for each: `passed` and its name
//! where the run comes out as the example says, and else `failed` and its name.
//!
//! An example is some lines: `example` and its name; `words`; `unit` and the input, `same unit` for the unit that stood last, or
//! `blanks` and how many blanks the input has; `+` and a line that the input has behind a newline, as those of a certificate;
//! `status` and the exit status that must come; and `>` and a line for each line that must come, with `cut` for one that comes
//! without its end. `piece`, `failing_read` and `failing_write` are for streams that go by so
//! many bytes, or that fail at the call of that number. `each read`, `each write` and `each prefix` are for further runs,
//! which must fail: at each read or write of the whole run in turn, or with each proper prefix of the input. Other lines are
//! remarks.
#![tactic(auto)]

mod example;
mod reading;
mod table;

use anyhow::Result;
use example::passes;
use reading::examples;
use std::io;
use table::passes_table;

fn main(rt: HostRuntime) -> Result<()> {
    let alloc = rt.alloc();
    let text = io::read_to_string(alloc, rt.stdin())?;
    let examples = examples(alloc, text.as_str())?;
    for example in &examples {
        let verdict = if passes(alloc, example)? && passes_table(alloc, example)? {
            "passed"
        } else {
            "failed"
        };
        println!(rt; "{verdict} {}", example.name.as_str())?;
    }
    Ok(())
}
