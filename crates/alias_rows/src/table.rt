//! Tables of runs of one example, each of which fails at another place.

use crate::example::{Example, Run, Table, ends};
use std::alloc::{AllocError, Global};

/// The run of the example in which this read and this write fail, where it is to end with what comes without them.
fn whole_run(example: &Example, failing_read: u64, failing_write: u64) -> Run<'_> {
    Run {
        input: example.input.as_str().as_bytes(),
        failing_read,
        failing_write,
        status: example.status,
        written: example.written.as_str().as_bytes(),
    }
}

/// How many pieces so many bytes go by.
fn pieces(bytes: usize, piece: usize) -> usize {
    let whole = bytes.checked_div(piece).unwrap_or(0);
    if bytes.checked_rem(piece) == Some(0) {
        whole
    } else {
        whole.saturating_add(1)
    }
}

/// Each read of the whole run fails in turn: the one that meets the end is the last, and a later one isn't made.
fn each_read(alloc: Global, example: &Example) -> Result<bool, AllocError> {
    let data = pieces(example.input.as_str().len(), example.piece.max(1)) as u64;
    let count = data.saturating_add(1);
    for number in 1..=count {
        let run = Run {
            status: 7,
            written: b"refused ReadFault\n",
            ..whole_run(example, number, 0)
        };
        if !ends(alloc, example, &run)? {
            return Ok(false);
        }
    }
    ends(
        alloc,
        example,
        &whole_run(example, count.saturating_add(1), 0),
    )
}

/// Each write of the whole run fails in turn: what was written before stays.
fn each_write(alloc: Global, example: &Example) -> Result<bool, AllocError> {
    let piece = example.piece.max(1);
    let text = example.written.as_str().as_bytes();
    let count = pieces(text.len(), piece);
    for before in 0..count {
        let run = Run {
            status: 8,
            written: &text[..before.saturating_mul(piece).min(text.len())],
            ..whole_run(example, 0, (before as u64).saturating_add(1))
        };
        if !ends(alloc, example, &run)? {
            return Ok(false);
        }
    }
    ends(
        alloc,
        example,
        &whole_run(example, 0, (count as u64).saturating_add(1)),
    )
}

/// Each proper prefix of the input is no JSON.
fn each_prefix(alloc: Global, example: &Example) -> Result<bool, AllocError> {
    let input = example.input.as_str().as_bytes();
    for len in 0..input.len() {
        let run = Run {
            input: &input[..len],
            status: 3,
            written: b"refused NotJson\n",
            ..whole_run(example, 0, 0)
        };
        if !ends(alloc, example, &run)? {
            return Ok(false);
        }
    }
    Ok(true)
}

/// Whether each run of the example's table ends as it must.
pub fn passes_table(alloc: Global, example: &Example) -> Result<bool, AllocError> {
    match example.table {
        Table::Nothing => Ok(true),
        Table::EachRead => each_read(alloc, example),
        Table::EachWrite => each_write(alloc, example),
        Table::EachPrefix => each_prefix(alloc, example),
    }
}
