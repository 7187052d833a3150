//! The entry states that a certificate says of a function.
ghost use Rattle.std.specs.Prelude.{◌≡◌, [], Option, Some, None, IfOk};
ghost use Rattle.alias_base.specs.Answer.{Gives};
ghost use Rattle.alias_cert.specs.function.Entries.{entry_stated, entries_stated};
ghost use Rattle.alias_cert.specs.function.Faults.{is_memory};

use alias_base::{FunctionId, List};
use alias_certificate::states::stated_state;
use alias_certificate::{CertBlock, CheckFault, CreatedFunctions};
use alias_lattice::InferenceState;
use std::alloc::Global;

/// The entry state that the line of this number says.
fn entry_stated(
    alloc: Global,
    function: Option<FunctionId>,
    identifiers: usize,
    created: &CreatedFunctions,
    lines: &[CertBlock],
    number: Option<usize>,
) -> Result<Option<InferenceState>, CheckFault>
    ensures { Gives is_memory (entry_stated function identifiers created.now lines.now number) result }
{
    let Some(number) = number else {
        return Ok(None);
    };
    let Some(line) = lines.get(number) else {
        return Ok(None);
    };
    match stated_state(alloc, identifiers, created, line)? {
        Some(state) => Ok(Some(state)),
        None => Err(CheckFault::State {
            function,
            block: line.block,
        }),
    }
}

/// The entry states of the blocks that have these lines.
pub(crate) fn entries_stated(
    alloc: Global,
    function: Option<FunctionId>,
    identifiers: usize,
    created: &CreatedFunctions,
    lines: &[CertBlock],
    numbers: &[Option<usize>],
) -> Result<List<Option<InferenceState>>, CheckFault>
    ensures { Gives is_memory (entries_stated function identifiers created.now lines.now [] numbers.now) result }
{
    let mut entries = List::new(alloc);
    for number in numbers {
        let entry = entry_stated(alloc, function, identifiers, created, lines, *number)?;
        entries.push(entry)?;
    }
    Ok(entries)
}
