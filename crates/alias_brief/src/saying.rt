//! What an inference says of its functions, as a certificate: entry states and temporaries.
ghost use Rattle.std.specs.Prelude.{◌≡◌, ◌++◌, map, IfOk, OnOk};
ghost use Rattle.alias_lattice.specs.States.{empty_state};
ghost use Rattle.alias_brief.specs.Saying.{said_block, said_temporary, said_function, said};

use alias_base::{List, TryClone};
use alias_certificate::{CertBlock, CertFunction, CertTemporary, Certificate, beyond_of};
use alias_effects::{BlockEntry, Solved};
use alias_lattice::InferenceState;
use alias_tables::Temporary;
use std::alloc::{AllocError, Global};

/// What is said of a block.
fn said_block(
    alloc: Global,
    nothing: &InferenceState,
    entry: &BlockEntry,
) -> Result<CertBlock, AllocError>
    requires { nothing.now ≡ empty_state }
    ensures { IfOk result (λ block. block ≡ said_block entry.now) }
{
    let whole = beyond_of(alloc, &entry.state, nothing)?;
    Ok(CertBlock {
        block: entry.block,
        values: whole.values,
        variables: whole.variables,
        effects: List::new(alloc),
        end: List::new(alloc),
    })
}

fn push_blocks(
    alloc: Global,
    blocks: &mut List<CertBlock>,
    entries: &[BlockEntry],
) -> Result<(), AllocError>
    ensures { OnOk result (blocks.new ≡ blocks.old ++ map said_block entries.now) }
{
    let nothing = InferenceState::empty(alloc);
    for entry in entries {
        let block = said_block(alloc, &nothing, entry)?;
        blocks.push(block)?;
    }
    Ok(())
}

fn said_temporary(alloc: Global, temporary: &Temporary) -> Result<CertTemporary, AllocError>
    ensures { IfOk result (λ t. t ≡ said_temporary temporary.now) }
{
    Ok(CertTemporary {
        identifier: temporary.place.identifier,
        key: temporary.key.try_clone(alloc)?,
    })
}

fn push_temporaries(
    alloc: Global,
    out: &mut List<CertTemporary>,
    temporaries: &[Temporary],
) -> Result<(), AllocError>
    ensures { OnOk result (out.new ≡ out.old ++ map said_temporary temporaries.now) }
{
    for temporary in temporaries {
        let temporary = said_temporary(alloc, temporary)?;
        out.push(temporary)?;
    }
    Ok(())
}

/// What is said of a function.
fn said_function(alloc: Global, solved: &Solved) -> Result<CertFunction, AllocError>
    ensures { IfOk result (λ function. function ≡ said_function solved.now) }
{
    let mut blocks = List::new(alloc);
    push_blocks(alloc, &mut blocks, solved.entries.as_slice())?;
    let mut temporaries = List::new(alloc);
    push_temporaries(alloc, &mut temporaries, solved.temporaries.as_slice())?;
    Ok(CertFunction {
        function: solved.function,
        blocks,
        temporaries,
        summary: List::new(alloc),
    })
}

/// What solutions say of their functions, as a certificate: the entry states of blocks, whole, and the temporaries. Nothing
/// is said of effects and summaries. The one error is out of memory.
pub fn said(alloc: Global, solved: &[Solved]) -> Result<Certificate, AllocError>
    ensures { IfOk result (λ certificate. certificate.functions ≡ said solved.now) }
{
    let mut functions = List::new(alloc);
    for of_function in solved {
        let function = said_function(alloc, of_function)?;
        functions.push(function)?;
    }
    Ok(Certificate { functions })
}
