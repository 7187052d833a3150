//! The line of an answer of `check`.
ghost use Rattle.std.specs.Prelude.{◌≡◌, ◌++◌, OnOk, codes};
ghost use Rattle.alias_text.specs.Refusals.{number_text};
ghost use Rattle.alias_cert_text.specs.check_lines.CheckLines.{head_text, function_head_text, block_head_text, in_function_text, at_block_text, at_edge_text, at_position_text, at_counter_text, rejected_text, accepted_text};

use alias_base::{BlockId, FunctionId, Text};
use alias_certificate::CheckFault;
use alias_hir::error::Counter;
use alias_text::effects::push_spaced;
use alias_text::functions::push_function_name;
use alias_text::refusals::counter_word;
use std::alloc::AllocError;

/// Appends that a certificate is rejected, and the number of the fault.
fn push_head(out: &mut Text, fault: u64) -> Result<(), AllocError>
    ensures { OnOk result (out.new ≡ out.old ++ head_text fault) }
{
    out.push_str("refused Rejected ")?;
    out.push_number(fault)
}

/// Appends the start of a line of a fault that names a function.
fn push_function_head(
    out: &mut Text,
    fault: u64,
    function: Option<FunctionId>,
) -> Result<(), AllocError>
    ensures { OnOk result (out.new ≡ out.old ++ function_head_text fault function) }
{
    push_head(out, fault)?;
    out.push_str(" ")?;
    push_function_name(out, function)
}

/// Appends the line of a fault that names a function.
fn push_in_function(
    out: &mut Text,
    fault: u64,
    function: Option<FunctionId>,
) -> Result<(), AllocError>
    ensures { OnOk result (out.new ≡ out.old ++ in_function_text fault function) }
{
    push_function_head(out, fault, function)?;
    out.push_str("\n")
}

/// Appends the start of a line of a fault that names a block of a function.
fn push_block_head(
    out: &mut Text,
    fault: u64,
    function: Option<FunctionId>,
    block: BlockId,
) -> Result<(), AllocError>
    ensures { OnOk result (out.new ≡ out.old ++ block_head_text fault function block) }
{
    push_function_head(out, fault, function)?;
    push_spaced(out, u64::from(block.0))
}

/// Appends the line of a fault at a block of a function.
fn push_at_block(
    out: &mut Text,
    fault: u64,
    function: Option<FunctionId>,
    block: BlockId,
) -> Result<(), AllocError>
    ensures { OnOk result (out.new ≡ out.old ++ at_block_text fault function block) }
{
    push_block_head(out, fault, function, block)?;
    out.push_str("\n")
}

/// Appends the line of a fault between a block of a function and one of its successors.
fn push_at_edge(
    out: &mut Text,
    fault: u64,
    function: Option<FunctionId>,
    block: BlockId,
    successor: BlockId,
) -> Result<(), AllocError>
    ensures { OnOk result (out.new ≡ out.old ++ at_edge_text fault function block successor) }
{
    push_block_head(out, fault, function, block)?;
    push_spaced(out, u64::from(successor.0))?;
    out.push_str("\n")
}

/// Appends the line of a fault at a position of the certificate.
fn push_at_position(out: &mut Text, fault: u64, position: usize) -> Result<(), AllocError>
    ensures { OnOk result (out.new ≡ out.old ++ at_position_text fault position) }
{
    push_head(out, fault)?;
    push_spaced(out, position as u64)?;
    out.push_str("\n")
}

/// Appends the line of a fault for want of numbers.
fn push_at_counter(out: &mut Text, fault: u64, which: Counter) -> Result<(), AllocError>
    ensures { OnOk result (out.new ≡ out.old ++ at_counter_text fault which) }
{
    push_head(out, fault)?;
    out.push_str(" ")?;
    out.push_str(counter_word(which))?;
    out.push_str("\n")
}

/// Appends the line of a certificate that isn't accepted: the number of the fault, and where it is. Out of memory has no
/// line. An `Err` is out of memory: `out` may then hold a part of it.
pub fn push_rejected(out: &mut Text, fault: &CheckFault) -> Result<(), AllocError>
    ensures { OnOk result (out.new ≡ out.old ++ rejected_text fault.now) }
{
    match fault {
        CheckFault::Functions { position } => push_at_position(out, 1, *position),
        CheckFault::Blocks { function } => push_in_function(out, 2, *function),
        CheckFault::State { function, block } => push_at_block(out, 3, *function, *block),
        CheckFault::Temporaries { function } => push_in_function(out, 4, *function),
        CheckFault::Initial { function } => push_in_function(out, 5, *function),
        CheckFault::Step {
            function,
            block,
            ..
        } => push_at_block(out, 6, *function, *block),
        CheckFault::MissingTemporary { function, block } => {
            push_at_block(out, 7, *function, *block)
        }
        CheckFault::Effects { function, block } => push_at_block(out, 8, *function, *block),
        CheckFault::NotBelow {
            function,
            block,
            successor,
        } => push_at_edge(out, 9, *function, *block, *successor),
        CheckFault::NotJoin { function, block } => push_at_block(out, 10, *function, *block),
        CheckFault::Summary { function } => push_in_function(out, 11, *function),
        CheckFault::TooMany { which } => push_at_counter(out, 12, *which),
        CheckFault::Memory(_) => Ok(()),
    }
}

/// Appends the line of a text that is no certificate: the number of its first line, from 1, that isn't in the grammar. An
/// `Err` is out of memory: `out` may then hold a part of it.
pub fn push_bad_line(out: &mut Text, number: usize) -> Result<(), AllocError>
    ensures { OnOk result (out.new ≡ out.old ++ number_text (codes "BadLine") number) }
{
    out.push_str("refused BadLine")?;
    push_spaced(out, number as u64)?;
    out.push_str("\n")
}

/// Appends the line of a certificate of so many functions that is accepted. An `Err` is out of memory: `out` may then hold a
/// part of it.
pub fn push_accepted(out: &mut Text, functions: usize) -> Result<(), AllocError>
    ensures { OnOk result (out.new ≡ out.old ++ accepted_text functions) }
{
    out.push_str("accepted")?;
    push_spaced(out, functions as u64)?;
    out.push_str("\n")
}
