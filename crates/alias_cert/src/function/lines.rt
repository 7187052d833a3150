//! The block lines of a function.
ghost use Rattle.std.specs.Prelude.{◌≡◌, IfOk, Option, Some, None, length, slice_index_or, vec_len};
ghost use Rattle.std.specs.List.{list_all};
ghost use Rattle.alias_flow.specs.Machine.{up};
ghost use Rattle.alias_effects.specs.Inference.{block_at};
ghost use Rattle.alias_cert.specs.function.Blocks.{line_numbers, marked_count, line_is, are_lines};

use alias_base::{BlockId, BlockMap};
use alias_certificate::CertBlock;
use alias_hir::hir::BasicBlock;
use std::alloc::{AllocError, Global};

/// The line of each block: those that are marked have one each, in their order.
pub(crate) fn line_numbers(alloc: Global, marks: &[bool]) -> Result<Vec<Option<usize>>, AllocError>
    ensures { IfOk result (λ numbers. numbers.items ≡ line_numbers 0 marks.now) }
{
    let mut numbers = Vec::new(alloc);
    let mut next = 0;
    for mark in marks {
        if *mark {
            numbers.push(Some(next))?;
            next += 1;
        } else {
            numbers.push(None)?;
        }
    }
    Ok(numbers)
}

/// How many are marked.
fn marked_count(marks: &[bool]) -> usize
    ensures { result ≡ marked_count marks.now }
{
    let mut count = 0;
    for mark in marks {
        if *mark {
            count += 1;
        }
    }
    count
}

/// The name of the block at a position.
pub fn block_at(blocks: &BlockMap<BasicBlock>, position: usize) -> BlockId
    ensures { result ≡ block_at blocks.now position }
{
    match blocks.get_index(position) {
        Some((name, _)) => *name,
        // Never asked for: the positions are those of blocks.
        None => BlockId(0),
    }
}

/// Whether the line, if there is to be one, is of this block.
fn line_is(lines: &[CertBlock], block: BlockId, number: Option<usize>) -> bool
    ensures { result ≡ line_is lines.now block number }
{
    let Some(number) = number else {
        return true;
    };
    match lines.get(number) {
        Some(line) => line.block.0 == block.0,
        None => false,
    }
}

/// The number of a block's line, if it has one.
pub fn number_at(numbers: &[Option<usize>], block: usize) -> Option<usize>
    ensures { result ≡ slice_index_or numbers.now block None }
{
    match numbers.get(block) {
        Some(number) => *number,
        None => None,
    }
}

/// Whether the lines are those of the marked blocks, in stored order.
#[tactic(auto, using(alias_flow::proofs::check::Rounds::up_next))]
pub(crate) fn are_lines(
    lines: &[CertBlock],
    blocks: &BlockMap<BasicBlock>,
    marks: &[bool],
    numbers: &[Option<usize>],
) -> bool
    requires { numbers.now ≡ line_numbers 0 marks.now }
    ensures { result ≡ are_lines lines.now blocks.now marks.now }
{
    if lines.len() != marked_count(marks) {
        return false;
    }
    for index in 0..blocks.len() {
        if !line_is(lines, block_at(blocks, index), number_at(numbers, index)) {
            return false;
        }
    }
    true
}
