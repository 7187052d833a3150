//! Which line is a block's: the first that is of it.
ghost use Rattle.std.specs.Prelude.{◌≡◌, IfOk, length, option_map, position};
ghost use Rattle.std.specs.Map.{keys_of};
ghost use Rattle.alias_base.specs.Find.{same_block};
ghost use Rattle.alias_follow.specs.lines.First.{line_at, first_lines, noted};

use alias_base::{BlockId, BlockMap};
use alias_certificate::CertBlock;
use alias_flow::nothing_yet;
use alias_hir::hir::BasicBlock;
use std::alloc::{AllocError, Global};

/// Notes the number for the block, unless there is one.
fn note_line(
    numbers: &mut Vec<Option<usize>>,
    names: &BlockMap<BasicBlock>,
    block: BlockId,
    number: usize,
)
    ensures { numbers.new.items ≡ noted (position (same_block block) (keys_of names.now)) number numbers.old.items }
{
    if let Some(position) = names.position(block)
        && let Some(None) = numbers.get(position)
    {
        numbers[position] = Some(number);
    }
}

/// The number of the first line of each block, of which there are so many. The one error is out of memory.
pub(crate) fn first_lines(
    alloc: Global,
    names: &BlockMap<BasicBlock>,
    count: u32,
    lines: &[CertBlock],
) -> Result<Vec<Option<usize>>, AllocError>
    requires { count ≡ length names.now }
    ensures { IfOk result (λ numbers. numbers.items ≡ first_lines lines.now names.now) }
{
    let mut numbers = nothing_yet(alloc, count)?;
    // Looked at for what the clause of `len` says: no two blocks have one name.
    let _count = names.len();
    for (number, line) in lines.iter().enumerate() {
        note_line(&mut numbers, names, line.block, number);
    }
    Ok(numbers)
}

/// The line of the number, if there is one.
pub(crate) fn line_at(lines: &[CertBlock], number: Option<usize>) -> Option<&CertBlock>
    ensures { option_map (λ line. line.now) result ≡ line_at lines.now number }
{
    lines.get(number?)
}
