//! The blocks, each of which goes on to the next one.

ghost use Rattle.std.specs.Prelude.{◌≡◌, ◌+◌, ◌*◌, ◌<◌, ◌≤◌, IfOk};
ghost use Rattle.alias_made.specs.Blocks.{plain_block, block_of, last_block, made_blocks};

use crate::instructions::{object_of, use_of};
use alias_base::{BlockId, BlockMap, EvaluationOrder, InstructionId, List};
use alias_hir::hir::BasicBlock;
use alias_hir::terminal::Terminal;
use std::alloc::{AllocError, Global};

fn plain_block(alloc: Global, instructions: List<InstructionId>, terminal: Terminal) -> BasicBlock
    ensures { result ≡ plain_block instructions terminal }
{
    BasicBlock {
        phis: List::new(alloc),
        instructions,
        terminal,
    }
}

fn block_of(alloc: Global, block: u32) -> Result<BasicBlock, AllocError>
    requires { block < 1000 }
    ensures { IfOk result (λ b. b ≡ (block_of block).1) }
{
    let first = 3 * block;
    let instructions = [first, first + 1, first + 2].map(|number| InstructionId(number));
    let terminal = Terminal::Goto {
        id: EvaluationOrder(4 * block + 4),
        block: BlockId(block + 1),
    };
    Ok(plain_block(alloc, List::from_slice(alloc, &instructions)?, terminal))
}

fn last_block(alloc: Global, size: u32) -> BasicBlock
    requires some { 1 ≤ size }
    requires limit { size ≤ 1000 }
    ensures { result ≡ (last_block size).1 }
{
    let terminal = Terminal::Return {
        id: EvaluationOrder(4 * size + 1),
        value: use_of(object_of(size - 1)),
        effects: None,
    };
    plain_block(alloc, List::new(alloc), terminal)
}

/// So many blocks in a row, and the last one, which returns what the one before it made.
pub fn made_blocks(alloc: Global, size: u32) -> Result<BlockMap<BasicBlock>, AllocError>
    requires some { 1 ≤ size }
    requires limit { size ≤ 1000 }
    ensures { IfOk result (λ bs. bs ≡ made_blocks size) }
{
    let mut blocks = BlockMap::new(alloc);
    for block in 0..size {
        blocks.insert(BlockId(block), block_of(alloc, block)?)?;
    }
    blocks.insert(BlockId(size), last_block(alloc, size))?;
    Ok(blocks)
}
