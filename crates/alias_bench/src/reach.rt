//! Which blocks of a function are reached.

use alias_base::{BlockId, BlockMap};
use alias_hir::hir::{BasicBlock, Hir};
use alias_hir::successors::terminal_successors;
use std::alloc::{AllocError, Global};
use std::mem;

/// The positions of blocks that were come to: each with its mark, and in the order in which they were.
#[derive(Drop)]
struct Walk {
    seen: Vec<bool>,
    order: Vec<usize>,
}

/// Comes to a block, unless it isn't there or was come to before.
fn come_to(
    walk: &mut Walk,
    blocks: &BlockMap<BasicBlock>,
    name: BlockId,
) -> Result<(), AllocError> {
    let Some(position) = blocks.position(name) else {
        return Ok(());
    };
    let Some(seen) = walk.seen.get_mut(position) else {
        return Ok(());
    };
    if !mem::replace(seen, true) {
        walk.order.push(position)?;
    }
    Ok(())
}

/// Comes to all blocks that control may go on to from the one at a position.
fn go_on(
    alloc: Global,
    walk: &mut Walk,
    blocks: &BlockMap<BasicBlock>,
    position: usize,
) -> Result<(), AllocError> {
    let Some((_, block)) = blocks.get_index(position) else {
        return Ok(());
    };
    let names = terminal_successors(alloc, &block.terminal)?;
    for name in names.as_slice() {
        come_to(walk, blocks, *name)?;
    }
    Ok(())
}

/// Comes to all blocks that control may come to from the entry.
fn walk_from_entry(alloc: Global, body: &Hir) -> Result<Walk, AllocError> {
    let count = body.blocks.len();
    let mut walk = Walk {
        seen: vec![in alloc; false; count]?,
        order: Vec::new(alloc),
    };
    come_to(&mut walk, &body.blocks, body.entry)?;
    for turn in 0..count {
        let Some(position) = walk.order.as_slice().get(turn) else {
            break;
        };
        let position = *position;
        go_on(alloc, &mut walk, &body.blocks, position)?;
    }
    Ok(walk)
}

/// The blocks that control may come to from the entry, in stored order. The one error is out of memory.
pub fn reached(alloc: Global, body: &Hir) -> Result<Vec<BlockId>, AllocError> {
    let walk = walk_from_entry(alloc, body)?;
    let mut names = Vec::new(alloc);
    for (entry, seen) in body.blocks.iter().zip(walk.seen.iter()) {
        if *seen {
            names.push(*entry.0)?;
        }
    }
    Ok(names)
}
