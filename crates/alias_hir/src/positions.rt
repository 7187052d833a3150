//! Positions of blocks in stored order, which flows go by.

ghost use Rattle.std.specs.Prelude.{◌≡◌, ◌<◌, ◌^◌, length, IfOk};
ghost use Rattle.alias_hir.specs.Positions.{positions_of, entry_position};

use crate::hir::{BasicBlock, HirFunction};
use alias_base::{BlockId, BlockMap};
use smallvec::SmallVec;
use std::alloc::{AllocError, Global};

/// The position of the entry of a function, or 0 where it is no block of it.
pub fn entry_position(func: &HirFunction) -> usize
    ensures { result ≡ entry_position func.now }
{
    match func.body.blocks.position(func.body.entry) {
        Some(position) => position,
        None => 0,
    }
}

/// The positions of those of the list that are blocks, in the list's order. The one error is out of memory.
pub fn positions_of(
    alloc: Global,
    blocks: &BlockMap<BasicBlock>,
    names: &[BlockId],
) -> Result<SmallVec<u32, 2, Global>, AllocError>
    requires { length blocks.now < 2 ^ 32 }
    ensures { IfOk result (λ positions. positions.items ≡ positions_of blocks.now names.now) }
{
    let mut positions = SmallVec::new(alloc);
    for name in names {
        if let Some(position) = blocks.position(*name) {
            positions.push(position as u32)?;
        }
    }
    Ok(positions)
}
