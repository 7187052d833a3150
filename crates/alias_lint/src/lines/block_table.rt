//! The blocks that list instructions.
ghost use Rattle.std.specs.Prelude.{◌≡◌, ◌==◌, length, slice_set, IfOk};
ghost use Rattle.std.specs.List.{list_any};
ghost use Rattle.alias_base.specs.declared.ids.InstructionId.{InstructionId};
ghost use Rattle.alias_lint.specs.Sites.{block_of, in_root};
ghost use Rattle.alias_lint.specs.lines.BlockTables.{IsBlockTable, IsNoted, noted};

use crate::Site;
use alias_base::{BlockId, InstructionId};
use alias_hir::hir::HirFunction;
use std::alloc::{AllocError, Global};

/// Notes the block for the instruction, unless one is noted.
fn note(table: &mut Vec<Option<BlockId>>, block: BlockId, id: InstructionId)
    ensures { table.new.items ≡ noted table.old.items block id }
{
    let at = id.0 as usize;
    if at < table.len() && table[at].is_none() {
        table[at] = Some(block);
    }
}

/// Notes the block for each instruction that it lists, unless one is noted.
fn note_block(table: &mut Vec<Option<BlockId>>, block: BlockId, ids: &[InstructionId])
    ensures { IsNoted block ids.now table.old.items table.new.items }
{
    for id in ids {
        note(table, block, *id);
    }
}

/// For each instruction of the function's table the first block that lists it.
pub(crate) fn block_table(
    alloc: Global,
    func: &HirFunction,
) -> Result<Vec<Option<BlockId>>, AllocError>
    ensures { IfOk result (λ table. IsBlockTable func.now table.items) }
{
    let mut table = vec![in alloc; None; func.instructions.len()]?;
    for (id, block) in func.body.blocks.iter() {
        note_block(&mut table, *id, block.instructions.as_slice());
    }
    Ok(table)
}

/// Whether the block lists the instruction.
fn lists(id: InstructionId, ids: &[InstructionId]) -> bool
    ensures { result ≡ list_any (λ (j : InstructionId). j.0 == id.0) ids.now }
{
    for listed in ids {
        if listed.0 == id.0 {
            return true;
        }
    }
    false
}

/// The same by a search, for an instruction that the table doesn't have.
fn search_blocks(func: &HirFunction, id: InstructionId) -> BlockId
    ensures { result ≡ block_of func.now id }
{
    for (block, body) in func.body.blocks.iter() {
        if lists(id, body.instructions.as_slice()) {
            return *block;
        }
    }
    func.body.entry
}

/// The first block that lists the instruction; the entry where none does.
fn block_of(func: &HirFunction, table: &[Option<BlockId>], id: InstructionId) -> BlockId
    requires { IsBlockTable func.now table.now }
    ensures { result ≡ block_of func.now id }
{
    match table.get(id.0 as usize) {
        Some(Some(block)) => *block,
        Some(None) => func.body.entry,
        None => search_blocks(func, id),
    }
}

/// An instruction of the root.
pub(crate) fn in_root(func: &HirFunction, table: &[Option<BlockId>], id: InstructionId) -> Site
    requires { IsBlockTable func.now table.now }
    ensures { result ≡ in_root func.now id }
{
    Site {
        function: None,
        block: block_of(func, table, id),
        instruction: Some(id),
    }
}
