//! Reads maps from blocks, which are written as arrays of their entries.
ghost use Rattle.std.specs.Prelude.{◌≡◌, [], ℕ, List, Result};
ghost use Rattle.alias_base.specs.declared.ids.BlockId.{BlockId};
ghost use Rattle.serde_json.specs.Data.{Data};
ghost use Rattle.alias_json.specs.Tree.{view, items_view};
ghost use Rattle.alias_json.specs.Pointer.{pointer};
ghost use Rattle.alias_base.specs.Answer.{Gives};
ghost use Rattle.alias_json.specs.Fault.{is_memory};
ghost use Rattle.alias_read.specs.Entries.{block_id_at, new_block, entry_items_at, entries_at};
ghost use Rattle.alias_json.specs.declared.fault.ValueFault.{ValueFault};

use crate::json::FromJson;
use alias_base::{BlockId, BlockMap};
use alias_json::{Path, TextRule, Tree, ValueFault, refused};
use std::alloc::Global;

impl FromJson for BlockId {
    ghost reads = { block_id_at };

    fn from_json(alloc: Global, path: &Path, value: &Tree) -> Result<BlockId, ValueFault> {
        Ok(BlockId(u32::from_json(alloc, path, value)?))
    }
}

/// A type whose values are read with the block that each belongs to.
pub trait FromEntry {
    ghost reads_entry: { List (BlockId × Self) → List ℕ → Data → Result (BlockId × Self) ValueFault };

    /// Reads an entry that stands at a path, after those that were found so far, or says what is wrong with
    /// it.
    fn from_entry(
        alloc: Global,
        path: &Path,
        found: &BlockMap<Self>,
        value: &Tree,
    ) -> Result<(BlockId, Self), ValueFault>
        ensures { Gives is_memory (reads_entry found.now (pointer path.now) (view value.now)) result };
}

/// Refuses a block that has an entry.
pub fn new_block<V>(
    alloc: Global,
    path: &Path,
    found: &BlockMap<V>,
    id: BlockId,
) -> Result<(), ValueFault>
    ensures { Gives is_memory (new_block found.now (pointer path.now) id) result }
{
    if found.get(id).is_some() {
        return refused(alloc, path, TextRule::Twice);
    }
    Ok(())
}

impl<V: FromEntry + Drop> FromJson for BlockMap<V> {
    ghost reads = { entries_at V.reads_entry };

    fn from_json(alloc: Global, path: &Path, value: &Tree) -> Result<BlockMap<V>, ValueFault> {
        match value.as_array() {
            Some(values) => entries(alloc, path, values),
            None => refused(alloc, path, TextRule::Kind),
        }
    }
}

fn entries<V: FromEntry + Drop>(
    alloc: Global,
    path: &Path,
    values: &[Tree],
) -> Result<BlockMap<V>, ValueFault>
    ensures { Gives is_memory (entry_items_at V.reads_entry (pointer path.now) 0 [] (items_view values.now)) result }
{
    let mut found = BlockMap::new(alloc);
    for (index, value) in values.iter().enumerate() {
        let here = Path::Index {
            above: &*path,
            index,
        };
        let (id, entry) = V::from_entry(alloc, &here, &found, value)?;
        found.insert(id, entry)?;
    }
    Ok(found)
}
