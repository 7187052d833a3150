//! Takes maps from blocks, which are written as arrays of their entries.
ghost use Rattle.std.specs.Prelude.{IfOk};
ghost use Rattle.alias_straight.specs.Takes.{Takes};

use crate::fault::TakeFault;
use crate::tokens::{FromTokens, open_array, take_number};
use alias_base::{BlockId, BlockMap};
use alias_hir::place::Place;
use alias_read::entries::FromEntry;
use json::Reader;
use std::alloc::Global;

impl FromTokens for BlockId {
    fn from_tokens(alloc: Global, reader: &mut Reader, depth: usize) -> Result<BlockId, TakeFault> {
        let number = u32::from_tokens(alloc, reader, depth)?;
        Ok(BlockId(number))
    }
}

/// A type whose values are taken off the tokens with the block that each belongs to.
pub trait TakeEntry: FromEntry {
    /// Takes an entry, after those that were found so far.
    fn take_entry(
        alloc: Global,
        reader: &mut Reader,
        found: &BlockMap<Self>,
        depth: usize,
    ) -> Result<(BlockId, Self), TakeFault>
        ensures { IfOk result (λ e. Takes (Self.reads_entry found.now) depth reader.old e reader.new) };
}

impl<V: TakeEntry + Drop> FromTokens for BlockMap<V> {
    fn from_tokens(
        alloc: Global,
        reader: &mut Reader,
        depth: usize,
    ) -> Result<BlockMap<V>, TakeFault> {
        if depth == 0 {
            return Err(TakeFault::Unusual);
        }
        open_array(reader)?;
        let mut found = BlockMap::new(alloc);
        'items: while !reader.take_end_array() {
            let (id, entry) = V::take_entry(alloc, reader, &found, depth - 1)?;
            found.insert(id, entry)?;
        }
        Ok(found)
    }
}

impl TakeEntry for Place {
    fn take_entry(
        alloc: Global,
        reader: &mut Reader,
        found: &BlockMap<Place>,
        depth: usize,
    ) -> Result<(BlockId, Place), TakeFault> {
        if depth == 0 {
            return Err(TakeFault::Unusual);
        }
        open_array(reader)?;
        let number = take_number(reader)?;
        if found.get(BlockId(number)).is_some() {
            return Err(TakeFault::Unusual);
        }
        let place = Place::from_tokens(alloc, reader, depth - 1)?;
        if !reader.take_end_array() {
            return Err(TakeFault::Unusual);
        }
        Ok((BlockId(number), place))
    }
}
