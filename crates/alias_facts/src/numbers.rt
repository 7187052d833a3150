//! Maps from numbers and sets of numbers, in ascending order.
ghost use Rattle.std.specs.Prelude.{◌≡◌, [], OnOk, OnErr};
ghost use Rattle.std.specs.Ordering.{nat_cmp};
ghost use Rattle.std.specs.Map.{lookup, remove_entry};
ghost use Rattle.std.specs.BTreeMap.{is_at, insert_entry};
ghost use Rattle.std.specs.BTreeSet.{insert_key};
ghost use Rattle.std.specs.List.{list_any};

use std::alloc::{AllocError, Global};
use std::collections::btree_map::Iter;
use std::collections::{BTreeMap, BTreeSet};
use std::marker::Model;

/// A map from numbers, as its entries in ascending order.
#[derive(Drop)]
pub struct NumberMap<V> {
    map: BTreeMap<u32, V>,
}

impl<V> Model for NumberMap<V> {
    ghost use Rattle.std.specs.Prelude.{ℕ, List};

    ghost Value = { List (ℕ × V) };

    ghost view = { λ m. m.map.entries };
}

impl<V: Copy> NumberMap<V> {
    /// The empty map. Takes no memory.
    pub fn new(alloc: Global) -> Self
        ensures { result ≡ [] }
    {
        NumberMap {
            map: BTreeMap::new(alloc),
        }
    }

    /// The value of a number, or `None` where it has none.
    pub fn get(&self, number: u32) -> Option<V>
        ensures { result ≡ lookup (is_at (nat_cmp number)) self.now }
    {
        self.map.get(&number).copied()
    }

    /// Sets the value of a number. After an `Err` nothing has changed.
    pub fn set(&mut self, number: u32, value: V) -> Result<(), AllocError>
        ensures ok { OnOk result (self.new ≡ insert_entry nat_cmp self.old number value) }
        ensures err { OnErr result (self.new ≡ self.old) }
    {
        self.map.insert(number, value)?;
        Ok(())
    }

    /// Takes a number and its value out, where it is there.
    pub fn remove(&mut self, number: u32)
        ensures { self.new ≡ remove_entry (is_at (nat_cmp number)) self.old }
    {
        let _ = self.map.remove(&number);
    }
}

impl<V> NumberMap<V> {
    /// The entries in ascending order.
    pub fn iter(&self) -> Iter<'_, u32, V>
        ensures { result ≡ self.now }
    {
        self.map.iter()
    }
}

/// A set of numbers, in ascending order.
#[derive(Drop)]
pub struct NumberSet {
    set: BTreeSet<u32>,
}

impl Model for NumberSet {
    ghost use Rattle.std.specs.Prelude.{ℕ, List};

    ghost Value = { List ℕ };

    ghost view = { λ s. s.set.keys };
}

impl NumberSet {
    /// The empty set. Takes no memory.
    pub fn new(alloc: Global) -> Self
        ensures { result ≡ [] }
    {
        NumberSet {
            set: BTreeSet::new(alloc),
        }
    }

    /// Whether the number is in the set.
    pub fn contains(&self, number: u32) -> bool
        ensures { result ≡ list_any (is_at (nat_cmp number)) self.now }
    {
        self.set.contains(&number)
    }

    /// Puts the number in. After an `Err` nothing has changed.
    pub fn insert(&mut self, number: u32) -> Result<(), AllocError>
        ensures ok { OnOk result (self.new ≡ insert_key nat_cmp self.old number) }
        ensures err { OnErr result (self.new ≡ self.old) }
    {
        self.set.insert(number)?;
        Ok(())
    }
}
