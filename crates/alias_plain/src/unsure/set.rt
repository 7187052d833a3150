//! Sets of identifiers that aren't sure.

ghost use Rattle.std.specs.Prelude.{◌≡◌, [], IfOk, OnOk, OnErr};
ghost use Rattle.alias_plain.specs.unsure.Sets.{word_at, has, with_member, without_member, RowsProper, union, is_within};
ghost use Rattle.alias_plain.specs.unsure.SetLaws.{set_laws};

use crate::unsure::word::Word;
use alias_lattice::{Lattice, LatticeMap};
use std::alloc::{AllocError, Global};
use std::marker::Model;

/// A set of numbers of identifiers. A copy shares what it holds with its original, and takes no memory.
#[derive(Drop)]
pub struct UnsureSet {
    words: LatticeMap<u32, Word>,
}

impl Model for UnsureSet {
    ghost use Rattle.alias_plain.specs.unsure.Sets.{Rows};

    ghost Value = { Rows };

    ghost view = { λ s. s.words };
}

impl UnsureSet {
    /// The empty set. Takes no memory.
    pub fn empty(alloc: Global) -> UnsureSet
        ensures { result ≡ [] }
    {
        UnsureSet {
            words: LatticeMap::empty(alloc),
        }
    }

    /// The word of a row.
    fn word_at(&self, row: u32) -> Word
        ensures { result ≡ word_at self.now row }
    {
        match self.words.get(row) {
            Some(word) => *word,
            None => Word::none(),
        }
    }

    /// Whether the number is in the set.
    #[tactic(auto, unfolding(crate::specs::unsure::Sets::has))]
    pub fn has(&self, number: u32) -> bool
        ensures { result ≡ has self.now number }
    {
        self.word_at(number / 64).has(number % 64)
    }

    /// Takes the number in. The one error is out of memory, which leaves the set unchanged.
    #[tactic(auto, unfolding(crate::specs::unsure::Sets::with_member))]
    pub fn insert(&mut self, number: u32) -> Result<(), AllocError>
        ensures ok { OnOk result (self.new ≡ with_member number self.old) }
        ensures err { OnErr result (self.new ≡ self.old) }
    {
        let row = number / 64;
        let word = self.word_at(row).with(number % 64);
        self.words.set(row, word)
    }

    /// Takes the number out. The one error is out of memory, which leaves the set unchanged.
    #[tactic(auto, unfolding(crate::specs::unsure::Sets::without_member))]
    pub fn remove(&mut self, number: u32) -> Result<(), AllocError>
        ensures ok { OnOk result (self.new ≡ without_member number self.old) }
        ensures err { OnErr result (self.new ≡ self.old) }
    {
        let row = number / 64;
        let word = self.word_at(row).without(number % 64);
        self.words.set(row, word)
    }
}

impl Lattice for UnsureSet {
    ghost proper = { RowsProper };

    ghost join = { union };

    ghost below = { is_within };

    ghost laws = { set_laws };

    fn recall_proper(&self) {
        self.words.recall_proper();
    }

    fn join_from(&mut self, other: &Self) -> Result<bool, AllocError> {
        self.words.join_from(&other.words)
    }

    fn is_below(&self, other: &Self) -> bool {
        self.words.is_below(&other.words)
    }

    fn try_clone(&self) -> Result<Self, AllocError> {
        Ok(UnsureSet {
            words: self.words.try_clone()?,
        })
    }
}
