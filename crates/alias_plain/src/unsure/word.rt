//! Sixty-four identifiers in a row, each of which is a member or isn't.

ghost use Rattle.std.specs.Prelude.{◌≡◌, ◌<◌, bit_or};
ghost use Rattle.alias_lattice.specs.Reasons.{bits_below};
ghost use Rattle.alias_plain.specs.unsure.Words.{WordFits, has_bit, with_bit, without_bit};
ghost use Rattle.alias_plain.specs.unsure.WordLaws.{word_laws};

use alias_lattice::Lattice;
use std::alloc::AllocError;
use std::marker::Model;

/// Which of sixty-four identifiers in a row are members.
#[derive(Clone, Copy, Debug, PartialEq, Eq)]
pub struct Word {
    bits: u64,
}

impl Model for Word {
    ghost use Rattle.std.specs.Prelude.{ℕ, ◌<◌, ◌^◌};

    ghost Value = { ℕ };

    ghost view = { λ w. w.bits };

    ghost inverse = { λ n. record { bits = n } };
}

impl Word {
    /// No member.
    pub(crate) fn none() -> Word
        ensures { result ≡ 0 }
    {
        Word { bits: 0 }
    }

    /// Whether the one at the slot is a member.
    pub(crate) fn has(&self, slot: u32) -> bool
        requires { slot < 64 }
        ensures { result ≡ has_bit self.now slot }
    {
        (self.bits >> slot) & 1 == 1
    }

    /// With the one at the slot.
    pub(crate) fn with(&self, slot: u32) -> Word
        requires { slot < 64 }
        ensures { result ≡ with_bit self.now slot }
    {
        Word {
            bits: self.bits | (1 << slot),
        }
    }

    /// Without the one at the slot.
    pub(crate) fn without(&self, slot: u32) -> Word
        requires { slot < 64 }
        ensures { result ≡ without_bit self.now slot }
    {
        Word {
            bits: self.bits & !(1 << slot),
        }
    }
}

impl Lattice for Word {
    ghost proper = { WordFits };

    ghost join = { bit_or };

    ghost below = { bits_below };

    ghost laws = { word_laws };

    fn recall_proper(&self) {
        // A look at the field tells the prover what holds of it.
        let _bits = self.bits;
    }

    fn join_from(&mut self, other: &Self) -> Result<bool, AllocError> {
        let grew = !other.is_below(self);
        *self = Word {
            bits: self.bits | other.bits,
        };
        Ok(grew)
    }

    fn is_below(&self, other: &Self) -> bool {
        self.bits | other.bits == other.bits
    }

    fn try_clone(&self) -> Result<Self, AllocError> {
        Ok(*self)
    }
}
