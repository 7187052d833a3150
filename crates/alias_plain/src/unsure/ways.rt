//! What isn't sure on each way into a block.

ghost use Rattle.std.specs.Prelude.{◌≡◌, [], ◌∷◌, IfOk};
ghost use Rattle.alias_plain.specs.unsure.Ways.{StateProper, state_join, state_below};
ghost use Rattle.alias_plain.specs.unsure.WayLaws.{state_laws};

use crate::unsure::set::UnsureSet;
use alias_lattice::{Lattice, LatticeMap};
use std::alloc::{AllocError, Global};
use std::marker::Model;

/// For each way into a block, known by a number, the set of what isn't sure there. A copy shares what it holds with its original.
#[derive(Drop)]
pub struct UnsureWays {
    sets: LatticeMap<u32, UnsureSet>,
}

impl Model for UnsureWays {
    ghost use Rattle.alias_plain.specs.unsure.Ways.{UnsureState};

    ghost Value = { UnsureState };

    ghost view = { λ w. w.sets };
}

impl UnsureWays {
    /// One way and its set. The one error is out of memory.
    pub fn one(alloc: Global, way: u32, set: UnsureSet) -> Result<UnsureWays, AllocError>
        ensures { IfOk result (λ ways. ways ≡ (way, set) ∷ []) }
    {
        let mut sets = LatticeMap::empty(alloc);
        sets.set(way, set)?;
        Ok(UnsureWays { sets })
    }

    /// The set of each way.
    pub fn sets(&self) -> &LatticeMap<u32, UnsureSet>
        ensures { result.now ≡ self.now }
    {
        &self.sets
    }
}

impl Lattice for UnsureWays {
    ghost proper = { StateProper };

    ghost join = { state_join };

    ghost below = { state_below };

    ghost laws = { state_laws };

    fn recall_proper(&self) {
        self.sets.recall_proper();
    }

    fn join_from(&mut self, other: &Self) -> Result<bool, AllocError> {
        self.sets.join_from(&other.sets)
    }

    fn is_below(&self, other: &Self) -> bool {
        self.sets.is_below(&other.sets)
    }

    fn try_clone(&self) -> Result<Self, AllocError> {
        Ok(UnsureWays {
            sets: self.sets.try_clone()?,
        })
    }
}
