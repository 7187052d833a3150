//! A flow of heights, over a line of blocks or a loop.
ghost use Rattle.std.specs.Prelude.{◌≡◌, ◌<◌, ℕ, List, [], ◌∷◌, Option, Some, slice_set, nat_le, refl};
ghost use Rattle.alias_state_tests.specs.TestFlows.{higher, IsHeight, Extends, climb_rules};
ghost use Rattle.alias_state_tests.specs.TestFlowLaws.{height_laws, climb_laws};

use alias_flow::{Flow, StepFault};
use alias_lattice::Lattice;
use smallvec::SmallVec;
use std::alloc::{AllocError, Global};
use std::marker::Model;

/// A height. Where it can't be copied, each try wants memory.
#[derive(Drop)]
pub(crate) struct Height {
    pub(crate) height: u32,
    can_be_copied: bool,
}

impl Model for Height {
    ghost Value = { ℕ };

    ghost view = { λ a. a.height };
}

impl Lattice for Height {
    ghost proper = { IsHeight };

    ghost join = { higher };

    ghost below = { nat_le };

    ghost laws = { height_laws };

    fn recall_proper(&self) {}

    fn join_from(&mut self, other: &Self) -> Result<bool, AllocError> {
        if other.height <= self.height {
            return Ok(false);
        }
        self.height = other.height;
        Ok(true)
    }

    fn is_below(&self, other: &Self) -> bool {
        self.height <= other.height
    }

    fn try_clone(&self) -> Result<Self, AllocError> {
        if !self.can_be_copied {
            return Err(AllocError);
        }
        Ok(Height {
            height: self.height,
            can_be_copied: true,
        })
    }
}

/// The heights that the last visit of each of four blocks began with.
#[derive(Drop)]
pub(crate) struct Notes {
    pub(crate) first: Option<u32>,
    pub(crate) second: Option<u32>,
    pub(crate) third: Option<u32>,
    pub(crate) fourth: Option<u32>,
}

impl Notes {
    fn note(&mut self, block: u32, height: u32)
        requires { block < 4 }
        ensures { self.new.first ∷ self.new.second ∷ self.new.third ∷ self.new.fourth ∷ [] ≡ slice_set (self.old.first ∷ self.old.second ∷ self.old.third ∷ self.old.fourth ∷ []) block (Some height) }
    {
        match block {
            0 => self.first = Some(height),
            1 => self.second = Some(height),
            2 => self.third = Some(height),
            _ => self.fourth = Some(height),
        }
    }
}

/// Blocks 0 to 3, whose steps climb by one, up to 3. On a line each has an edge to the next, and no height can be
/// copied; else block 0 goes to 1, and 1 to itself and to 2.
#[derive(Drop)]
pub(crate) struct Climb {
    alloc: Global,
    is_line: bool,
    pub(crate) notes: Notes,
}

impl Climb {
    pub(crate) fn new(alloc: Global, is_line: bool) -> Climb {
        Climb {
            alloc,
            is_line,
            notes: Notes {
                first: None,
                second: None,
                third: None,
                fourth: None,
            },
        }
    }
}

impl Flow for Climb {
    type State = Height;

    type Fault = ();

    ghost Tables = { Unit {0} };

    ghost Recorded = { ℕ };

    ghost Cause = { Unit {0} };

    ghost cause = { λ u. u };

    ghost rules = { λ l. climb_rules l.is_line };

    ghost tables = { λ l. tt };

    ghost recorded = { λ l. l.notes.first ∷ l.notes.second ∷ l.notes.third ∷ l.notes.fourth ∷ [] };

    ghost Borrows = { Unit {0} };

    ghost borrows = { λ l. tt };

    ghost extends = { Extends };

    ghost laws = { λ l. climb_laws l.is_line (l.notes.first ∷ l.notes.second ∷ l.notes.third ∷ l.notes.fourth ∷ []) refl };

    fn blocks(&self) -> u32 {
        4
    }

    fn entry(&self) -> u32 {
        0
    }

    fn initial(&self) -> Result<Height, AllocError> {
        Ok(Height {
            height: 0,
            can_be_copied: !self.is_line,
        })
    }

    fn edges(&self, block: u32) -> Result<SmallVec<u32, 2, Global>, AllocError> {
        let mut edges = SmallVec::new(self.alloc);
        if self.is_line {
            if block < 3 {
                edges.push(block + 1)?;
            }
        } else if block == 0 {
            edges.push(1)?;
        } else if block == 1 {
            edges.push(1)?;
            edges.push(2)?;
        }
        Ok(edges)
    }

    fn step(&mut self, block: u32, state: &mut Height) -> Result<(), StepFault<()>> {
        let begins = state.height;
        self.notes.note(block, begins);
        state.height = if begins < 3 { begins + 1 } else { 3 };
        Ok(())
    }
}
