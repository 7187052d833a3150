//! What a check of entry states finds.

use std::alloc::AllocError;

/// What is found first of entry states that don't solve a flow, or don't do so as somebody says.
#[derive(Drop)]
pub enum Unsolved<E, D> {
    /// The initial state isn't below the entry's.
    Initial,
    /// The flow refuses the step of the block from its entry state.
    Step { block: u32, fault: E },
    /// What the step of the block recorded isn't what is said of it.
    Differs { block: u32, difference: D },
    /// The out state of the block isn't below the entry state of the successor.
    NotBelow { block: u32, successor: u32 },
    /// All edges go forward, and the entry state of the block isn't the join of what arrives there.
    NotJoin { block: u32 },
    /// Out of memory, which can come at any growth.
    Memory(AllocError),
}

impl<E, D> From<AllocError> for Unsolved<E, D> {
    ghost use Rattle.std.specs.Prelude.{◌≡◌};
    ghost use Rattle.alias_flow.specs.declared.check.fault.Unsolved.TheVariants.{Memory};

    ghost from_gives = { λ e r. r ≡ Memory e };

    fn from(e: AllocError) -> Unsolved<E, D> {
        Unsolved::Memory(e)
    }
}
