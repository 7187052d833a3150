//! Why the instructions of a function aren't gone through to the end.

use alias_base::InstructionId;
use alias_hir::error::Counter;
use std::alloc::AllocError;

/// Why the instructions of a function aren't gone through to the end.
#[derive(Drop)]
pub enum Stop {
    /// The instruction breaks the condition of this number first.
    Broken {
        instruction: InstructionId,
        rule: u32,
    },
    /// A block was still dirty after 100 rounds.
    NotSettled,
    /// No number is left for a temporary or a report.
    TooMany(Counter),
    /// Out of memory, which can come at any growth.
    Memory(AllocError),
}

impl From<AllocError> for Stop {
    ghost use Rattle.std.specs.Prelude.{◌≡◌};
    ghost use Rattle.alias_plain.specs.declared.laws.stop.Stop.TheVariants.{Memory};

    ghost from_gives = { λ e r. r ≡ Memory e };

    fn from(e: AllocError) -> Stop {
        Stop::Memory(e)
    }
}
