//! Why the step of a block is refused.
ghost use Rattle.std.specs.Prelude.{◌≡◌, alloc_error};
ghost use Rattle.alias_step.specs.declared.block.faults.BlockFault.TheVariants.{Memory, Refused};

use alias_base::InstructionId;
use alias_lattice::MissingLookup;
use alias_tables::Refusal;
use std::alloc::{AllocError, AllocFailed};

/// Why the step of a block is refused, besides lack of memory.
#[derive(Drop)]
pub enum BlockRefusal {
    /// The step of an instruction is refused.
    Instruction {
        instruction: InstructionId,
        refusal: Refusal,
    },
    /// The first look at an identifier that has no value.
    Uninitialized(MissingLookup),
}

/// What ends the step of a block.
#[derive(Drop)]
pub enum BlockFault {
    Refused(BlockRefusal),
    /// Out of memory, which can come at any growth.
    Memory(AllocError),
}

impl From<AllocError> for BlockFault {
    ghost from_gives = { λ e r. r ≡ Memory e };

    fn from(e: AllocError) -> BlockFault {
        BlockFault::Memory(e)
    }
}

impl From<BlockRefusal> for BlockFault {
    ghost from_gives = { λ e r. r ≡ Refused e };

    fn from(e: BlockRefusal) -> BlockFault {
        BlockFault::Refused(e)
    }
}

impl<T: Drop> From<AllocFailed<T>> for BlockFault {
    ghost from_gives = { λ _ r. r ≡ Memory alloc_error };

    fn from(_e: AllocFailed<T>) -> BlockFault {
        BlockFault::Memory(AllocError)
    }
}
