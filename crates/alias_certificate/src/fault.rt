//! Why a certificate isn't accepted.

use alias_base::{BlockId, FunctionId};
use alias_hir::error::{Counter, InferError};
use std::alloc::{AllocError, AllocFailed};

/// Why a certificate isn't accepted. Functions are those of the unit; `None` is the root.
#[derive(Drop)]
pub enum CheckFault {
    /// The function at this position of the certificate, from 0, is missing, is another, or is one too many.
    Functions {
        position: usize,
    },
    /// Its block lines aren't its reached blocks in stored order.
    Blocks {
        function: Option<FunctionId>,
    },
    /// What is said of the block names what isn't there, or a set without sites, or a site without a value.
    State {
        function: Option<FunctionId>,
        block: BlockId,
    },
    /// A key stands twice or names what isn't there, or the identifiers aren't the next new numbers in order.
    Temporaries {
        function: Option<FunctionId>,
    },
    /// The initial state isn't below the entry's.
    Initial {
        function: Option<FunctionId>,
    },
    /// The step of the block is refused.
    Step {
        function: Option<FunctionId>,
        block: BlockId,
        cause: InferError,
    },
    /// The step of the block made a temporary that the certificate hasn't.
    MissingTemporary {
        function: Option<FunctionId>,
        block: BlockId,
    },
    /// The effects that the step of the block records aren't those that are claimed.
    Effects {
        function: Option<FunctionId>,
        block: BlockId,
    },
    /// The out state of the block isn't below the entry state of the successor.
    NotBelow {
        function: Option<FunctionId>,
        block: BlockId,
        successor: BlockId,
    },
    /// The function is forward, and the entry state of the block isn't the join of what arrives.
    NotJoin {
        function: Option<FunctionId>,
        block: BlockId,
    },
    /// The summary isn't the one that is claimed.
    Summary {
        function: Option<FunctionId>,
    },
    /// All numbers are taken.
    TooMany {
        which: Counter,
    },
    /// Out of memory, which can come at any growth.
    Memory(AllocError),
}

impl From<AllocError> for CheckFault {
    ghost use Rattle.std.specs.Prelude.{◌≡◌};
    ghost use Rattle.alias_certificate.specs.declared.fault.CheckFault.TheVariants.{Memory};

    ghost from_gives = { λ e r. r ≡ Memory e };

    fn from(e: AllocError) -> CheckFault {
        CheckFault::Memory(e)
    }
}

impl<T: Drop> From<AllocFailed<T>> for CheckFault {
    ghost use Rattle.std.specs.Prelude.{◌≡◌, alloc_error};
    ghost use Rattle.alias_certificate.specs.declared.fault.CheckFault.TheVariants.{Memory};

    ghost from_gives = { λ _ r. r ≡ Memory alloc_error };

    fn from(_e: AllocFailed<T>) -> CheckFault {
        CheckFault::Memory(AllocError)
    }
}
