//! Why a step is refused.
ghost use Rattle.std.specs.Prelude.{◌≡◌, alloc_error};
ghost use Rattle.alias_tables.specs.declared.faults.EffectFault.TheVariants.{Memory, Refused};

use alias_base::IdentifierId;
use alias_hir::error::Counter;
use alias_hir::place::Span;
use alias_hir::report::Report;
use std::alloc::{AllocError, AllocFailed};

/// Why the step of an effect is refused, besides lack of memory.
#[derive(Drop)]
pub enum Refusal {
    /// The instruction made the identifier before.
    Reinitialized { identifier: IdentifierId },
    /// The instruction hasn't made the target of an alias.
    AliasBeforeCreate { identifier: IdentifierId },
    /// The function that is called can't be memoized.
    IncompatibleLibrary { report: Report },
    /// An argument is spread that would be frozen.
    SpreadArgument { span: Option<Span>, report: Report },
    /// All numbers are taken.
    TooMany(Counter),
}

/// What ends a step.
#[derive(Drop)]
pub enum EffectFault {
    Refused(Refusal),
    /// Out of memory, which can come at any growth.
    Memory(AllocError),
}

impl From<AllocError> for EffectFault {
    ghost from_gives = { λ e r. r ≡ Memory e };

    fn from(e: AllocError) -> EffectFault {
        EffectFault::Memory(e)
    }
}

impl From<Refusal> for EffectFault {
    ghost from_gives = { λ e r. r ≡ Refused e };

    fn from(e: Refusal) -> EffectFault {
        EffectFault::Refused(e)
    }
}

impl<T: Drop> From<AllocFailed<T>> for EffectFault {
    ghost from_gives = { λ _ r. r ≡ Memory alloc_error };

    fn from(_e: AllocFailed<T>) -> EffectFault {
        EffectFault::Memory(AllocError)
    }
}
