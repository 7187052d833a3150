//! Why values aren't taken off the tokens.
use alias_json::{TreeFault, ValueFault};
use json::Invalid;
use std::alloc::{AllocError, AllocFailed};

/// Why a value wasn't taken off the tokens.
#[derive(Drop)]
pub enum TakeFault {
    /// It isn't written in the usual way, or isn't there. Its tree tells.
    Unusual,
    /// Out of memory, which can come at any growth.
    Memory(AllocError),
}

impl From<Invalid> for TakeFault {
    ghost use Rattle.std.specs.Prelude.{◌≡◌};
    ghost use Rattle.alias_straight.specs.declared.fault.TakeFault.TheVariants.{Unusual};

    ghost from_gives = { λ _ f. f ≡ Unusual };

    fn from(_e: Invalid) -> TakeFault {
        TakeFault::Unusual
    }
}

impl From<AllocError> for TakeFault {
    ghost use Rattle.std.specs.Prelude.{◌≡◌};
    ghost use Rattle.alias_straight.specs.declared.fault.TakeFault.TheVariants.{Memory};

    ghost from_gives = { λ e f. f ≡ Memory e };

    fn from(e: AllocError) -> TakeFault {
        TakeFault::Memory(e)
    }
}

impl<T: Drop> From<AllocFailed<T>> for TakeFault {
    ghost use Rattle.std.specs.Prelude.{◌≡◌, alloc_error};
    ghost use Rattle.alias_straight.specs.declared.fault.TakeFault.TheVariants.{Memory};

    ghost from_gives = { λ _ f. f ≡ Memory alloc_error };

    fn from(_e: AllocFailed<T>) -> TakeFault {
        TakeFault::Memory(AllocError)
    }
}

impl From<TreeFault> for TakeFault {
    fn from(e: TreeFault) -> TakeFault {
        match e {
            TreeFault::NotJson => TakeFault::Unusual,
            TreeFault::Memory(e) => TakeFault::Memory(e),
        }
    }
}

impl From<ValueFault> for TakeFault {
    fn from(e: ValueFault) -> TakeFault {
        match e {
            ValueFault::Refused {
                pointer: _,
                rule: _,
            } => TakeFault::Unusual,
            ValueFault::Memory(e) => TakeFault::Memory(e),
        }
    }
}
