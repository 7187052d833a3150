//! Why the effects of a call aren't handed out.
ghost use Rattle.std.specs.Prelude.{◌≡◌, alloc_error};
ghost use Rattle.alias_call_effects.specs.declared.error.SignatureError.TheVariants.{Memory};

use alias_hir::error::{Counter, HirError};
use alias_hir::place::Span;
use alias_tables::{EffectFault, Refusal};
use std::alloc::{AllocError, AllocFailed};

/// Why the effects of a call aren't handed out.
#[derive(Drop)]
pub enum SignatureError {
    /// An argument is spread that would be frozen; its span.
    SpreadArgument(Option<Span>),
    /// All numbers are taken.
    TooMany(Counter),
    /// Out of memory, which can come at any growth.
    Memory(AllocError),
}

impl From<AllocError> for SignatureError {
    ghost from_gives = { λ e r. r ≡ Memory e };

    fn from(e: AllocError) -> SignatureError {
        SignatureError::Memory(e)
    }
}

impl<T: Drop> From<AllocFailed<T>> for SignatureError {
    ghost from_gives = { λ _ r. r ≡ Memory alloc_error };

    fn from(_e: AllocFailed<T>) -> SignatureError {
        SignatureError::Memory(AllocError)
    }
}

impl From<HirError> for SignatureError {
    ghost use Rattle.alias_call_effects.specs.Answers.{number_error};

    ghost from_gives = { λ e r. r ≡ number_error e };

    fn from(e: HirError) -> SignatureError {
        match e {
            HirError::TooMany(which) => SignatureError::TooMany(which),
            HirError::Memory(e) => SignatureError::Memory(e),
        }
    }
}

impl From<EffectFault> for SignatureError {
    ghost use Rattle.alias_call_effects.specs.Answers.{fault_error};

    ghost from_gives = { λ e r. r ≡ fault_error e };

    fn from(fault: EffectFault) -> SignatureError {
        match fault {
            EffectFault::Refused(Refusal::SpreadArgument { span, .. }) => {
                SignatureError::SpreadArgument(span)
            }
            EffectFault::Refused(Refusal::TooMany(which)) => SignatureError::TooMany(which),
            // No list is refused so.
            EffectFault::Refused(_) => SignatureError::Memory(AllocError),
            EffectFault::Memory(e) => SignatureError::Memory(e),
        }
    }
}
