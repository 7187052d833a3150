//! The tables that grow while effects are stepped: the interned effect of each key, temporaries, interned reports, and
//! the context places that are only read; and the words that steps over them are made of.
#![tactic(auto)]

pub mod faults;
pub mod interned_effects;
pub mod key;
pub mod reads;
mod reports;
pub mod tables;
pub mod temp_key;
pub mod temporaries;
pub mod write_back;

pub use faults::{EffectFault, Refusal};
pub use interned_effects::InternedEffects;
pub use key::{EffectKey, effect_key};
pub use reads::{ContextRead, ContextReads};
pub use reports::intern_report;
pub use tables::{TableParts, Tables};
pub use temp_key::TempKey;
pub use temporaries::{Temporaries, Temporary};
