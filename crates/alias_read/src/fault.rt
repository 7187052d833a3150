//! Why a text is no unit.
ghost use Rattle.std.specs.Prelude.{◌≡◌};
ghost use Rattle.alias_read.specs.declared.fault.TextFault.TheVariants as text;
ghost use Rattle.alias_read.specs.Fault.{of_value};

use alias_base::Text;
use alias_json::{TextRule, ValueFault};
use std::alloc::AllocError;

/// Why a text is no unit.
#[derive(Drop)]
pub enum TextFault {
    /// The text is no JSON, or nests deeper than 127 levels.
    NotJson,
    /// The text is JSON and no unit: the JSON Pointer of the first value that breaks a rule, and the rule.
    NotUnit { pointer: Text, rule: TextRule },
    /// Out of memory, which can come at any growth.
    Memory(AllocError),
}

impl From<AllocError> for TextFault {
    ghost from_gives = { λ e f. f ≡ text.Memory e };

    fn from(e: AllocError) -> TextFault {
        TextFault::Memory(e)
    }
}

impl From<ValueFault> for TextFault {
    ghost from_gives = { λ e f. f ≡ of_value e };

    fn from(e: ValueFault) -> TextFault {
        match e {
            ValueFault::Refused { pointer, rule } => TextFault::NotUnit { pointer, rule },
            ValueFault::Memory(e) => TextFault::Memory(e),
        }
    }
}
