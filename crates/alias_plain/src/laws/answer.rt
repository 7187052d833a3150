//! What is answered of a unit.

use alias_base::{FunctionId, InstructionId};
use alias_hir::error::Counter;
use std::alloc::AllocError;

/// Whether a unit is plain.
#[derive(Clone, Copy, Debug, PartialEq, Eq)]
pub enum Plainness {
    Plain,
    /// The first instruction that breaks a condition, and the first condition that it breaks. `None` is the root.
    NotPlain {
        function: Option<FunctionId>,
        instruction: InstructionId,
        rule: u32,
    },
}

/// Why it isn't known whether a unit is plain.
#[derive(Drop)]
pub enum PlainFault {
    /// A block was still dirty after 100 rounds.
    NotSettled { function: Option<FunctionId> },
    /// No number is left for a temporary or a report.
    TooMany(Counter),
    /// Out of memory, which can come at any growth.
    Memory(AllocError),
}
