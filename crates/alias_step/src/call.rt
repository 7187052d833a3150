//! Calls and their operands.

use alias_calls::CallSite;
use alias_hir::place::{Place, PlaceOrSpreadOrHole};

/// A call of a function. The type that has its signature goes beside it.
#[derive(Clone, Copy)]
pub struct Call<'a> {
    pub site: CallSite,
    pub function: Place,
    /// Whether the call may write the function itself.
    pub mutates_function: bool,
    pub args: &'a [PlaceOrSpreadOrHole],
}

/// An operand of a call: the receiver, the function, or an argument.
#[derive(Clone, Copy, Debug, PartialEq, Eq)]
pub struct Operand {
    pub place: Place,
    pub is_spread: bool,
}
