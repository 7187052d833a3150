//! How an inference or an analysis of a unit ends.

use alias_base::FunctionId;
use alias_hir::env::Unit;
use alias_hir::error::{InferError, Pass};
use alias_inner_passes::FailingPasses;
use alias_nested::infer_unit;
use alias_rules::check::{Checked, check_unit};
use alias_straight::read_unit;
use std::alloc::Global;

/// How an inference or an analysis ends.
#[derive(Clone, Copy, Debug)]
pub(crate) enum Ending {
    /// There are so many solutions.
    Inferred(usize),
    /// It is done, and hands nothing out.
    Done,
    /// The pass failed on the function.
    Failed(Option<FunctionId>, Pass),
    /// The function reads an identifier that has no value.
    Uninitialized(Option<FunctionId>),
    /// It is refused for another reason.
    Refused,
    /// Memory ran out.
    Memory,
}

/// The ending of a refusal.
pub(crate) fn refused(error: &InferError) -> Ending {
    match error {
        InferError::PassFault { function, pass } => Ending::Failed(*function, *pass),
        InferError::Uninitialized { function, .. } => Ending::Uninitialized(*function),
        InferError::Memory(_) => Ending::Memory,
        _ => Ending::Refused,
    }
}

/// The ending of a unit that is well formed, with these passes.
pub(crate) fn inferred(alloc: Global, unit: Checked, passes: &mut FailingPasses) -> Ending {
    match infer_unit(alloc, unit, passes) {
        Ok(inferred) => Ending::Inferred(inferred.solved.len()),
        Err(error) => refused(&error),
    }
}

fn kept(alloc: Global, unit: Unit) -> Option<Checked> {
    match check_unit(alloc, unit) {
        Ok(checked) => Some(checked),
        Err(_) => None,
    }
}

/// The unit that the text spells, once it is checked.
pub(crate) fn checked(alloc: Global, text: &str) -> Option<Checked> {
    match read_unit(alloc, text.as_bytes()) {
        Ok(unit) => kept(alloc, unit),
        Err(_) => None,
    }
}
