//! Summaries that a certificate tells.
ghost use Rattle.std.specs.Prelude.{◌≡◌};
ghost use Rattle.alias_base.specs.Answer.{Gives};
ghost use Rattle.alias_cert.specs.function.Faults.{is_memory};
ghost use Rattle.alias_cert.specs.Functions.{range_fault, summary_checked, stored_summary};

use crate::effects::is_summary_claimed;
use alias_base::{BlockId, FunctionId};
use alias_certificate::{CertFunction, CheckFault};
use alias_hir::effect::AliasingEffect;
use alias_hir::error::InferError;
use alias_hir::hir::HirFunction;
use std::alloc::Global;

/// Why the range pass gives no summary.
pub fn range_fault(function: Option<FunctionId>, error: InferError) -> CheckFault
    ensures { result ≡ range_fault function error }
{
    match error {
        InferError::TooMany { which } => CheckFault::TooMany { which },
        InferError::Memory(e) => CheckFault::Memory(e),
        // Never so, by `step_law` of alias_certified_laws: a function whose effects are recorded carries no Apply.
        cause => CheckFault::Step {
            function,
            block: BlockId(0),
            cause,
        },
    }
}

/// The summary is the one that is claimed.
pub(crate) fn check_summary(
    alloc: Global,
    said: &CertFunction,
    summary: &[AliasingEffect],
) -> Result<(), CheckFault>
    ensures { Gives is_memory (summary_checked said.now summary.now) result }
{
    if is_summary_claimed(alloc, summary, said.summary.as_slice())? {
        Ok(())
    } else {
        Err(CheckFault::Summary {
            function: said.function,
        })
    }
}

/// The summary that is stored on the function is the one that is claimed.
pub(crate) fn check_stored(
    alloc: Global,
    said: &CertFunction,
    func: &HirFunction,
) -> Result<(), CheckFault>
    ensures { Gives is_memory (summary_checked said.now (stored_summary func.now)) result }
{
    match &func.aliasing_effects {
        Some(summary) => check_summary(alloc, said, summary.as_slice()),
        None => check_summary(alloc, said, &[]),
    }
}
