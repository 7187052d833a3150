//! Errors that name their function.
ghost use Rattle.std.specs.Prelude.{◌≡◌, false, Some};
ghost use Rattle.alias_hir.specs.Errors.{is_memory};
ghost use Rattle.alias_hir.specs.declared.error.InferError.TheVariants.{PassFault};
ghost use Rattle.alias_nested.specs.Analysis.{named, IsFault};
ghost use Rattle.alias_nested.specs.Order.{refused_function, is_nameless};

use alias_base::FunctionId;
use alias_hir::error::{InferError, Pass};
use alias_inner_passes::PassStop;

/// The refusal of a function of this number.
pub fn named(id: FunctionId, error: InferError) -> InferError
    ensures { result ≡ named id error }
{
    let function = Some(id);
    match error {
        InferError::NotSettled { visits, report, .. } => InferError::NotSettled {
            function,
            visits,
            report,
        },
        InferError::Uninitialized {
            block,
            identifier,
            span,
            report,
            ..
        } => InferError::Uninitialized {
            function,
            block,
            identifier,
            span,
            report,
        },
        InferError::Reinitialized {
            instruction,
            identifier,
            ..
        } => InferError::Reinitialized {
            function,
            instruction,
            identifier,
        },
        InferError::AliasBeforeCreate {
            instruction,
            identifier,
            ..
        } => InferError::AliasBeforeCreate {
            function,
            instruction,
            identifier,
        },
        InferError::IncompatibleLibrary {
            instruction,
            report,
            ..
        } => InferError::IncompatibleLibrary {
            function,
            instruction,
            report,
        },
        InferError::SpreadArgument {
            instruction,
            span,
            report,
            ..
        } => InferError::SpreadArgument {
            function,
            instruction,
            span,
            report,
        },
        error => error,
    }
}

/// Why nothing is inferred, where a pass of the caller stopped on the function of this number.
pub(crate) fn stopped(id: FunctionId, pass: Pass, stop: PassStop) -> InferError
    ensures named { is_memory result ≡ false → result ≡ PassFault (Some id) pass }
    ensures fault { IsFault result → stop ≡ PassStop.Failed }
    ensures names { is_nameless result ≡ false → refused_function result ≡ Some id }
{
    match stop {
        PassStop::Failed => InferError::PassFault {
            function: Some(id),
            pass,
        },
        PassStop::Memory(e) => InferError::Memory(e),
    }
}
