//! Why a function is refused.
ghost use Rattle.std.specs.Prelude.{◌≡◌, None, IfOk};
ghost use Rattle.alias_effects.specs.Inference.{instruction_refusal, refusal as refusal_of};
ghost use Rattle.alias_effects.specs.Output.{unsettled, unsolved};

use crate::output::block_at;
use alias_base::{BlockId, InstructionId};
use alias_flow::SolveFault;
use alias_hir::env::Environment;
use alias_hir::error::InferError;
use alias_hir::hir::HirFunction;
use alias_hir::report::{not_settled_report, uninitialized_report};
use alias_step::block::BlockRefusal;
use alias_tables::Refusal;
use std::alloc::{AllocError, Global};

fn instruction_refusal(instruction: InstructionId, refusal: Refusal) -> InferError
    ensures { result ≡ instruction_refusal instruction refusal }
{
    match refusal {
        Refusal::Reinitialized { identifier } => InferError::Reinitialized {
            function: None,
            instruction,
            identifier,
        },
        Refusal::AliasBeforeCreate { identifier } => InferError::AliasBeforeCreate {
            function: None,
            instruction,
            identifier,
        },
        Refusal::IncompatibleLibrary { report } => InferError::IncompatibleLibrary {
            function: None,
            instruction,
            report,
        },
        Refusal::SpreadArgument { span, report } => InferError::SpreadArgument {
            function: None,
            instruction,
            span,
            report,
        },
        Refusal::TooMany(which) => InferError::TooMany { which },
    }
}

/// The refusal of a step of the block, as one of the root function. The one error is out of memory.
pub fn refusal(
    alloc: Global,
    env: &Environment,
    block: BlockId,
    refusal: BlockRefusal,
) -> Result<InferError, AllocError>
    ensures { IfOk result (λ e. e ≡ refusal_of env.now block refusal) }
{
    match refusal {
        BlockRefusal::Instruction {
            instruction,
            refusal,
        } => Ok(instruction_refusal(instruction, refusal)),
        BlockRefusal::Uninitialized(lookup) => Ok(InferError::Uninitialized {
            function: None,
            block,
            identifier: lookup.identifier,
            span: lookup.span,
            report: uninitialized_report(alloc, env, lookup.identifier, lookup.span)?,
        }),
    }
}

fn not_settled(alloc: Global, visits: u64) -> Result<InferError, AllocError>
    ensures { IfOk result (λ e. e ≡ unsettled visits) }
{
    Ok(InferError::NotSettled {
        function: None,
        visits,
        report: not_settled_report(alloc)?,
    })
}

/// Why the flow of the function has no solution.
pub(crate) fn unsolved(
    alloc: Global,
    env: &Environment,
    func: &HirFunction,
    fault: SolveFault<BlockRefusal>,
) -> Result<InferError, AllocError>
    ensures { IfOk result (λ e. e ≡ unsolved env.now func.now fault) }
{
    match fault {
        SolveFault::Step { block, fault } => {
            let name = block_at(&func.body.blocks, block as usize);
            refusal(alloc, env, name, fault)
        }
        SolveFault::NotSettled { visits } => not_settled(alloc, visits),
        SolveFault::Memory(e) => Ok(InferError::Memory(e)),
    }
}
