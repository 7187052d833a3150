//! What the range pass refuses, before it changes anything.
ghost use Rattle.std.specs.Prelude.{◌≡◌, ◌+◌, nat_le, length, IfOk};
ghost use Rattle.alias_base.specs.Answer.{Gives};
ghost use Rattle.alias_hir.specs.Errors.{is_memory};
ghost use Rattle.alias_range_pass.specs.summary.Summaries.{tracked};
ghost use Rattle.alias_range_pass.specs.Refusals.{carries_apply, first_apply, first_apply_of, unreplaced, apply_left_report, recorded};

use alias_base::{InstructionId, List, Text};
use alias_graph::recorded::{Listing, list_function};
use alias_hir::error::{Counter, InferError};
use alias_hir::hir::{HirFunction, Instruction};
use alias_hir::report::{ErrorCategory, Report};
use alias_rules::any_is_apply;
use std::alloc::{AllocError, Global};

fn carries_apply(instructions: &List<Instruction>, id: InstructionId) -> bool
    ensures { result ≡ carries_apply instructions.now id }
{
    match instructions.get(id.0 as usize) {
        None => false,
        Some(instruction) => match &instruction.effects {
            None => false,
            Some(effects) => any_is_apply(effects.as_slice()),
        },
    }
}

fn first_apply(instructions: &List<Instruction>, ids: &[InstructionId]) -> Option<InstructionId>
    ensures { result ≡ first_apply instructions.now ids.now }
{
    for id in ids {
        if carries_apply(instructions, *id) {
            return Some(*id);
        }
    }
    None
}

/// The first instruction in stored order that carries `Apply`.
fn unreplaced(func: &HirFunction) -> Option<InstructionId>
    ensures { result ≡ unreplaced func.now }
{
    for (_, block) in func.body.blocks.iter() {
        if let Some(id) = first_apply(&func.instructions, block.instructions.as_slice()) {
            return Some(id);
        }
    }
    None
}

fn apply_left_report(alloc: Global) -> Result<Report, AllocError>
    ensures { IfOk result (λ r. r ≡ apply_left_report) }
{
    Ok(Report {
        category: ErrorCategory::Invariant,
        message: Text::from_str(
            alloc,
            "[AnalyzeFunctions] Expected Apply effects to be replaced with more precise effects",
        )?,
        help: None,
        labels: List::new(alloc),
    })
}

/// Whether so many positions are left.
fn are_left(next: u32, count: usize) -> bool
    ensures { result ≡ nat_le (next + count) 4294967295 }
{
    count <= (u32::MAX - next) as usize
}

/// What the effects of a function record, where none is `Apply` and there are positions for the tracked places, of
/// which there are `count`.
#[tactic(auto, using(crate::proofs::Refused::listing_refused))]
pub(crate) fn recorded(
    alloc: Global,
    func: &HirFunction,
    count: usize,
) -> Result<Listing, InferError>
    requires { count ≡ length (tracked func.now) }
    ensures { Gives is_memory (recorded func.now) result }
{
    if let Some(instruction) = unreplaced(func) {
        return Err(InferError::UnreplacedApply {
            instruction,
            report: apply_left_report(alloc)?,
        });
    }
    let listing = list_function(alloc, func)?;
    if are_left(listing.next, count) {
        Ok(listing)
    } else {
        Err(InferError::TooMany {
            which: Counter::GraphPositions,
        })
    }
}
