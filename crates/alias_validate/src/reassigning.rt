//! Locals that are reassigned after rendering.
ghost use Rattle.std.specs.Prelude.{◌≡◌, ℕ, ◌+◌, take, length, true, false, Ok, option_map, IfOk, IfErr};
ghost use Rattle.alias_base.specs.Answer.{Gives};
ghost use Rattle.alias_hir.specs.Errors.{is_memory};
ghost use Rattle.alias_validate.specs.Levels.{is_within};
ghost use Rattle.alias_validate.specs.OperandMarks.{seen};
ghost use Rattle.alias_validate.specs.Reassigning.{created_step, instruction_step, instruction_steps, block_step, block_steps, context_reassignment, walk_ended, reassignment_reports, reassigned_within, reassigned_reports, with_reassigned};
ghost use Rattle.alias_validate.specs.Reports.{with_errors};
ghost use Rattle.alias_validate.specs.Walks.{answered};

use crate::instruction_steps::{at_terminal, created, found, plain_step};
use crate::marks::Marks;
use crate::operand_marks::{first_mark, place_of};
use crate::outcome::{Shared, WalkOutcome};
use crate::reports::{reassigned_report, record_reports};
use alias_base::{IdentifierId, InstructionId, List};
use alias_hir::env::Environment;
use alias_hir::error::InferError;
use alias_hir::hir::{BasicBlock, HirFunction, Instruction};
use alias_hir::place::Place;
use alias_hir::report::Report;
use std::alloc::{AllocError, Global};

/// A created function: what its walk or its context reassigns.
#[cycle(reassigned)]
fn walk_created(
    alloc: Global,
    levels: u32,
    env: &Environment,
    is_async: bool,
    lvalue: IdentifierId,
    func: Option<&HirFunction>,
    marks: &mut Marks<Place>,
    shared: &mut Shared,
) -> Result<WalkOutcome, InferError>
    ensures { Gives is_memory (created_step env.now (context_reassignment levels env.now true) is_async lvalue (marks.old, shared.old) (option_map (λ f. f.now) func.entry)) (answered (seen marks.new shared.new) result) }
{
    match func {
        Some(func) => {
            let is_async = is_async || func.is_async;
            let own = get_context_reassignment(alloc, levels, env, true, is_async, func, shared)?;
            let place = own.or(first_mark(marks, func.context.as_slice()));
            Ok(found(alloc, env, is_async, lvalue, marks, shared, place)?)
        }
        None => Ok(WalkOutcome::Continue),
    }
}

#[cycle(reassigned)]
fn walk_instruction(
    alloc: Global,
    levels: u32,
    env: &Environment,
    is_function_expression: bool,
    is_async: bool,
    instruction: Option<&Instruction>,
    marks: &mut Marks<Place>,
    shared: &mut Shared,
) -> Result<WalkOutcome, InferError>
    ensures { Gives is_memory (instruction_step env.now (context_reassignment levels env.now true) is_function_expression is_async (marks.old, shared.old) (option_map (λ i. i.now) instruction.entry)) (answered (seen marks.new shared.new) result) }
{
    match instruction {
        Some(instruction) => match created(&instruction.value) {
            Some(id) => {
                let func = env.functions.get(id.0 as usize);
                let lvalue = instruction.lvalue.identifier;
                walk_created(alloc, levels, env, is_async, lvalue, func, marks, shared)
            }
            None => plain_step(
                alloc,
                env,
                is_function_expression,
                instruction,
                marks,
                shared,
            ),
        },
        None => Ok(WalkOutcome::Continue),
    }
}

#[cycle(reassigned)]
fn walk_instructions(
    alloc: Global,
    levels: u32,
    env: &Environment,
    is_function_expression: bool,
    is_async: bool,
    func: &HirFunction,
    instructions: &[InstructionId],
    marks: &mut Marks<Place>,
    shared: &mut Shared,
) -> Result<WalkOutcome, InferError>
    ensures { Gives is_memory (instruction_steps env.now (context_reassignment levels env.now true) is_function_expression is_async func.now (marks.old, shared.old) instructions.now) (answered (seen marks.new shared.new) result) }
{
    for id in instructions {
        let instruction = func.instructions.get(id.0 as usize);
        match walk_instruction(
            alloc,
            levels,
            env,
            is_function_expression,
            is_async,
            instruction,
            marks,
            shared,
        )? {
            WalkOutcome::Continue => {}
            WalkOutcome::End(place) => return Ok(WalkOutcome::End(place)),
        }
    }
    Ok(WalkOutcome::Continue)
}

/// The instructions of a block, then its terminal.
#[cycle(reassigned)]
fn walk_block(
    alloc: Global,
    levels: u32,
    env: &Environment,
    is_function_expression: bool,
    is_async: bool,
    func: &HirFunction,
    block: &BasicBlock,
    marks: &mut Marks<Place>,
    shared: &mut Shared,
) -> Result<WalkOutcome, InferError>
    ensures { Gives is_memory (block_step env.now (context_reassignment levels env.now true) is_function_expression is_async func.now (marks.old, shared.old) block.now) (answered (seen marks.new shared.new) result) }
{
    let instructions = block.instructions.as_slice();
    match walk_instructions(
        alloc,
        levels,
        env,
        is_function_expression,
        is_async,
        func,
        instructions,
        marks,
        shared,
    )? {
        WalkOutcome::Continue => Ok(at_terminal(alloc, marks, &block.terminal)?),
        WalkOutcome::End(place) => Ok(WalkOutcome::End(place)),
    }
}

#[cycle(reassigned)]
fn walk_blocks(
    alloc: Global,
    levels: u32,
    env: &Environment,
    is_function_expression: bool,
    is_async: bool,
    func: &HirFunction,
    marks: &mut Marks<Place>,
    shared: &mut Shared,
) -> Result<WalkOutcome, InferError>
    ensures { Gives is_memory (block_steps env.now (context_reassignment levels env.now true) is_function_expression is_async func.now (marks.old, shared.old) func.now.body.blocks) (answered (seen marks.new shared.new) result) }
{
    for (_, block) in func.body.blocks.iter() {
        match walk_block(
            alloc,
            levels,
            env,
            is_function_expression,
            is_async,
            func,
            block,
            marks,
            shared,
        )? {
            WalkOutcome::Continue => {}
            WalkOutcome::End(place) => return Ok(WalkOutcome::End(place)),
        }
    }
    Ok(WalkOutcome::Continue)
}

/// The walk of a function, and of those that it creates, within so many levels: the place that it ends with.
#[cycle(reassigned)]
fn get_context_reassignment(
    alloc: Global,
    levels: u32,
    env: &Environment,
    is_function_expression: bool,
    is_async: bool,
    func: &HirFunction,
    shared: &mut Shared,
) -> Result<Option<Place>, InferError>
    ensures { Gives is_memory (context_reassignment levels env.now is_function_expression is_async func.now shared.old) (answered (walk_ended shared.new) result) }
{
    if levels == 0 {
        return Ok(None);
    }
    let mut marks = Marks::new(alloc);
    let outcome = walk_blocks(
        alloc,
        levels - 1,
        env,
        is_function_expression,
        is_async,
        func,
        &mut marks,
        shared,
    )?;
    Ok(place_of(outcome))
}

/// The reports of the walk and, where it ended with a place, of that.
fn reassignment_reports(
    alloc: Global,
    env: &Environment,
    shared: Shared,
    place: Option<Place>,
) -> Result<List<Report>, AllocError>
    ensures { IfOk result (λ rs. rs ≡ reassignment_reports env.now shared place) }
{
    let Shared { mut reports, .. } = shared;
    if let Some(place) = place {
        reports.push(reassigned_report(alloc, env, place)?)?;
    }
    Ok(reports)
}

fn reassigned_reports(
    alloc: Global,
    env: &Environment,
    func: &HirFunction,
) -> Result<List<Report>, InferError>
    ensures { Gives is_memory (reassigned_reports env.now func.now) result }
{
    let mut shared = Shared {
        context_variables: Marks::new(alloc),
        reports: List::new(alloc),
    };
    let place = get_context_reassignment(alloc, 64, env, false, false, func, &mut shared)?;
    Ok(reassignment_reports(alloc, env, shared, place)?)
}

/// Reports each local that an async function reassigns, and then the place that some function reassigns once
/// rendering is over. `EffectsNotInferred` names the first operand of the walk that has no effect yet; nothing
/// is recorded then. The other error is out of memory, where some reports may be recorded. Where functions are nested
/// in at most 64 levels, the reports are those of a walk with no such bound.
pub fn validate_locals_not_reassigned_after_render(
    alloc: Global,
    func: &HirFunction,
    env: &mut Environment,
) -> Result<(), InferError>
    ensures reports { Gives is_memory (with_reassigned env.old (reassigned_reports env.old func.now)) (answered (λ _. env.new) result) }
    ensures levels { is_within 64 env.old func.now ≡ true → (k : ℕ) → reassigned_within (64 + k) env.old func.now ≡ reassigned_reports env.old func.now }
    ensures refused { IfErr result (λ e. is_memory e ≡ false → env.new ≡ env.old) }
    ensures before { take (length env.old.errors) env.new.errors ≡ env.old.errors }
    ensures others { env.new ≡ with_errors env.old env.new.errors }
{
    let reports = reassigned_reports(alloc, env, func)?;
    record_reports(&mut env.errors, reports)?;
    Ok(())
}
