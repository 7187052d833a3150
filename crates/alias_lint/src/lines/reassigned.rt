//! Locals that are reassigned after rendering.
ghost use Rattle.std.specs.Prelude.{◌≡◌, ◌++◌, Some, None, true, false, option_map, IfOk, OnOk};
ghost use Rattle.alias_base.specs.Answer.{Gives};
ghost use Rattle.alias_hir.specs.Errors.{is_memory};
ghost use Rattle.alias_validate.specs.Walks.{answered};
ghost use Rattle.alias_lint.specs.Reassigned.{noted, reported_after, ended_at, end_place, found_at, created_step, instruction_step, instruction_steps, block_step, block_steps, reassignment, end_lints, reassigned_lints};

use crate::{Lint, Site, WalkEnd};
use alias_base::{BlockId, FunctionId, IdentifierId, InstructionId, List};
use alias_hir::env::Environment;
use alias_hir::error::InferError;
use alias_hir::hir::{BasicBlock, HirFunction, Instruction};
use alias_hir::place::Place;
use alias_validate::instruction_steps::{at_terminal, created, plain_step};
use alias_validate::marks::Marks;
use alias_validate::operand_marks::first_mark;
use alias_validate::outcome::{Shared, WalkOutcome};
use alias_validate::reports::{async_report, reassigned_report};
use std::alloc::{AllocError, Global};

fn ended_at(site: Site, outcome: WalkOutcome) -> WalkEnd
    ensures { result ≡ ended_at site outcome }
{
    match outcome {
        WalkOutcome::Continue => WalkEnd::Going,
        WalkOutcome::End(place) => WalkEnd::Ended(place, site),
    }
}

fn end_place(end: WalkEnd) -> Option<Place>
    ensures { result ≡ end_place end }
{
    match end {
        WalkEnd::Going => None,
        WalkEnd::Ended(place, _) => place,
    }
}

/// What a created function reassigns.
fn found_at(
    alloc: Global,
    env: &Environment,
    is_async: bool,
    site: Site,
    lvalue: IdentifierId,
    marks: &mut Marks<Place>,
    shared: &Shared,
    lints: &mut List<Lint>,
    place: Option<Place>,
) -> Result<WalkEnd, AllocError>
    ensures { IfOk result (λ e. noted marks.new shared.now lints.new e ≡ found_at env.now is_async site lvalue marks.old (shared.now, lints.old) place) }
{
    match place {
        None => Ok(WalkEnd::Going),
        Some(place) => {
            if is_async {
                let report = async_report(alloc, env, place)?;
                lints.push(Lint { site, report })?;
                Ok(WalkEnd::Ended(None, site))
            } else {
                marks.mark(lvalue, place)?;
                Ok(WalkEnd::Going)
            }
        }
    }
}

/// A created function: what its walk or its context reassigns.
#[cycle(reassignment)]
fn walk_created(
    alloc: Global,
    levels: u32,
    env: &Environment,
    is_async: bool,
    site: Site,
    lvalue: IdentifierId,
    id: FunctionId,
    func: Option<&HirFunction>,
    marks: &mut Marks<Place>,
    shared: &mut Shared,
    lints: &mut List<Lint>,
) -> Result<WalkEnd, InferError>
    ensures { Gives is_memory (created_step env.now (λ k. reassignment levels env.now true (Some k)) is_async site lvalue ((marks.old, shared.old), lints.old) id (option_map (λ f. f.now) func.entry)) (answered (noted marks.new shared.new lints.new) result) }
{
    match func {
        Some(func) => {
            let is_async = is_async || func.is_async;
            let name = Some(id);
            let end = reassignment(
                alloc, levels, env, true, name, is_async, func, shared, lints,
            )?;
            let place = end_place(end).or(first_mark(marks, func.context.as_slice()));
            Ok(found_at(
                alloc, env, is_async, site, lvalue, marks, shared, lints, place,
            )?)
        }
        None => Ok(WalkEnd::Going),
    }
}

#[cycle(reassignment)]
fn walk_instruction(
    alloc: Global,
    levels: u32,
    env: &Environment,
    is_function_expression: bool,
    is_async: bool,
    site: Site,
    instruction: Option<&Instruction>,
    marks: &mut Marks<Place>,
    shared: &mut Shared,
    lints: &mut List<Lint>,
) -> Result<WalkEnd, InferError>
    ensures { Gives is_memory (instruction_step env.now (λ k. reassignment levels env.now true (Some k)) is_function_expression is_async site ((marks.old, shared.old), lints.old) (option_map (λ i. i.now) instruction.entry)) (answered (noted marks.new shared.new lints.new) result) }
{
    match instruction {
        Some(instruction) => match created(&instruction.value) {
            Some(id) => {
                let func = env.functions.get(id.0 as usize);
                let lvalue = instruction.lvalue.identifier;
                walk_created(
                    alloc, levels, env, is_async, site, lvalue, id, func, marks, shared, lints,
                )
            }
            None => {
                let outcome = plain_step(
                    alloc,
                    env,
                    is_function_expression,
                    instruction,
                    marks,
                    shared,
                )?;
                Ok(ended_at(site, outcome))
            }
        },
        None => Ok(WalkEnd::Going),
    }
}

#[cycle(reassignment)]
fn walk_instructions(
    alloc: Global,
    levels: u32,
    env: &Environment,
    is_function_expression: bool,
    name: Option<FunctionId>,
    is_async: bool,
    func: &HirFunction,
    block: BlockId,
    ids: &[InstructionId],
    marks: &mut Marks<Place>,
    shared: &mut Shared,
    lints: &mut List<Lint>,
) -> Result<WalkEnd, InferError>
    ensures { Gives is_memory (instruction_steps env.now (λ k. reassignment levels env.now true (Some k)) is_function_expression is_async name func.now block ((marks.old, shared.old), lints.old) ids.now) (answered (noted marks.new shared.new lints.new) result) }
{
    for id in ids {
        let instruction = func.instructions.get(id.0 as usize);
        let site = Site {
            function: name,
            block,
            instruction: Some(*id),
        };
        match walk_instruction(
            alloc,
            levels,
            env,
            is_function_expression,
            is_async,
            site,
            instruction,
            marks,
            shared,
            lints,
        )? {
            WalkEnd::Going => {}
            WalkEnd::Ended(place, site) => return Ok(WalkEnd::Ended(place, site)),
        }
    }
    Ok(WalkEnd::Going)
}

/// The instructions of a block, then its terminal.
#[cycle(reassignment)]
fn walk_block(
    alloc: Global,
    levels: u32,
    env: &Environment,
    is_function_expression: bool,
    name: Option<FunctionId>,
    is_async: bool,
    func: &HirFunction,
    id: BlockId,
    block: &BasicBlock,
    marks: &mut Marks<Place>,
    shared: &mut Shared,
    lints: &mut List<Lint>,
) -> Result<WalkEnd, InferError>
    ensures { Gives is_memory (block_step env.now (λ k. reassignment levels env.now true (Some k)) is_function_expression is_async name func.now ((marks.old, shared.old), lints.old) (id, block.now)) (answered (noted marks.new shared.new lints.new) result) }
{
    let ids = block.instructions.as_slice();
    match walk_instructions(
        alloc,
        levels,
        env,
        is_function_expression,
        name,
        is_async,
        func,
        id,
        ids,
        marks,
        shared,
        lints,
    )? {
        WalkEnd::Going => {
            let site = Site {
                function: name,
                block: id,
                instruction: None,
            };
            Ok(ended_at(site, at_terminal(alloc, marks, &block.terminal)?))
        }
        WalkEnd::Ended(place, site) => Ok(WalkEnd::Ended(place, site)),
    }
}

#[cycle(reassignment)]
fn walk_blocks(
    alloc: Global,
    levels: u32,
    env: &Environment,
    is_function_expression: bool,
    name: Option<FunctionId>,
    is_async: bool,
    func: &HirFunction,
    marks: &mut Marks<Place>,
    shared: &mut Shared,
    lints: &mut List<Lint>,
) -> Result<WalkEnd, InferError>
    ensures { Gives is_memory (block_steps env.now (λ k. reassignment levels env.now true (Some k)) is_function_expression is_async name func.now ((marks.old, shared.old), lints.old) func.now.body.blocks) (answered (noted marks.new shared.new lints.new) result) }
{
    for (id, block) in func.body.blocks.iter() {
        match walk_block(
            alloc,
            levels,
            env,
            is_function_expression,
            name,
            is_async,
            func,
            *id,
            block,
            marks,
            shared,
            lints,
        )? {
            WalkEnd::Going => {}
            WalkEnd::Ended(place, site) => return Ok(WalkEnd::Ended(place, site)),
        }
    }
    Ok(WalkEnd::Going)
}

/// The walk of a function, and of those that it creates, within so many levels: how it ends.
#[cycle(reassignment)]
fn reassignment(
    alloc: Global,
    levels: u32,
    env: &Environment,
    is_function_expression: bool,
    name: Option<FunctionId>,
    is_async: bool,
    func: &HirFunction,
    shared: &mut Shared,
    lints: &mut List<Lint>,
) -> Result<WalkEnd, InferError>
    ensures { Gives is_memory (reassignment levels env.now is_function_expression name is_async func.now (shared.old, lints.old)) (answered (reported_after shared.new lints.new) result) }
{
    if levels == 0 {
        return Ok(WalkEnd::Going);
    }
    let mut marks = Marks::new(alloc);
    walk_blocks(
        alloc,
        levels - 1,
        env,
        is_function_expression,
        name,
        is_async,
        func,
        &mut marks,
        shared,
        lints,
    )
}

/// Appends the place that the root's own walk ended with, told where it ended.
fn push_end(
    alloc: Global,
    env: &Environment,
    end: WalkEnd,
    lints: &mut List<Lint>,
) -> Result<(), AllocError>
    ensures { OnOk result (lints.new ≡ lints.old ++ end_lints env.now end) }
{
    if let WalkEnd::Ended(Some(place), site) = end {
        let report = reassigned_report(alloc, env, place)?;
        lints.push(Lint { site, report })?;
    }
    Ok(())
}

/// The async lints, and then that of the root's own place.
pub(crate) fn reassigned_lints(
    alloc: Global,
    env: &Environment,
    func: &HirFunction,
) -> Result<List<Lint>, InferError>
    ensures { Gives is_memory (reassigned_lints env.now func.now) result }
{
    let mut shared = Shared {
        context_variables: Marks::new(alloc),
        reports: List::new(alloc),
    };
    let mut lints = List::new(alloc);
    let end = reassignment(
        alloc,
        64,
        env,
        false,
        None,
        false,
        func,
        &mut shared,
        &mut lints,
    )?;
    push_end(alloc, env, end, &mut lints)?;
    Ok(lints)
}
