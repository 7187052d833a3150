//! Functions that write locals, and where they are frozen.
ghost use Rattle.std.specs.Prelude.{◌≡◌, ◌++◌, take, length, true, false, option_map, IfOk, IfErr, OnOk};
ghost use Rattle.alias_hir.specs.Errors.{is_memory};
ghost use Rattle.alias_validate.specs.Marking.{mark_of, loaded};
ghost use Rattle.alias_visit.specs.Operands.{operands_of};
ghost use Rattle.alias_validate.specs.Freezing.{identifiers, is_ref_like_at, is_local, mutated, effect_seen, effects_seen, created_seen, marks_after, operand_reports, reports_at, value_reports, instruction_seen, instructions_seen, block_seen, function_seen, frozen_reports};
ghost use Rattle.alias_validate.specs.Reports.{with_reports, with_errors};

use crate::marks::{Marks, is_freeze};
use crate::mutation::ContextMutation;
use crate::reports::{frozen_report, record_reports};
use alias_base::{IdentifierId, InstructionId, List};
use alias_hir::effect::AliasingEffect;
use alias_hir::env::Environment;
use alias_hir::error::InferError;
use alias_hir::hir::{BasicBlock, HirFunction, Instruction};
use alias_hir::place::Place;
use alias_hir::report::Report;
use alias_hir::types::{is_ref_or_ref_like_mutable_type, type_of};
use alias_hir::value::InstructionValue;
use alias_visit::operands::each_instruction_value_operand;
use alias_visit::terminals::each_terminal_operand;
use std::alloc::{AllocError, Global};

/// The identifiers of the places.
fn identifiers(alloc: Global, places: &[Place]) -> Result<Marks<()>, AllocError>
    ensures { IfOk result (λ m. m ≡ identifiers places.now) }
{
    let mut marks = Marks::new(alloc);
    for place in places {
        marks.mark(place.identifier, ())?;
    }
    Ok(marks)
}

fn is_ref_like_at(env: &Environment, identifier: IdentifierId) -> bool
    ensures { result ≡ is_ref_like_at env.now identifier }
{
    match type_of(env, identifier) {
        Some(ty) => is_ref_or_ref_like_mutable_type(ty),
        None => false,
    }
}

fn is_local(env: &Environment, context: &Marks<()>, identifier: IdentifierId) -> bool
    ensures { result ≡ is_local env.now context.now identifier }
{
    context.get(identifier).is_some() && !is_ref_like_at(env, identifier)
}

/// A mutation of a place; whether the walk of the summary ends.
fn mutated(
    env: &Environment,
    context: &Marks<()>,
    lvalue: IdentifierId,
    marks: &mut Marks<ContextMutation>,
    place: Place,
) -> Result<bool, AllocError>
    ensures { IfOk result (λ ends. (marks.new, ends) ≡ mutated env.now context.now lvalue marks.old place (mark_of marks.old place.identifier)) }
{
    match marks.get(place.identifier) {
        Some(mutation) => {
            marks.mark(lvalue, mutation)?;
            Ok(false)
        }
        None => {
            if is_local(env, context, place.identifier) {
                let mutation = ContextMutation {
                    identifier: place.identifier,
                    span: place.span,
                };
                marks.mark(lvalue, mutation)?;
                Ok(true)
            } else {
                Ok(false)
            }
        }
    }
}

/// A mutation that is allowed passes a mark alone.
fn passed_on(
    lvalue: IdentifierId,
    marks: &mut Marks<ContextMutation>,
    place: Place,
) -> Result<bool, AllocError>
    ensures marks { OnOk result (marks.new ≡ loaded marks.old place.identifier lvalue) }
    ensures ends { IfOk result (λ ends. ends ≡ false) }
{
    marks.load(place.identifier, lvalue)?;
    Ok(false)
}

/// An effect of a summary; whether the walk of the summary ends.
fn effect_seen(
    env: &Environment,
    context: &Marks<()>,
    lvalue: IdentifierId,
    marks: &mut Marks<ContextMutation>,
    effect: &AliasingEffect,
) -> Result<bool, AllocError>
    ensures { IfOk result (λ ends. (marks.new, ends) ≡ effect_seen env.now context.now lvalue marks.old effect.now) }
{
    match effect {
        AliasingEffect::Mutate { value, .. } => mutated(env, context, lvalue, marks, *value),
        AliasingEffect::MutateTransitive { value } => mutated(env, context, lvalue, marks, *value),
        AliasingEffect::MutateConditionally { value } => passed_on(lvalue, marks, *value),
        AliasingEffect::MutateTransitiveConditionally { value } => passed_on(lvalue, marks, *value),
        _ => Ok(false),
    }
}

/// The effects of a summary in order, until one ends the walk.
fn effects_seen(
    env: &Environment,
    context: &Marks<()>,
    lvalue: IdentifierId,
    marks: &mut Marks<ContextMutation>,
    effects: &[AliasingEffect],
) -> Result<(), AllocError>
    ensures { OnOk result (marks.new ≡ effects_seen env.now context.now lvalue marks.old effects.now) }
{
    for effect in effects {
        if effect_seen(env, context, lvalue, marks, effect)? {
            return Ok(());
        }
    }
    Ok(())
}

/// A function is created.
fn created_seen(
    alloc: Global,
    env: &Environment,
    lvalue: IdentifierId,
    marks: &mut Marks<ContextMutation>,
    func: Option<&HirFunction>,
) -> Result<(), AllocError>
    ensures { OnOk result (marks.new ≡ created_seen env.now lvalue marks.old (option_map (λ f. f.now) func.entry)) }
{
    match func {
        Some(func) => match &func.aliasing_effects {
            Some(effects) => {
                let context = identifiers(alloc, func.context.as_slice())?;
                effects_seen(env, &context, lvalue, marks, effects.as_slice())
            }
            None => Ok(()),
        },
        None => Ok(()),
    }
}

/// The marks after an instruction.
pub fn mark_after(
    alloc: Global,
    env: &Environment,
    lvalue: IdentifierId,
    value: &InstructionValue,
    marks: &mut Marks<ContextMutation>,
) -> Result<(), AllocError>
    ensures { OnOk result (marks.new ≡ marks_after env.now lvalue value.now marks.old) }
{
    match value {
        InstructionValue::LoadLocal { place } => marks.load(place.identifier, lvalue),
        InstructionValue::StoreLocal {
            lvalue: target,
            value,
        } => marks.store(value.identifier, lvalue, target.place.identifier),
        InstructionValue::FunctionExpression { lowered_func } => created_seen(
            alloc,
            env,
            lvalue,
            marks,
            env.functions.get(lowered_func.func.0 as usize),
        ),
        _ => Ok(()),
    }
}

fn visit_operand(
    alloc: Global,
    env: &Environment,
    marks: &Marks<ContextMutation>,
    operand: Place,
    reports: &mut List<Report>,
) -> Result<(), AllocError>
    ensures { OnOk result (reports.new ≡ reports.old ++ operand_reports env.now marks.now operand) }
{
    if is_freeze(operand.effect) {
        if let Some(mutation) = marks.get(operand.identifier) {
            reports.push(frozen_report(alloc, env, operand, mutation)?)?;
        }
    }
    Ok(())
}

/// Appends reports of the marked operands that are frozen.
pub fn report_operands(
    alloc: Global,
    env: &Environment,
    marks: &Marks<ContextMutation>,
    operands: &[Place],
    reports: &mut List<Report>,
) -> Result<(), AllocError>
    ensures { OnOk result (reports.new ≡ reports.old ++ reports_at env.now marks.now operands.now) }
{
    for operand in operands {
        visit_operand(alloc, env, marks, *operand, reports)?;
    }
    Ok(())
}

fn visit_value_operands(
    alloc: Global,
    env: &Environment,
    marks: &Marks<ContextMutation>,
    value: &InstructionValue,
    reports: &mut List<Report>,
) -> Result<(), AllocError>
    ensures { OnOk result (reports.new ≡ reports.old ++ reports_at env.now marks.now (operands_of env.now value.now)) }
{
    let operands = each_instruction_value_operand(alloc, value, env)?;
    report_operands(alloc, env, marks, operands.as_slice(), reports)
}

/// Appends the reports of an instruction.
pub fn visit_value(
    alloc: Global,
    env: &Environment,
    marks: &Marks<ContextMutation>,
    value: &InstructionValue,
    reports: &mut List<Report>,
) -> Result<(), AllocError>
    ensures { OnOk result (reports.new ≡ reports.old ++ value_reports env.now marks.now value.now) }
{
    match value {
        InstructionValue::LoadLocal { .. } => Ok(()),
        InstructionValue::StoreLocal { .. } => Ok(()),
        InstructionValue::FunctionExpression { .. } => Ok(()),
        _ => visit_value_operands(alloc, env, marks, value, reports),
    }
}

fn walk_instruction(
    alloc: Global,
    env: &Environment,
    instruction: Option<&Instruction>,
    marks: &mut Marks<ContextMutation>,
    reports: &mut List<Report>,
) -> Result<(), AllocError>
    ensures { OnOk result ((marks.new, reports.new) ≡ instruction_seen env.now (marks.old, reports.old) (option_map (λ i. i.now) instruction.entry)) }
{
    match instruction {
        Some(instruction) => {
            visit_value(alloc, env, marks, &instruction.value, reports)?;
            mark_after(
                alloc,
                env,
                instruction.lvalue.identifier,
                &instruction.value,
                marks,
            )
        }
        None => Ok(()),
    }
}

fn walk_instructions(
    alloc: Global,
    env: &Environment,
    func: &HirFunction,
    instructions: &[InstructionId],
    marks: &mut Marks<ContextMutation>,
    reports: &mut List<Report>,
) -> Result<(), AllocError>
    ensures { OnOk result ((marks.new, reports.new) ≡ instructions_seen env.now func.now (marks.old, reports.old) instructions.now) }
{
    for instruction in instructions {
        walk_instruction(
            alloc,
            env,
            func.instructions.get(instruction.0 as usize),
            marks,
            reports,
        )?;
    }
    Ok(())
}

fn walk_block(
    alloc: Global,
    env: &Environment,
    func: &HirFunction,
    block: &BasicBlock,
    marks: &mut Marks<ContextMutation>,
    reports: &mut List<Report>,
) -> Result<(), AllocError>
    ensures { OnOk result ((marks.new, reports.new) ≡ block_seen env.now func.now (marks.old, reports.old) block.now) }
{
    walk_instructions(
        alloc,
        env,
        func,
        block.instructions.as_slice(),
        marks,
        reports,
    )?;
    let operands = each_terminal_operand(alloc, &block.terminal)?;
    report_operands(alloc, env, marks, operands.as_slice(), reports)
}

/// The reports of the function.
fn frozen_reports(
    alloc: Global,
    env: &Environment,
    func: &HirFunction,
) -> Result<List<Report>, AllocError>
    ensures { IfOk result (λ rs. rs ≡ frozen_reports env.now func.now) }
{
    let mut marks = Marks::new(alloc);
    let mut reports = List::new(alloc);
    for (_, block) in func.body.blocks.iter() {
        walk_block(alloc, env, func, block, &mut marks, &mut reports)?;
    }
    Ok(reports)
}

/// Reports each operand that is frozen while it is a function that writes a local. The one error is out of
/// memory; some reports may be recorded then.
pub fn validate_no_freezing_known_mutable_functions(
    alloc: Global,
    func: &HirFunction,
    env: &mut Environment,
) -> Result<(), InferError>
    ensures reports { OnOk result (env.new ≡ with_reports env.old (frozen_reports env.old func.now)) }
    ensures before { take (length env.old.errors) env.new.errors ≡ env.old.errors }
    ensures others { env.new ≡ with_errors env.old env.new.errors }
    ensures memory { IfErr result (λ e. is_memory e ≡ true) }
{
    let reports = frozen_reports(alloc, env, func)?;
    record_reports(&mut env.errors, reports)?;
    Ok(())
}
