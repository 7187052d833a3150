//! The steps of instructions that create no function, of terminals, and of what a created function reassigns.
ghost use Rattle.std.specs.Prelude.{◌≡◌, Ok, IfOk, OnOk};
ghost use Rattle.alias_base.specs.Answer.{Gives};
ghost use Rattle.alias_hir.specs.Errors.{is_memory};
ghost use Rattle.alias_hir.specs.Terminals.{terminal_places};
ghost use Rattle.alias_hir.specs.Values.{created};
ghost use Rattle.alias_validate.specs.InstructionSteps.{is_context_variable, declared, context_stored, found, plain_step};
ghost use Rattle.alias_validate.specs.OperandMarks.{first_mark, seen};
ghost use Rattle.alias_validate.specs.Walks.{answered, ended};
ghost use Rattle.alias_visit.specs.Operands.{lvalue_ids};

use crate::marks::Marks;
use crate::operand_marks::{ended, first_mark, other_step};
use crate::outcome::{Shared, WalkOutcome};
use crate::reports::async_report;
use alias_base::{FunctionId, IdentifierId};
use alias_hir::env::Environment;
use alias_hir::error::InferError;
use alias_hir::hir::Instruction;
use alias_hir::place::Place;
use alias_hir::terminal::Terminal;
use alias_hir::value::InstructionValue;
use alias_visit::terminals::each_terminal_operand;
use std::alloc::{AllocError, Global};

fn is_context_variable(shared: &Shared, identifier: IdentifierId) -> bool
    ensures { result ≡ is_context_variable shared.now identifier }
{
    shared.context_variables.get(identifier).is_some()
}

/// Outside function expressions a variable becomes a context variable.
fn declare(
    is_function_expression: bool,
    shared: &mut Shared,
    identifier: IdentifierId,
) -> Result<(), AllocError>
    ensures { OnOk result (shared.new ≡ declared is_function_expression shared.old identifier) }
{
    if !is_function_expression {
        shared.context_variables.mark(identifier, ())?;
    }
    Ok(())
}

/// A store to a context variable.
fn store_context(
    is_function_expression: bool,
    lvalue: IdentifierId,
    marks: &mut Marks<Place>,
    shared: &mut Shared,
    target: Place,
    value: Place,
) -> Result<WalkOutcome, AllocError>
    ensures { IfOk result (λ o. seen marks.new shared.new o ≡ context_stored is_function_expression lvalue (marks.old, shared.old) target value) }
{
    if is_function_expression && is_context_variable(shared, target.identifier) {
        return Ok(WalkOutcome::End(Some(target)));
    }
    marks.store(value.identifier, lvalue, target.identifier)?;
    declare(is_function_expression, shared, target.identifier)?;
    Ok(WalkOutcome::Continue)
}

/// What a created function reassigns.
pub fn found(
    alloc: Global,
    env: &Environment,
    is_async: bool,
    lvalue: IdentifierId,
    marks: &mut Marks<Place>,
    shared: &mut Shared,
    place: Option<Place>,
) -> Result<WalkOutcome, AllocError>
    ensures { IfOk result (λ o. seen marks.new shared.new o ≡ found env.now is_async lvalue marks.old shared.old place) }
{
    match place {
        None => Ok(WalkOutcome::Continue),
        Some(place) => {
            if is_async {
                shared.reports.push(async_report(alloc, env, place)?)?;
                Ok(WalkOutcome::End(None))
            } else {
                marks.mark(lvalue, place)?;
                Ok(WalkOutcome::Continue)
            }
        }
    }
}

/// A marked operand of the terminal ends the walk.
pub fn at_terminal(
    alloc: Global,
    marks: &Marks<Place>,
    terminal: &Terminal,
) -> Result<WalkOutcome, AllocError>
    ensures { IfOk result (λ o. o ≡ ended (first_mark marks.now (terminal_places terminal.now))) }
{
    let places = each_terminal_operand(alloc, terminal)?;
    Ok(ended(first_mark(marks, places.as_slice())))
}

/// The nested function that the instruction creates.
pub fn created(value: &InstructionValue) -> Option<FunctionId>
    ensures { result ≡ created value.now }
{
    match value {
        InstructionValue::FunctionExpression { lowered_func } => Some(lowered_func.func),
        InstructionValue::ObjectMethod { lowered_func } => Some(lowered_func.func),
        _ => None,
    }
}

/// An instruction that creates no function.
pub fn plain_step(
    alloc: Global,
    env: &Environment,
    is_function_expression: bool,
    instruction: &Instruction,
    marks: &mut Marks<Place>,
    shared: &mut Shared,
) -> Result<WalkOutcome, InferError>
    ensures { Gives is_memory (plain_step env.now is_function_expression (marks.old, shared.old) instruction.now.lvalue.identifier (lvalue_ids instruction.now) instruction.now.value) (answered (seen marks.new shared.new) result) }
{
    let lvalue = instruction.lvalue.identifier;
    match &instruction.value {
        InstructionValue::LoadLocal { place } => {
            marks.load(place.identifier, lvalue)?;
            Ok(WalkOutcome::Continue)
        }
        InstructionValue::StoreLocal { lvalue: to, value } => {
            marks.store(value.identifier, lvalue, to.place.identifier)?;
            Ok(WalkOutcome::Continue)
        }
        InstructionValue::DeclareContext { lvalue: to } => {
            declare(is_function_expression, shared, to.place.identifier)?;
            Ok(WalkOutcome::Continue)
        }
        InstructionValue::StoreContext { lvalue: to, value } => Ok(store_context(
            is_function_expression,
            lvalue,
            marks,
            shared,
            to.place,
            *value,
        )?),
        _ => other_step(alloc, env, instruction, marks, shared),
    }
}
