//! Marks of functions that reassign, and the operands that are checked for them.
ghost use Rattle.std.specs.Prelude.{◌≡◌, [], ◌∷◌, IfOk};
ghost use Rattle.alias_base.specs.Answer.{Gives};
ghost use Rattle.alias_hir.specs.Errors.{is_memory};
ghost use Rattle.alias_validate.specs.OperandMarks.{first_mark, marked_operand, operand, checked, seen, other_step};
ghost use Rattle.alias_validate.specs.Walks.{answered, each, ended, place_of};
ghost use Rattle.alias_visit.specs.Operands.{lvalue_ids};

use crate::marks::{Marks, is_freeze, is_unknown};
use crate::outcome::{Shared, WalkOutcome};
use alias_base::IdentifierId;
use alias_hir::env::Environment;
use alias_hir::error::InferError;
use alias_hir::hir::Instruction;
use alias_hir::place::{Effect, Place};
use alias_hir::value::InstructionValue;
use alias_visit::PlaceList;
use alias_visit::lvalues::each_instruction_lvalue_ids;
use alias_visit::operands::each_instruction_value_operand;
use smallvec::SmallVec;
use std::alloc::{AllocError, Global};

pub fn first_mark(marks: &Marks<Place>, places: &[Place]) -> Option<Place>
    ensures { result ≡ first_mark marks.now places.now }
{
    for place in places {
        if let Some(mark) = marks.get(place.identifier) {
            return Some(mark);
        }
    }
    None
}

pub fn ended(mark: Option<Place>) -> WalkOutcome
    ensures { result ≡ ended mark }
{
    match mark {
        Some(place) => WalkOutcome::End(Some(place)),
        None => WalkOutcome::Continue,
    }
}

pub fn place_of(outcome: WalkOutcome) -> Option<Place>
    ensures { result ≡ place_of outcome }
{
    match outcome {
        WalkOutcome::Continue => None,
        WalkOutcome::End(place) => place,
    }
}

fn marked_operand(
    lvalues: &[IdentifierId],
    marks: &mut Marks<Place>,
    effect: Effect,
    mark: Option<Place>,
) -> Result<WalkOutcome, AllocError>
    ensures { IfOk result (λ o. (marks.new, o) ≡ marked_operand lvalues.now marks.old effect mark) }
{
    match mark {
        Some(place) => {
            if is_freeze(effect) {
                Ok(WalkOutcome::End(Some(place)))
            } else {
                marks.mark_all(lvalues, place)?;
                Ok(WalkOutcome::Continue)
            }
        }
        None => Ok(WalkOutcome::Continue),
    }
}

fn operand(
    lvalues: &[IdentifierId],
    marks: &mut Marks<Place>,
    place: Place,
) -> Result<WalkOutcome, InferError>
    ensures { Gives is_memory (operand lvalues.now marks.old place) (answered (λ o. (marks.new, o)) result) }
{
    if is_unknown(place.effect) {
        return Err(InferError::EffectsNotInferred {
            identifier: place.identifier,
        });
    }
    let mark = marks.get(place.identifier);
    Ok(marked_operand(lvalues, marks, place.effect, mark)?)
}

fn operands(
    lvalues: &[IdentifierId],
    marks: &mut Marks<Place>,
    places: &[Place],
) -> Result<WalkOutcome, InferError>
    ensures { Gives is_memory (each (operand lvalues.now) marks.old places.now) (answered (λ o. (marks.new, o)) result) }
{
    for place in places {
        match operand(lvalues, marks, *place)? {
            WalkOutcome::Continue => {}
            WalkOutcome::End(place) => return Ok(WalkOutcome::End(place)),
        }
    }
    Ok(WalkOutcome::Continue)
}

fn one(alloc: Global, place: Place) -> Result<PlaceList, AllocError>
    ensures { IfOk result (λ l. l.items ≡ place ∷ []) }
{
    let mut places = SmallVec::new(alloc);
    places.push(place)?;
    Ok(places)
}

fn two(alloc: Global, first: Place, second: Place) -> Result<PlaceList, AllocError>
    ensures { IfOk result (λ l. l.items ≡ first ∷ second ∷ []) }
{
    let mut places = SmallVec::new(alloc);
    places.push(first)?;
    places.push(second)?;
    Ok(places)
}

/// The operands that are checked.
fn checked(
    alloc: Global,
    env: &Environment,
    value: &InstructionValue,
) -> Result<PlaceList, AllocError>
    ensures { IfOk result (λ l. l.items ≡ checked env.now value.now) }
{
    match value {
        InstructionValue::CallExpression { callee, .. } => {
            if env.has_no_alias_signature(callee.identifier) {
                one(alloc, *callee)
            } else {
                each_instruction_value_operand(alloc, value, env)
            }
        }
        InstructionValue::MethodCall {
            receiver,
            property,
            ..
        } => {
            if env.has_no_alias_signature(property.identifier) {
                two(alloc, *receiver, *property)
            } else {
                each_instruction_value_operand(alloc, value, env)
            }
        }
        _ => each_instruction_value_operand(alloc, value, env),
    }
}

/// An instruction that neither creates a function nor moves a local or a context variable.
pub fn other_step(
    alloc: Global,
    env: &Environment,
    instruction: &Instruction,
    marks: &mut Marks<Place>,
    shared: &Shared,
) -> Result<WalkOutcome, InferError>
    ensures { Gives is_memory (other_step env.now (marks.old, shared.now) (lvalue_ids instruction.now) instruction.now.value) (answered (seen marks.new shared.now) result) }
{
    let lvalues = each_instruction_lvalue_ids(alloc, instruction)?;
    let places = checked(alloc, env, &instruction.value)?;
    operands(lvalues.as_slice(), marks, places.as_slice())
}
