//! The three instructions of a block.

ghost use Rattle.std.specs.Prelude.{◌≡◌, ◌+◌, ◌*◌, ◌<◌, ◌≤◌, ◌++◌, IfOk, OnOk};
ghost use Rattle.alias_made.specs.Instructions.{use_of, instruction, object_of, value_of, instructions_of};

use crate::draws::BlockDraw;
use alias_base::{EvaluationOrder, IdentifierId, List, Text};
use alias_hir::hir::Instruction;
use alias_hir::place::{Effect, Place};
use alias_hir::value::{ArrayElement, InstructionValue, PropertyLiteral};
use std::alloc::{AllocError, Global};

/// A use of the identifier of this number.
pub fn use_of(number: u32) -> Place
    ensures { result ≡ use_of number }
{
    Place {
        identifier: IdentifierId(number),
        effect: Effect::Unknown,
        reactive: false,
        span: None,
    }
}

/// The number of the object that a block makes.
pub fn object_of(block: u32) -> u32
    requires { block < 1000 }
    ensures { result ≡ object_of block }
{
    3 * block + 1
}

fn instruction(order: u32, number: u32, value: InstructionValue) -> Instruction
    ensures { result ≡ instruction order number value }
{
    Instruction {
        id: EvaluationOrder(order),
        lvalue: use_of(number),
        value,
        span: None,
        effects: None,
    }
}

fn value_of(alloc: Global, kind: u32, object: Place) -> Result<InstructionValue, AllocError>
    ensures { IfOk result (λ v. v ≡ value_of kind object) }
{
    match kind {
        0 => Ok(InstructionValue::LoadLocal { place: object }),
        1 => Ok(InstructionValue::ArrayExpression {
            elements: List::from_slice(alloc, &[ArrayElement::Place(object)])?,
        }),
        2 => Ok(InstructionValue::PropertyLoad { object }),
        _ => Ok(InstructionValue::Primitive),
    }
}

/// Appends the instructions of a block: it makes an object, makes a value of the object that is drawn, and stores this
/// value in that object.
pub fn push_instructions(
    alloc: Global,
    instructions: &mut List<Instruction>,
    block: u32,
    draw: BlockDraw,
) -> Result<(), AllocError>
    requires size { block < 1000 }
    requires earlier { draw.source ≤ block }
    ensures { OnOk result (instructions.new ≡ instructions.old ++ instructions_of block draw) }
{
    let (order, object) = (4 * block + 1, object_of(block));
    let from = use_of(object_of(draw.source));
    let made = InstructionValue::ObjectExpression {
        properties: List::new(alloc),
    };
    let computed = value_of(alloc, draw.kind, from)?;
    let stored = InstructionValue::PropertyStore {
        object: from,
        property: PropertyLiteral::String(Text::from_str(alloc, "a")?),
        value: use_of(object + 1),
    };
    instructions.push(instruction(order, object, made))?;
    instructions.push(instruction(order + 1, object + 1, computed))?;
    instructions.push(instruction(order + 2, object + 2, stored))?;
    Ok(())
}
