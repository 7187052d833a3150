//! The declarations that are hoisted: read before they are declared.
ghost use Rattle.std.specs.Prelude.{◌≡◌, [], option_map, is_some, IfOk, OnOk};
ghost use Rattle.std.specs.List.{fold};
ghost use Rattle.alias_visit.specs.Operands.{operands_of};
ghost use Rattle.alias_facts.specs.Numbers.{with_value};
ghost use Rattle.alias_facts.specs.Hoisted.{declaration_of, access_at, with_access, after_read, is_hoisting, after_declaration, after_value, after_instruction, after_listed, after_block, find_hoisted_context_declarations};

use crate::numbers::NumberMap;
use alias_base::{DeclarationId, IdentifierId, InstructionId};
use alias_hir::env::Environment;
use alias_hir::hir::{BasicBlock, HirFunction, Instruction};
use alias_hir::place::Place;
use alias_hir::value::{InstructionKind, InstructionValue, LValue};
use alias_visit::operands::each_instruction_value_operand;
use alias_visit::terminals::each_terminal_operand;
use std::alloc::{AllocError, Global};
use std::marker::Model;

/// The hoisted declarations in ascending order, each with the place that reads it first, if one does.
#[derive(Drop)]
pub struct Hoisted {
    accesses: NumberMap<Option<Place>>,
}

impl Model for Hoisted {
    ghost use Rattle.std.specs.Prelude.{ℕ, List, Option as Maybe};
    ghost use Rattle.alias_hir.specs.declared.place.Place.{Place as Access};

    ghost Value = { List (ℕ × Maybe Access) };

    ghost view = { λ h. h.accesses };
}

impl Hoisted {
    /// No declarations. Takes no memory.
    pub fn new(alloc: Global) -> Self
        ensures { result ≡ [] }
    {
        Hoisted {
            accesses: NumberMap::new(alloc),
        }
    }

    /// `None` where the declaration isn't hoisted, else the place that reads it first, if one does.
    pub fn get(&self, declaration: DeclarationId) -> Option<Option<Place>>
        ensures { result ≡ access_at self.now declaration }
    {
        self.accesses.get(declaration.0)
    }

    /// Whether the declaration is hoisted.
    pub fn contains(&self, declaration: DeclarationId) -> bool
        ensures { result ≡ is_some (access_at self.now declaration) }
    {
        self.accesses.get(declaration.0).is_some()
    }

    fn set(&mut self, declaration: DeclarationId, access: Option<Place>) -> Result<(), AllocError>
        ensures { OnOk result (self.new ≡ with_value self.old declaration.0 access) }
    {
        self.accesses.set(declaration.0, access)
    }

    fn note(&mut self, declaration: DeclarationId, place: &Place) -> Result<(), AllocError>
        ensures { OnOk result (self.new ≡ with_access self.old declaration (access_at self.old declaration) place.now) }
    {
        match self.get(declaration) {
            Some(None) => self.set(declaration, Some(*place)),
            Some(Some(_)) => Ok(()),
            None => Ok(()),
        }
    }
}

/// The declaration of an identifier, or `None` where its number is past the end of the table.
pub fn declaration_of(env: &Environment, identifier: IdentifierId) -> Option<DeclarationId>
    ensures { result ≡ declaration_of env.now identifier }
{
    match env.identifiers.get(identifier.0 as usize) {
        Some(known) => Some(known.declaration_id),
        None => None,
    }
}

fn read(hoisted: &mut Hoisted, env: &Environment, place: &Place) -> Result<(), AllocError>
    ensures { OnOk result (hoisted.new ≡ after_read env.now hoisted.old place.now) }
{
    match declaration_of(env, place.identifier) {
        Some(declaration) => hoisted.note(declaration, place),
        None => Ok(()),
    }
}

fn read_all(hoisted: &mut Hoisted, env: &Environment, places: &[Place]) -> Result<(), AllocError>
    ensures { OnOk result (hoisted.new ≡ fold (after_read env.now) hoisted.old places.now) }
{
    for place in places {
        read(hoisted, env, place)?;
    }
    Ok(())
}

/// Whether a declaration of the kind is one that was moved to the front.
pub fn is_hoisting(kind: InstructionKind) -> bool
    ensures { result ≡ is_hoisting kind }
{
    matches!(
        kind,
        InstructionKind::HoistedConst
            | InstructionKind::HoistedLet
            | InstructionKind::HoistedFunction
    )
}

fn declare(hoisted: &mut Hoisted, env: &Environment, lvalue: &LValue) -> Result<(), AllocError>
    ensures { OnOk result (hoisted.new ≡ after_declaration env.now hoisted.old lvalue.now) }
{
    if !is_hoisting(lvalue.kind) {
        return Ok(());
    }
    match declaration_of(env, lvalue.place.identifier) {
        Some(declaration) => hoisted.set(declaration, None),
        None => Ok(()),
    }
}

fn read_operands(
    alloc: Global,
    hoisted: &mut Hoisted,
    env: &Environment,
    value: &InstructionValue,
) -> Result<(), AllocError>
    ensures { OnOk result (hoisted.new ≡ fold (after_read env.now) hoisted.old (operands_of env.now value.now)) }
{
    let operands = each_instruction_value_operand(alloc, value, env)?;
    read_all(hoisted, env, operands.as_slice())
}

fn visit_value(
    alloc: Global,
    hoisted: &mut Hoisted,
    env: &Environment,
    value: &InstructionValue,
) -> Result<(), AllocError>
    ensures { OnOk result (hoisted.new ≡ after_value env.now hoisted.old value.now) }
{
    match value {
        InstructionValue::DeclareContext { lvalue } => declare(hoisted, env, lvalue),
        _ => read_operands(alloc, hoisted, env, value),
    }
}

fn visit_instruction(
    alloc: Global,
    hoisted: &mut Hoisted,
    env: &Environment,
    instruction: Option<&Instruction>,
) -> Result<(), AllocError>
    ensures { OnOk result (hoisted.new ≡ after_instruction env.now hoisted.old (option_map (λ i. i.now) instruction.entry)) }
{
    match instruction {
        Some(instruction) => visit_value(alloc, hoisted, env, &instruction.value),
        None => Ok(()),
    }
}

fn visit_instructions(
    alloc: Global,
    hoisted: &mut Hoisted,
    func: &HirFunction,
    env: &Environment,
    listed: &[InstructionId],
) -> Result<(), AllocError>
    ensures { OnOk result (hoisted.new ≡ fold (after_listed func.now env.now) hoisted.old listed.now) }
{
    for id in listed {
        visit_instruction(alloc, hoisted, env, func.instructions.get(id.0 as usize))?;
    }
    Ok(())
}

fn visit_block(
    alloc: Global,
    hoisted: &mut Hoisted,
    func: &HirFunction,
    env: &Environment,
    block: &BasicBlock,
) -> Result<(), AllocError>
    ensures { OnOk result (hoisted.new ≡ after_block func.now env.now hoisted.old block.now) }
{
    visit_instructions(alloc, hoisted, func, env, block.instructions.as_slice())?;
    let operands = each_terminal_operand(alloc, &block.terminal)?;
    read_all(hoisted, env, operands.as_slice())
}

/// The declarations that the function hoists, each with the first place that reads it before its instruction, in stored
/// order of blocks. The one error is out of memory.
pub fn find_hoisted_context_declarations(
    alloc: Global,
    func: &HirFunction,
    env: &Environment,
) -> Result<Hoisted, AllocError>
    ensures { IfOk result (λ h. h ≡ find_hoisted_context_declarations func.now env.now) }
{
    let mut hoisted = Hoisted::new(alloc);
    for (_, block) in func.body.blocks.iter() {
        visit_block(alloc, &mut hoisted, func, env, block)?;
    }
    Ok(hoisted)
}
