//! The effects of instructions' places, and what instructions do to ranges and to the functions that they create.
ghost use Rattle.std.specs.Prelude.{◌≡◌, Some, map, OnOk, OnErr};
ghost use Rattle.alias_graph.specs.recorded.Fitting.{OrderHasNext};
ghost use Rattle.alias_hir.specs.Values.{created};
ghost use Rattle.alias_hir.specs.declared.place.Effect.TheVariants.{Read, ConditionallyMutate};
ghost use Rattle.alias_range_pass.specs.places.Instructions.{value_placed, places_placed, context_placed, created_placed, surroundings, surrounded, instruction_placed, instruction_at, instructions_placed};
ghost use Rattle.alias_range_pass.specs.places.Keeping.{EnvKept, OrdersFit, but_instruction};
ghost use Rattle.alias_range_pass.specs.places.Mapped.{map_operands, map_lvalues};
ghost use Rattle.alias_range_pass.specs.places.Tables.{with_table};

use crate::places::ranges::{begin_assigned, start_all, store_value};
use crate::places::table::{EffectTable, set_place, table_of};
use alias_base::{EvaluationOrder, FunctionId, InstructionId, List};
use alias_hir::env::Environment;
use alias_hir::hir::{HirFunction, Instruction};
use alias_hir::place::{Effect, Place};
use alias_hir::value::InstructionValue;
use alias_visit::lvalues_mut::for_each_instruction_value_lvalue_mut;
use alias_visit::operands::each_instruction_value_operand;
use alias_visit::operands_mut::for_each_instruction_value_operand_mut;
use std::alloc::{AllocError, Global};

fn place_operands(table: &EffectTable, value: &mut InstructionValue)
    ensures { value.new ≡ map_operands (with_table table.now Read) value.old }
{
    for_each_instruction_value_operand_mut(
        value,
        &mut |place: &mut Place| {
            set_place(table, Effect::Read, place);
        },
    );
}

fn place_lvalues(table: &EffectTable, value: &mut InstructionValue)
    ensures { value.new ≡ map_lvalues (with_table table.now ConditionallyMutate) value.old }
{
    for_each_instruction_value_lvalue_mut(
        value,
        &mut |place: &mut Place| {
            set_place(table, Effect::ConditionallyMutate, place);
        },
    );
}

/// Sets the effects of an instruction's places. One that is both assigned and read, as the variable of a
/// `StoreContext`, counts as read.
fn place_places(table: &EffectTable, instruction: &mut Instruction)
    ensures { instruction.new ≡ places_placed table.now instruction.old }
{
    set_place(table, Effect::ConditionallyMutate, &mut instruction.lvalue);
    place_lvalues(table, &mut instruction.value);
    place_operands(table, &mut instruction.value);
}

fn place_each(table: &EffectTable, places: &mut [Place])
    ensures { places.new ≡ map (with_table table.now Read) places.old }
{
    for place in places.iter_mut() {
        set_place(table, Effect::Read, place);
    }
}

/// Sets the effects of the context places of a nested function.
fn place_context(table: &EffectTable, functions: &mut List<HirFunction>, id: FunctionId)
    ensures { functions.new ≡ created_placed table.now (Some id) functions.old }
{
    if let Some(func) = functions.get_mut(id.0 as usize) {
        place_each(table, func.context.as_mut_slice());
    }
}

/// The same, of the function that is created.
fn place_created(table: &EffectTable, value: &InstructionValue, functions: &mut List<HirFunction>)
    ensures { functions.new ≡ created_placed table.now (created value.now) functions.old }
{
    match value {
        InstructionValue::FunctionExpression { lowered_func }
        | InstructionValue::ObjectMethod { lowered_func } => {
            place_context(table, functions, lowered_func.func);
        }
        InstructionValue::ArrayExpression { .. }
        | InstructionValue::ObjectExpression { .. }
        | InstructionValue::Await { .. }
        | InstructionValue::NewExpression { .. }
        | InstructionValue::CallExpression { .. }
        | InstructionValue::MethodCall { .. }
        | InstructionValue::PropertyDelete { .. }
        | InstructionValue::ComputedDelete { .. }
        | InstructionValue::PropertyLoad { .. }
        | InstructionValue::ComputedLoad { .. }
        | InstructionValue::PropertyStore { .. }
        | InstructionValue::ComputedStore { .. }
        | InstructionValue::GetIterator { .. }
        | InstructionValue::IteratorNext { .. }
        | InstructionValue::NextPropertyOf { .. }
        | InstructionValue::JsxExpression { .. }
        | InstructionValue::JsxFragment { .. }
        | InstructionValue::DeclareLocal { .. }
        | InstructionValue::Destructure { .. }
        | InstructionValue::LoadContext { .. }
        | InstructionValue::DeclareContext { .. }
        | InstructionValue::StoreContext { .. }
        | InstructionValue::LoadLocal { .. }
        | InstructionValue::StoreLocal { .. }
        | InstructionValue::PostfixUpdate { .. }
        | InstructionValue::PrefixUpdate { .. }
        | InstructionValue::StoreGlobal { .. }
        | InstructionValue::TypeCastExpression { .. }
        | InstructionValue::LoadGlobal
        | InstructionValue::StartMemoize { .. }
        | InstructionValue::FinishMemoize { .. }
        | InstructionValue::TaggedTemplateExpression { .. }
        | InstructionValue::BinaryExpression { .. }
        | InstructionValue::TemplateLiteral { .. }
        | InstructionValue::UnaryExpression { .. }
        | InstructionValue::Debugger
        | InstructionValue::JSXText
        | InstructionValue::MetaProperty
        | InstructionValue::Primitive
        | InstructionValue::RegExpLiteral => {}
    }
}

/// Starts the operands, sets the effects of context places, and lets a stored value last.
fn surround_with(
    alloc: Global,
    table: &EffectTable,
    order: EvaluationOrder,
    value: &InstructionValue,
    env: &mut Environment,
) -> Result<(), AllocError>
    requires { OrderHasNext order }
    ensures ok { OnOk result (env.new ≡ surroundings table.now order value.now env.old) }
    ensures err { OnErr result (env.new ≡ env.old) }
{
    let operands = each_instruction_value_operand(alloc, value, env)?;
    start_all(&mut env.identifiers, operands.as_slice(), order);
    store_value(&mut env.identifiers, value, order);
    place_created(table, value, &mut env.functions);
    Ok(())
}

/// The same, where the instruction has effects.
fn surround(
    alloc: Global,
    table: &EffectTable,
    instruction: &Instruction,
    env: &mut Environment,
) -> Result<(), AllocError>
    requires { OrderHasNext instruction.now.id }
    ensures ok { OnOk result (env.new ≡ surrounded instruction.now.effects table.now instruction.now.id instruction.now.value env.old) }
    ensures err { OnErr result (env.new ≡ env.old) }
{
    match &instruction.effects {
        None => Ok(()),
        Some(effects) => {
            if effects.len() == 0 {
                Ok(())
            } else {
                surround_with(alloc, table, instruction.id, &instruction.value, env)
            }
        }
    }
}

/// Sets the effects of an instruction's places, and ranges by default.
#[tactic(auto, using(crate::specs::places::KeepLaws::assigned_keeps, crate::specs::places::KeepLaws::instruction_keeps, crate::specs::places::KeepLaws::keeps_same, crate::specs::places::StayLaws::instruction_stays))]
fn place_instruction(
    alloc: Global,
    instruction: &mut Instruction,
    env: &mut Environment,
) -> Result<(), AllocError>
    requires { OrderHasNext instruction.old.id }
    ensures ok { OnOk result ((instruction.new, env.new) ≡ instruction_placed instruction.old env.old) }
    ensures still { but_instruction instruction.new ≡ but_instruction instruction.old }
    ensures order { instruction.new.id ≡ instruction.old.id }
    ensures kept { EnvKept env.old env.new }
{
    begin_assigned(alloc, instruction, &mut env.identifiers)?;
    let table = table_of(alloc, &env.identifiers, instruction)?;
    surround(alloc, &table, instruction, env)?;
    place_places(&table, instruction);
    Ok(())
}

/// Places the instruction of a number.
#[tactic(auto, using(crate::specs::places::KeepLaws::keeps_same, crate::specs::places::StayLaws::set_stays))]
fn place_instruction_at(
    alloc: Global,
    instructions: &mut List<Instruction>,
    id: InstructionId,
    env: &mut Environment,
) -> Result<(), AllocError>
    requires { OrdersFit instructions.old }
    ensures ok { OnOk result ((instructions.new, env.new) ≡ instruction_at (instructions.old, env.old) id) }
    ensures fit { OrdersFit instructions.new }
    ensures still { map but_instruction instructions.new ≡ map but_instruction instructions.old }
    ensures kept { EnvKept env.old env.new }
{
    if let Some(instruction) = instructions.get_mut(id.0 as usize) {
        place_instruction(alloc, instruction, env)?;
    }
    Ok(())
}

/// Places instructions, in order.
#[tactic(auto, using(crate::specs::places::KeepLaws::keeps_trans, crate::specs::places::KeepLaws::keeps_same))]
pub(crate) fn place_instructions(
    alloc: Global,
    instructions: &mut List<Instruction>,
    ids: &[InstructionId],
    env: &mut Environment,
) -> Result<(), AllocError>
    requires { OrdersFit instructions.old }
    ensures ok { OnOk result ((instructions.new, env.new) ≡ instructions_placed ids.now (instructions.old, env.old)) }
    ensures fit { OrdersFit instructions.new }
    ensures still { map but_instruction instructions.new ≡ map but_instruction instructions.old }
    ensures kept { EnvKept env.old env.new }
{
    for id in ids {
        place_instruction_at(alloc, instructions, *id, env)?;
    }
    Ok(())
}
