//! All places that stand in a function.
ghost use Rattle.std.specs.Prelude.{◌≡◌, ◌++◌, map, IfOk, OnOk};
ghost use Rattle.std.specs.List.{flat_map};
ghost use Rattle.alias_hir.specs.Parts.{param_place};
ghost use Rattle.alias_hir.specs.Values.{created};
ghost use Rattle.alias_base.specs.declared.ids.BlockId.{BlockId};
ghost use Rattle.alias_hir.specs.declared.hir.BasicBlock.{BasicBlock};
ghost use Rattle.alias_hir.specs.declared.place.Place.{Place};
ghost use Rattle.alias_visit.specs.Places.{created_places, instruction_places, phi_places, block_places, places_in};

use crate::operands::context;
use crate::parts::{PlaceList, push_places};
use crate::places::push_value;
use crate::terminals::each_terminal_operand;
use alias_hir::env::Environment;
use alias_hir::hir::{BasicBlock, HirFunction, Instruction, ParamPattern, Phi};
use alias_hir::place::Place;
use alias_hir::value::InstructionValue;
use smallvec::SmallVec;
use std::alloc::{AllocError, Global};

fn push_created(
    places: &mut PlaceList,
    env: &Environment,
    value: &InstructionValue,
) -> Result<(), AllocError>
    ensures { OnOk result (places.new.items ≡ places.old.items ++ created_places env.now (created value.now)) }
{
    match value {
        InstructionValue::FunctionExpression { lowered_func }
        | InstructionValue::ObjectMethod { lowered_func } => push_places(
            places,
            context(env, lowered_func.func),
        ),
        _ => Ok(()),
    }
}

fn push_instruction(
    places: &mut PlaceList,
    env: &Environment,
    instruction: &Instruction,
) -> Result<(), AllocError>
    ensures { OnOk result (places.new.items ≡ places.old.items ++ instruction_places env.now instruction.now) }
{
    places.push(instruction.lvalue)?;
    push_created(places, env, &instruction.value)?;
    push_value(places, &instruction.value)
}

fn push_instructions(
    places: &mut PlaceList,
    env: &Environment,
    instructions: &[Instruction],
) -> Result<(), AllocError>
    ensures { OnOk result (places.new.items ≡ places.old.items ++ flat_map (instruction_places env.now) instructions.now) }
{
    for instruction in instructions {
        push_instruction(places, env, instruction)?;
    }
    Ok(())
}

fn push_incoming(places: &mut PlaceList, phi: &Phi) -> Result<(), AllocError>
    ensures { OnOk result (places.new.items ≡ places.old.items ++ map (λ (e : BlockId × Place). e.1) phi.now.operands) }
{
    for (_, place) in phi.operands.iter() {
        places.push(*place)?;
    }
    Ok(())
}

fn push_phi(places: &mut PlaceList, phi: &Phi) -> Result<(), AllocError>
    ensures { OnOk result (places.new.items ≡ places.old.items ++ phi_places phi.now) }
{
    places.push(phi.place)?;
    push_incoming(places, phi)
}

fn push_phis(places: &mut PlaceList, phis: &[Phi]) -> Result<(), AllocError>
    ensures { OnOk result (places.new.items ≡ places.old.items ++ flat_map phi_places phis.now) }
{
    for phi in phis {
        push_phi(places, phi)?;
    }
    Ok(())
}

fn push_block(alloc: Global, places: &mut PlaceList, block: &BasicBlock) -> Result<(), AllocError>
    ensures { OnOk result (places.new.items ≡ places.old.items ++ block_places block.now) }
{
    push_phis(places, block.phis.as_slice())?;
    let read = each_terminal_operand(alloc, &block.terminal)?;
    push_places(places, read.as_slice())
}

fn push_blocks(alloc: Global, places: &mut PlaceList, func: &HirFunction) -> Result<(), AllocError>
    ensures { OnOk result (places.new.items ≡ places.old.items ++ flat_map (λ (e : BlockId × BasicBlock). block_places e.1) func.now.body.blocks) }
{
    for (_, block) in func.body.blocks.iter() {
        push_block(alloc, places, block)?;
    }
    Ok(())
}

fn param_place(param: &ParamPattern) -> Place
    ensures { result ≡ param_place param.now }
{
    match param {
        ParamPattern::Place(place) => *place,
        ParamPattern::Spread(s) => s.place,
    }
}

fn push_params(places: &mut PlaceList, params: &[ParamPattern]) -> Result<(), AllocError>
    ensures { OnOk result (places.new.items ≡ places.old.items ++ map param_place params.now) }
{
    for param in params {
        places.push(param_place(param))?;
    }
    Ok(())
}

/// All places that stand in the function, in the order of its parts; the context places of a function that it
/// creates stand where it is created. The one error is out of memory.
pub fn each_place(
    alloc: Global,
    env: &Environment,
    func: &HirFunction,
) -> Result<PlaceList, AllocError>
    ensures { IfOk result (λ l. l.items ≡ places_in env.now func.now) }
{
    let mut places = SmallVec::new(alloc);
    push_params(&mut places, func.params.as_slice())?;
    push_places(&mut places, func.context.as_slice())?;
    places.push(func.returns)?;
    push_instructions(&mut places, env, func.instructions.as_slice())?;
    push_blocks(alloc, &mut places, func)?;
    Ok(places)
}
