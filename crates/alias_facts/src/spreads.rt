//! The spreads of patterns that nothing writes.
ghost use Rattle.std.specs.Prelude.{◌≡◌, [], option_map, IfOk, OnOk};
ghost use Rattle.std.specs.List.{fold};
ghost use Rattle.alias_visit.specs.Operands.{operands_of};
ghost use Rattle.alias_facts.specs.Candidates.{after_use};
ghost use Rattle.alias_facts.specs.Spreads.{is_spread, is_declaring, after_pattern, after_destructure, after_load, after_store, is_hook_at, after_hook, after_call, after_value, after_instruction, after_listed, after_phi, after_block, find_non_mutated_destructure_spreads};

use crate::candidates::{
    Candidates, first_candidates, is_frozen, note_frozen, note_properties, note_spread, note_use,
    note_uses, selves, spread_of,
};
use crate::numbers::NumberSet;
use alias_base::{IdentifierId, InstructionId};
use alias_hir::env::Environment;
use alias_hir::hir::{BasicBlock, HirFunction, Instruction, Phi};
use alias_hir::place::Place;
use alias_hir::types::{is_ref_at, type_of};
use alias_hir::value::{InstructionKind, InstructionValue, LValuePattern, Pattern};
use alias_visit::operands::each_instruction_value_operand;
use std::alloc::{AllocError, Global};
use std::marker::Model;

/// The spreads of patterns that nothing writes, in ascending order.
#[derive(Drop)]
pub struct Spreads {
    identifiers: NumberSet,
}

impl Model for Spreads {
    ghost use Rattle.std.specs.Prelude.{ℕ, List};

    ghost Value = { List ℕ };

    ghost view = { λ s. s.identifiers };
}

impl Spreads {
    /// No spreads. Takes no memory.
    pub fn new(alloc: Global) -> Self
        ensures { result ≡ [] }
    {
        Spreads {
            identifiers: NumberSet::new(alloc),
        }
    }

    /// Whether the place is one of the spreads.
    pub fn contains(&self, place: &Place) -> bool
        ensures { result ≡ is_spread self.now place.now }
    {
        self.identifiers.contains(place.identifier.0)
    }
}

fn is_declaring(kind: InstructionKind) -> bool
    ensures { result ≡ is_declaring kind }
{
    matches!(kind, InstructionKind::Const | InstructionKind::Let)
}

fn visit_pattern(candidates: &mut Candidates, pattern: &Pattern) -> Result<(), AllocError>
    ensures { OnOk result (candidates.new ≡ after_pattern candidates.old pattern.now) }
{
    match pattern {
        Pattern::Object(p) => note_properties(candidates, p.properties.as_slice()),
        Pattern::Array(_) => Ok(()),
    }
}

fn visit_destructure(
    candidates: &mut Candidates,
    lvalue: &LValuePattern,
    value: &Place,
) -> Result<(), AllocError>
    ensures { OnOk result (candidates.new ≡ after_destructure candidates.old lvalue.now value.now) }
{
    if is_frozen(candidates, value.identifier) && is_declaring(lvalue.kind) {
        return visit_pattern(candidates, &lvalue.pattern);
    }
    Ok(())
}

fn visit_load(
    candidates: &mut Candidates,
    target: IdentifierId,
    spread: Option<u32>,
) -> Result<(), AllocError>
    ensures { OnOk result (candidates.new ≡ after_load candidates.old target spread) }
{
    match spread {
        Some(spread) => note_spread(candidates, target, spread),
        None => Ok(()),
    }
}

fn visit_store(
    candidates: &mut Candidates,
    target: IdentifierId,
    variable: IdentifierId,
    spread: Option<u32>,
) -> Result<(), AllocError>
    ensures { OnOk result (candidates.new ≡ after_store candidates.old target variable spread) }
{
    match spread {
        Some(spread) => {
            note_spread(candidates, target, spread)?;
            note_spread(candidates, variable, spread)
        }
        None => Ok(()),
    }
}

/// Whether the identifier is a hook.
fn is_hook_at(env: &Environment, identifier: IdentifierId) -> bool
    ensures { result ≡ is_hook_at env.now identifier }
{
    match type_of(env, identifier) {
        Some(ty) => env.get_hook_kind_for_type(ty).is_some(),
        None => false,
    }
}

fn visit_hook(
    candidates: &mut Candidates,
    env: &Environment,
    target: IdentifierId,
) -> Result<(), AllocError>
    ensures { OnOk result (candidates.new ≡ after_hook env.now candidates.old target) }
{
    if is_ref_at(env, target) {
        return Ok(());
    }
    note_frozen(candidates, target)
}

fn visit_uses(
    alloc: Global,
    candidates: &mut Candidates,
    env: &Environment,
    value: &InstructionValue,
) -> Result<(), AllocError>
    ensures { OnOk result (candidates.new ≡ fold after_use candidates.old (operands_of env.now value.now)) }
{
    let operands = each_instruction_value_operand(alloc, value, env)?;
    note_uses(candidates, operands.as_slice());
    Ok(())
}

/// A call of `callee`, which is the value of an instruction.
fn visit_call(
    alloc: Global,
    candidates: &mut Candidates,
    env: &Environment,
    target: IdentifierId,
    callee: &Place,
    call: &InstructionValue,
) -> Result<(), AllocError>
    ensures { OnOk result (candidates.new ≡ after_call env.now candidates.old target callee.now (operands_of env.now call.now)) }
{
    if is_hook_at(env, callee.identifier) {
        return visit_hook(candidates, env, target);
    }
    visit_uses(alloc, candidates, env, call)
}

fn visit_value(
    alloc: Global,
    candidates: &mut Candidates,
    env: &Environment,
    target: IdentifierId,
    value: &InstructionValue,
) -> Result<(), AllocError>
    ensures { OnOk result (candidates.new ≡ after_value env.now candidates.old target value.now) }
{
    match value {
        InstructionValue::Destructure { lvalue, value } => visit_destructure(
            candidates, lvalue, value,
        ),
        InstructionValue::LoadLocal { place } => {
            let spread = spread_of(candidates, place.identifier);
            visit_load(candidates, target, spread)
        }
        InstructionValue::StoreLocal { lvalue, value } => {
            let spread = spread_of(candidates, value.identifier);
            visit_store(candidates, target, lvalue.place.identifier, spread)
        }
        InstructionValue::JsxExpression { .. }
        | InstructionValue::JsxFragment { .. }
        | InstructionValue::PropertyLoad { .. } => Ok(()),
        InstructionValue::CallExpression { callee, .. } => {
            visit_call(alloc, candidates, env, target, callee, value)
        }
        InstructionValue::MethodCall { property, .. } => {
            visit_call(alloc, candidates, env, target, property, value)
        }
        _ => visit_uses(alloc, candidates, env, value),
    }
}

fn visit_instruction(
    alloc: Global,
    candidates: &mut Candidates,
    env: &Environment,
    instruction: Option<&Instruction>,
) -> Result<(), AllocError>
    ensures { OnOk result (candidates.new ≡ after_instruction env.now candidates.old (option_map (λ i. i.now) instruction.entry)) }
{
    match instruction {
        Some(instruction) => visit_value(
            alloc,
            candidates,
            env,
            instruction.lvalue.identifier,
            &instruction.value,
        ),
        None => Ok(()),
    }
}

fn visit_instructions(
    alloc: Global,
    candidates: &mut Candidates,
    func: &HirFunction,
    env: &Environment,
    listed: &[InstructionId],
) -> Result<(), AllocError>
    ensures { OnOk result (candidates.new ≡ fold (after_listed func.now env.now) candidates.old listed.now) }
{
    for id in listed {
        visit_instruction(alloc, candidates, env, func.instructions.get(id.0 as usize))?;
    }
    Ok(())
}

fn visit_phi(candidates: &mut Candidates, phi: &Phi)
    ensures { candidates.new ≡ after_phi candidates.old phi.now }
{
    for (_, operand) in phi.operands.iter() {
        note_use(candidates, operand);
    }
}

fn visit_phis(candidates: &mut Candidates, phis: &[Phi])
    ensures { candidates.new ≡ fold after_phi candidates.old phis.now }
{
    for phi in phis {
        visit_phi(candidates, phi);
    }
}

fn visit_block(
    alloc: Global,
    candidates: &mut Candidates,
    func: &HirFunction,
    env: &Environment,
    block: &BasicBlock,
) -> Result<(), AllocError>
    ensures { OnOk result (candidates.new ≡ after_block func.now env.now candidates.old block.now) }
{
    visit_phis(candidates, block.phis.as_slice());
    visit_instructions(alloc, candidates, func, env, block.instructions.as_slice())
}

/// The spreads of object patterns that take frozen values apart and that nothing writes, neither by themselves nor by
/// a variable that stands for them. The one error is out of memory.
pub fn find_non_mutated_destructure_spreads(
    alloc: Global,
    func: &HirFunction,
    env: &Environment,
) -> Result<Spreads, AllocError>
    ensures { IfOk result (λ s. s ≡ find_non_mutated_destructure_spreads func.now env.now) }
{
    let mut candidates = first_candidates(alloc, func)?;
    for (_, block) in func.body.blocks.iter() {
        visit_block(alloc, &mut candidates, func, env, block)?;
    }
    Ok(Spreads {
        identifiers: selves(alloc, &candidates)?,
    })
}
