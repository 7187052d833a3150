//! What isn't sure where a block is entered, and after its instructions.
ghost use Rattle.std.specs.Prelude.{◌≡◌, [], ◌∷◌, map, ◌++◌, IfOk, OnOk};
ghost use Rattle.std.specs.List.{range_with_len};
ghost use Rattle.alias_hir.specs.Parts.{param_place};
ghost use Rattle.alias_plainness.specs.Making.{number};
ghost use Rattle.alias_plainness.specs.Sureness.{first_two, defined_params};
ghost use Rattle.alias_plain.specs.unsure.Sets.{union, has};
ghost use Rattle.alias_flow.specs.Machine.{joined};
ghost use Rattle.alias_plain.specs.Held.{held};
ghost use Rattle.alias_plain.specs.laws.UnsureFlow.{with_members, without_members, sure_numbers, unsure_at_first, source_of, operand_is_unsure, with_phi, with_phis, entered_from, entered, rows_or_none, list_in, adds_in, through_at, through, through_all, out_set};

use crate::making::{all_made, push_places};
use crate::scope::Scope;
use crate::unsure::{UnsureSet, UnsureWays};
use alias_base::{BlockId, BlockMap, InstructionId};
use alias_hir::effect::AliasingEffects;
use alias_hir::hir::{BasicBlock, FunctionType, HirFunction, Instruction, ParamPattern, Phi};
use alias_lattice::{Lattice, LatticeMap};
use alias_signature::{Known, signature_of};
use std::alloc::{AllocError, Global};

// ---- sets

fn take_out(set: &mut UnsureSet, numbers: &[u32]) -> Result<(), AllocError>
    ensures { OnOk result (set.new ≡ without_members numbers.now set.old) }
{
    for number in numbers {
        set.remove(*number)?;
    }
    Ok(())
}

fn all_below(alloc: Global, count: u32) -> Result<UnsureSet, AllocError>
    ensures { IfOk result (λ set. set ≡ with_members (range_with_len 0 count) []) }
{
    let mut set = UnsureSet::empty(alloc);
    for number in 0..count {
        set.insert(number)?;
    }
    Ok(set)
}

// ---- where a path begins

fn push_param(numbers: &mut Vec<u32>, param: &ParamPattern) -> Result<(), AllocError>
    ensures { OnOk result (numbers.new.items ≡ numbers.old.items ++ number (param_place param.now) ∷ []) }
{
    match param {
        ParamPattern::Place(place) => numbers.push(place.identifier.0)?,
        ParamPattern::Spread(spread) => numbers.push(spread.place.identifier.0)?,
    }
    Ok(())
}

fn push_params(numbers: &mut Vec<u32>, params: &[ParamPattern]) -> Result<(), AllocError>
    ensures { OnOk result (numbers.new.items ≡ numbers.old.items ++ map number (map param_place params.now)) }
{
    for param in params {
        push_param(numbers, param)?;
    }
    Ok(())
}

fn push_first_two(numbers: &mut Vec<u32>, params: &[ParamPattern]) -> Result<(), AllocError>
    ensures { OnOk result (numbers.new.items ≡ numbers.old.items ++ map number (first_two params.now)) }
{
    match params {
        [] => {}
        [first] => push_param(numbers, first)?,
        [first, second, ..] => {
            push_param(numbers, first)?;
            push_param(numbers, second)?;
        }
    }
    Ok(())
}

fn push_defined(
    numbers: &mut Vec<u32>,
    fn_type: FunctionType,
    params: &[ParamPattern],
) -> Result<(), AllocError>
    ensures { OnOk result (numbers.new.items ≡ numbers.old.items ++ map number (defined_params fn_type params.now)) }
{
    match fn_type {
        FunctionType::Component => push_first_two(numbers, params),
        _ => push_params(numbers, params),
    }
}

fn sure_numbers(alloc: Global, func: &HirFunction) -> Result<Vec<u32>, AllocError>
    ensures { IfOk result (λ v. v.items ≡ sure_numbers func.now) }
{
    let mut numbers = Vec::new(alloc);
    push_places(&mut numbers, func.context.as_slice())?;
    push_defined(&mut numbers, func.fn_type, func.params.as_slice())?;
    Ok(numbers)
}

/// What isn't sure where a path begins. A table of more than 4,294,967,295 identifiers is answered as out of memory.
pub(crate) fn unsure_at_first(alloc: Global, scope: &Scope<'_>) -> Result<UnsureSet, AllocError>
    ensures { IfOk result (λ set. set ≡ unsure_at_first (held scope.now)) }
{
    let count = scope.env.identifiers.len();
    if count > u32::MAX as usize {
        return Err(AllocError);
    }
    let mut set = all_below(alloc, count as u32)?;
    let numbers = sure_numbers(alloc, scope.func)?;
    take_out(&mut set, &numbers)?;
    Ok(set)
}

// ---- where a block is entered

/// The block that a key stands for.
fn source_of(blocks: &BlockMap<BasicBlock>, key: u32) -> Option<BlockId>
    ensures { result ≡ source_of blocks.now key }
{
    if key == 0 {
        return None;
    }
    match blocks.get_index(key as usize - 1) {
        Some((name, _)) => Some(*name),
        None => None,
    }
}

fn operand_is_unsure(from: Option<BlockId>, phi: &Phi, set: &UnsureSet) -> bool
    ensures { result ≡ operand_is_unsure from phi.now set.now }
{
    match from {
        Some(block) => match phi.operands.get(block) {
            Some(place) => set.has(place.identifier.0),
            None => true,
        },
        None => true,
    }
}

fn apply_phi(from: Option<BlockId>, phi: &Phi, set: &mut UnsureSet) -> Result<(), AllocError>
    ensures { OnOk result (set.new ≡ with_phi from set.old phi.now) }
{
    if operand_is_unsure(from, phi, set) {
        set.insert(phi.place.identifier.0)
    } else {
        set.remove(phi.place.identifier.0)
    }
}

fn apply_phis(from: Option<BlockId>, phis: &[Phi], set: &mut UnsureSet) -> Result<(), AllocError>
    ensures { OnOk result (set.new ≡ with_phis from phis.now set.old) }
{
    for phi in phis {
        apply_phi(from, phi, set)?;
    }
    Ok(())
}

fn taken_in(so_far: Option<UnsureSet>, more: UnsureSet) -> Result<UnsureSet, AllocError>
    ensures { IfOk result (λ set. set ≡ joined union so_far more) }
{
    match so_far {
        Some(there) => {
            let mut all = there;
            all.join_from(&more)?;
            Ok(all)
        }
        None => Ok(more),
    }
}

/// What isn't sure on some way into the block.
pub(crate) fn entered(
    alloc: Global,
    blocks: &BlockMap<BasicBlock>,
    phis: &[Phi],
    state: &LatticeMap<u32, UnsureSet>,
) -> Result<UnsureSet, AllocError>
    ensures { IfOk result (λ set. set ≡ entered blocks.now phis.now state.now) }
{
    // Does nothing: it tells the prover that this is a proper value.
    state.recall_proper();
    let mut so_far = None;
    let mut after = None;
    'ways: while let Some(entry) = state.entry_after(after) {
        let mut set = entry.1.try_clone()?;
        apply_phis(source_of(blocks, entry.0), phis, &mut set)?;
        so_far = Some(taken_in(so_far, set)?);
        after = Some(entry.0);
    }
    match so_far {
        Some(set) => Ok(set),
        None => Ok(UnsureSet::empty(alloc)),
    }
}

// ---- instructions

/// The effects that the instruction has whatever the state is.
pub(crate) fn list_in(
    alloc: Global,
    scope: &Scope<'_>,
    instruction: &Instruction,
) -> Result<AliasingEffects, AllocError>
    ensures { IfOk result (λ list. list ≡ list_in (held scope.now) instruction.now) }
{
    let known = Known {
        env: scope.env,
        facts: scope.facts,
        error: None,
    };
    signature_of(alloc, &known, instruction)
}

fn go_through(
    alloc: Global,
    scope: &Scope<'_>,
    instruction: &Instruction,
    set: &mut UnsureSet,
) -> Result<(), AllocError>
    ensures { OnOk result (set.new ≡ without_members (adds_in (held scope.now) instruction.now) set.old) }
{
    let list = list_in(alloc, scope, instruction)?;
    let made = all_made(alloc, list.as_slice())?;
    set.remove(instruction.lvalue.identifier.0)?;
    take_out(set, &made)
}

/// Takes out what the instruction of the number makes sure.
pub(crate) fn through(
    alloc: Global,
    scope: &Scope<'_>,
    id: InstructionId,
    set: &mut UnsureSet,
) -> Result<(), AllocError>
    ensures { OnOk result (set.new ≡ through (held scope.now) set.old id) }
{
    match scope.func.instructions.get(id.0 as usize) {
        Some(instruction) => go_through(alloc, scope, instruction, set),
        None => Ok(()),
    }
}

fn through_all(
    alloc: Global,
    scope: &Scope<'_>,
    ids: &[InstructionId],
    set: &mut UnsureSet,
) -> Result<(), AllocError>
    ensures { OnOk result (set.new ≡ through_all (held scope.now) ids.now set.old) }
{
    for id in ids {
        through(alloc, scope, *id, set)?;
    }
    Ok(())
}

/// What isn't sure after the block.
pub(crate) fn out_set(
    alloc: Global,
    scope: &Scope<'_>,
    block: &BasicBlock,
    state: &UnsureWays,
) -> Result<UnsureSet, AllocError>
    ensures { IfOk result (λ set. set ≡ out_set (held scope.now) block.now state.now) }
{
    let mut set = entered(
        alloc,
        &scope.func.body.blocks,
        block.phis.as_slice(),
        state.sets(),
    )?;
    through_all(alloc, scope, block.instructions.as_slice(), &mut set)?;
    Ok(set)
}
