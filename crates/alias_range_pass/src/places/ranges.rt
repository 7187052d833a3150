//! Parts of mutable ranges that are unset so far, by what instructions and phis do with the identifiers.
ghost use Rattle.std.specs.Prelude.{◌≡◌, OnOk, OnErr};
ghost use Rattle.alias_graph.specs.recorded.Fitting.{OrderHasNext};
ghost use Rattle.alias_range_pass.specs.places.Ranges.{begun, started, stored, merged, ranged, all_ranged, assigned, value_stored, phis_merged};

use alias_base::{EvaluationOrder, IdentifierId, List};
use alias_hir::env::{Identifier, MutableRange};
use alias_hir::hir::{Instruction, Phi};
use alias_hir::place::Place;
use alias_hir::value::InstructionValue;
use alias_visit::lvalues::each_instruction_value_lvalue;
use std::alloc::{AllocError, Global};

fn begin(range: &mut MutableRange, order: EvaluationOrder)
    requires { OrderHasNext order }
    ensures { range.new ≡ begun order range.old }
{
    if range.start.0 == 0 {
        range.start = order;
    }
    if range.end.0 == 0 {
        range.end = EvaluationOrder(order.0 + 1);
    }
}

fn begin_at(identifiers: &mut List<Identifier>, id: IdentifierId, order: EvaluationOrder)
    requires { OrderHasNext order }
    ensures { identifiers.new ≡ ranged (begun order) id identifiers.old }
{
    if let Some(identifier) = identifiers.get_mut(id.0 as usize) {
        begin(&mut identifier.mutable_range, order);
    }
}

fn begin_all(identifiers: &mut List<Identifier>, places: &[Place], order: EvaluationOrder)
    requires { OrderHasNext order }
    ensures { identifiers.new ≡ all_ranged (begun order) places.now identifiers.old }
{
    for place in places {
        begin_at(identifiers, place.identifier, order);
    }
}

/// Begins the ranges of the places that an instruction assigns.
pub(crate) fn begin_assigned(
    alloc: Global,
    instruction: &Instruction,
    identifiers: &mut List<Identifier>,
) -> Result<(), AllocError>
    requires { OrderHasNext instruction.now.id }
    ensures ok { OnOk result (identifiers.new ≡ assigned instruction.now identifiers.old) }
    ensures err { OnErr result (identifiers.new ≡ identifiers.old) }
{
    let lvalues = each_instruction_value_lvalue(alloc, &instruction.value)?;
    begin_at(identifiers, instruction.lvalue.identifier, instruction.id);
    begin_all(identifiers, lvalues.as_slice(), instruction.id);
    Ok(())
}

fn start(range: &mut MutableRange, order: EvaluationOrder)
    ensures { range.new ≡ started order range.old }
{
    if order.0 < range.end.0 && range.start.0 == 0 {
        range.start = order;
    }
}

fn start_at(identifiers: &mut List<Identifier>, id: IdentifierId, order: EvaluationOrder)
    ensures { identifiers.new ≡ ranged (started order) id identifiers.old }
{
    if let Some(identifier) = identifiers.get_mut(id.0 as usize) {
        start(&mut identifier.mutable_range, order);
    }
}

/// Starts the ranges of operands of an instruction of this order, where they end after it.
pub(crate) fn start_all(
    identifiers: &mut List<Identifier>,
    places: &[Place],
    order: EvaluationOrder,
)
    ensures { identifiers.new ≡ all_ranged (started order) places.now identifiers.old }
{
    for place in places {
        start_at(identifiers, place.identifier, order);
    }
}

fn store(range: &mut MutableRange, order: EvaluationOrder)
    requires { OrderHasNext order }
    ensures { range.new ≡ stored order range.old }
{
    if range.end.0 <= order.0 {
        range.end = EvaluationOrder(order.0 + 1);
    }
}

fn store_at(identifiers: &mut List<Identifier>, id: IdentifierId, order: EvaluationOrder)
    requires { OrderHasNext order }
    ensures { identifiers.new ≡ ranged (stored order) id identifiers.old }
{
    if let Some(identifier) = identifiers.get_mut(id.0 as usize) {
        store(&mut identifier.mutable_range, order);
    }
}

/// A value that is stored into a context variable lasts past the instruction.
pub(crate) fn store_value(
    identifiers: &mut List<Identifier>,
    value: &InstructionValue,
    order: EvaluationOrder,
)
    requires { OrderHasNext order }
    ensures { identifiers.new ≡ value_stored order value.now identifiers.old }
{
    if let InstructionValue::StoreContext { value, .. } = value {
        store_at(identifiers, value.identifier, order);
    }
}

fn merge(range: &mut MutableRange, first: EvaluationOrder)
    ensures { range.new ≡ merged first range.old }
{
    if first.0 < range.end.0 && range.start.0 == 0 {
        range.start = EvaluationOrder(first.0.saturating_sub(1));
    }
}

fn merge_at(identifiers: &mut List<Identifier>, id: IdentifierId, first: EvaluationOrder)
    ensures { identifiers.new ≡ ranged (merged first) id identifiers.old }
{
    if let Some(identifier) = identifiers.get_mut(id.0 as usize) {
        merge(&mut identifier.mutable_range, first);
    }
}

/// Starts the ranges of phis' places, where they end after the first order of the block.
pub(crate) fn merge_phis(identifiers: &mut List<Identifier>, phis: &[Phi], first: EvaluationOrder)
    ensures { identifiers.new ≡ phis_merged first phis.now identifiers.old }
{
    for phi in phis {
        merge_at(identifiers, phi.place.identifier, first);
    }
}
