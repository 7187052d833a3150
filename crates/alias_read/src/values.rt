//! Reads what an instruction computes.
ghost use Rattle.std.specs.Prelude.{◌≡◌, Result};
ghost use Rattle.alias_json.specs.Tree.{view};
ghost use Rattle.alias_base.specs.Answer.{Gives};
ghost use Rattle.alias_json.specs.Pointer.{pointer};
ghost use Rattle.alias_json.specs.Fault.{is_memory};
ghost use Rattle.alias_read.specs.Values.{value_of_kind, instruction_value_at};

use crate::calls::{call, function_value, method_call};
use crate::json::{FromJson, required};
use crate::objects::{array_expression, jsx_expression, object_expression};
use crate::operations::{one_place, place_list, plain, two_places};
use crate::stores::{computed_store, declare, destructure, property_store, store, store_global};
use crate::value_kinds::InstructionValueKind;
use alias_hir::value::InstructionValue;
use alias_json::{Path, Tree, ValueFault, object};
use std::alloc::Global;

impl FromJson for InstructionValue {
    ghost reads = { instruction_value_at };

    fn from_json(alloc: Global, path: &Path, value: &Tree) -> Result<InstructionValue, ValueFault> {
        object(alloc, path, value)?;
        let kind = required(alloc, path, "kind", value)?;
        value_of_kind(alloc, kind, path, value)
    }
}

fn value_of_kind(
    alloc: Global,
    kind: InstructionValueKind,
    path: &Path,
    value: &Tree,
) -> Result<InstructionValue, ValueFault>
    ensures { Gives is_memory (value_of_kind kind (pointer path.now) (view value.now)) result }
{
    match kind {
        InstructionValueKind::Plain(kind) => plain(alloc, kind, path, value),
        InstructionValueKind::OnePlace(kind) => one_place(alloc, kind, path, value),
        InstructionValueKind::TwoPlaces(kind) => two_places(alloc, kind, path, value),
        InstructionValueKind::PlaceList(kind) => place_list(alloc, kind, path, value),
        InstructionValueKind::Function(kind) => function_value(alloc, kind, path, value),
        InstructionValueKind::Declare(kind) => declare(alloc, kind, path, value),
        InstructionValueKind::Store(kind) => store(alloc, kind, path, value),
        InstructionValueKind::Call(kind) => call(alloc, kind, path, value),
        InstructionValueKind::ArrayExpression => array_expression(alloc, path, value),
        InstructionValueKind::ObjectExpression => object_expression(alloc, path, value),
        InstructionValueKind::MethodCall => method_call(alloc, path, value),
        InstructionValueKind::PropertyStore => property_store(alloc, path, value),
        InstructionValueKind::ComputedStore => computed_store(alloc, path, value),
        InstructionValueKind::JsxExpression => jsx_expression(alloc, path, value),
        InstructionValueKind::Destructure => destructure(alloc, path, value),
        InstructionValueKind::StoreGlobal => store_global(alloc, path, value),
    }
}
