//! Reads calls, and the instructions that create a function.
ghost use Rattle.std.specs.Prelude.{◌≡◌, Result};
ghost use Rattle.alias_json.specs.Tree.{view};
ghost use Rattle.alias_base.specs.Answer.{Gives};
ghost use Rattle.alias_json.specs.Pointer.{pointer};
ghost use Rattle.alias_json.specs.Fault.{is_memory};
ghost use Rattle.alias_read.specs.Calls.{call_with, call_at, method_call_at, function_with, function_value_at};

use crate::json::{list_of, required};
use crate::value_kinds::{CallKind, FunctionKind};
use alias_base::{FunctionId, List};
use alias_hir::place::{Place, PlaceOrSpread};
use alias_hir::value::{InstructionValue, LoweredFunction};
use alias_json::{Path, Tree, ValueFault, known_keys};
use std::alloc::Global;

/// The call of a kind.
pub fn call_with(kind: CallKind, callee: Place, args: List<PlaceOrSpread>) -> InstructionValue
    ensures { result ≡ call_with kind callee args }
{
    match kind {
        CallKind::NewExpression => InstructionValue::NewExpression { callee, args },
        CallKind::CallExpression => InstructionValue::CallExpression { callee, args },
    }
}

/// Reads a call of a value, with `new` or without.
pub fn call(
    alloc: Global,
    kind: CallKind,
    path: &Path,
    value: &Tree,
) -> Result<InstructionValue, ValueFault>
    ensures { Gives is_memory (call_at kind (pointer path.now) (view value.now)) result }
{
    let callee = required(alloc, path, "callee", value)?;
    let args = list_of(alloc, path, "args", value)?;
    known_keys(alloc, path, &["kind", "callee", "args"], value)?;
    Ok(call_with(kind, callee, args))
}

/// Reads a call of a method.
pub fn method_call(alloc: Global, path: &Path, value: &Tree) -> Result<InstructionValue, ValueFault>
    ensures { Gives is_memory (method_call_at (pointer path.now) (view value.now)) result }
{
    let receiver = required(alloc, path, "receiver", value)?;
    let property = required(alloc, path, "property", value)?;
    let args = list_of(alloc, path, "args", value)?;
    known_keys(
        alloc,
        path,
        &["kind", "receiver", "property", "args"],
        value,
    )?;
    Ok(InstructionValue::MethodCall {
        receiver,
        property,
        args,
    })
}

/// The instruction of a kind that creates a function.
pub fn function_with(kind: FunctionKind, lowered_func: LoweredFunction) -> InstructionValue
    ensures { result ≡ function_with kind lowered_func }
{
    match kind {
        FunctionKind::FunctionExpression => InstructionValue::FunctionExpression { lowered_func },
        FunctionKind::ObjectMethod => InstructionValue::ObjectMethod { lowered_func },
    }
}

/// Reads an instruction that creates a function.
pub fn function_value(
    alloc: Global,
    kind: FunctionKind,
    path: &Path,
    value: &Tree,
) -> Result<InstructionValue, ValueFault>
    ensures { Gives is_memory (function_value_at kind (pointer path.now) (view value.now)) result }
{
    let number = required(alloc, path, "function", value)?;
    known_keys(alloc, path, &["kind", "function"], value)?;
    let func = FunctionId(number);
    Ok(function_with(kind, LoweredFunction { func }))
}
