//! Takes calls, and the instructions that create a function.
ghost use Rattle.std.specs.Prelude.{◌<◌, IfOk, option_map};
ghost use Rattle.alias_straight.specs.Kinds.{TakesKind};
ghost use Rattle.alias_straight.specs.Members.{from_key};
ghost use Rattle.alias_read.specs.declared.value_kinds.InstructionValueKind.TheVariants.{Call, Function, MethodCall};

use crate::fault::TakeFault;
use crate::members::{close_object, take_list, take_member};
use alias_base::FunctionId;
use alias_hir::value::{InstructionValue, LoweredFunction};
use alias_read::calls::{call_with, function_with};
use alias_read::value_kinds::{CallKind, FunctionKind};
use json::Reader;
use std::alloc::Global;

/// Takes the callee and the arguments of a call.
pub fn take_call<'a>(
    alloc: Global,
    kind: CallKind,
    reader: &mut Reader<'a>,
    depth: usize,
    mut next: Option<&'a str>,
) -> Result<InstructionValue, TakeFault>
    requires { 0 < depth }
    ensures { IfOk result (λ v. TakesKind (Call kind) depth (from_key (option_map (λ k. k.now) next.entry) reader.old) v reader.new) }
{
    let callee = take_member(alloc, reader, depth - 1, &mut next, "callee")?;
    let args = take_list(alloc, reader, depth - 1, &mut next, "args")?;
    close_object(next)?;
    Ok(call_with(kind, callee, args))
}

/// Takes the receiver, the method and the arguments of a call.
pub fn take_method_call<'a>(
    alloc: Global,
    reader: &mut Reader<'a>,
    depth: usize,
    mut next: Option<&'a str>,
) -> Result<InstructionValue, TakeFault>
    requires { 0 < depth }
    ensures { IfOk result (λ v. TakesKind MethodCall depth (from_key (option_map (λ k. k.now) next.entry) reader.old) v reader.new) }
{
    let receiver = take_member(alloc, reader, depth - 1, &mut next, "receiver")?;
    let property = take_member(alloc, reader, depth - 1, &mut next, "property")?;
    let args = take_list(alloc, reader, depth - 1, &mut next, "args")?;
    close_object(next)?;
    Ok(InstructionValue::MethodCall {
        receiver,
        property,
        args,
    })
}

/// Takes the function that an instruction creates.
pub fn take_function<'a>(
    alloc: Global,
    kind: FunctionKind,
    reader: &mut Reader<'a>,
    depth: usize,
    mut next: Option<&'a str>,
) -> Result<InstructionValue, TakeFault>
    requires { 0 < depth }
    ensures { IfOk result (λ v. TakesKind (Function kind) depth (from_key (option_map (λ k. k.now) next.entry) reader.old) v reader.new) }
{
    let func = take_member(alloc, reader, depth - 1, &mut next, "function")?;
    close_object(next)?;
    Ok(function_with(
        kind,
        LoweredFunction {
            func: FunctionId(func),
        },
    ))
}
