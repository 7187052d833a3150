//! Takes array and object expressions, JSX, and stores by a name.
ghost use Rattle.std.specs.Prelude.{◌<◌, IfOk, option_map};
ghost use Rattle.alias_straight.specs.Kinds.{TakesKind};
ghost use Rattle.alias_straight.specs.Members.{from_key};
ghost use Rattle.alias_read.specs.declared.value_kinds.InstructionValueKind.TheVariants.{ArrayExpression, ObjectExpression, JsxExpression, PropertyStore, StoreGlobal};

use crate::fault::TakeFault;
use crate::members::{close_object, take_list, take_member};
use alias_hir::value::InstructionValue;
use json::Reader;
use std::alloc::Global;

/// Takes the elements of an array expression.
pub fn take_array_expression<'a>(
    alloc: Global,
    reader: &mut Reader<'a>,
    depth: usize,
    mut next: Option<&'a str>,
) -> Result<InstructionValue, TakeFault>
    requires { 0 < depth }
    ensures { IfOk result (λ v. TakesKind ArrayExpression depth (from_key (option_map (λ k. k.now) next.entry) reader.old) v reader.new) }
{
    let elements = take_list(alloc, reader, depth - 1, &mut next, "elements")?;
    close_object(next)?;
    Ok(InstructionValue::ArrayExpression { elements })
}

/// Takes the parts of a JSX expression.
pub fn take_jsx_expression<'a>(
    alloc: Global,
    reader: &mut Reader<'a>,
    depth: usize,
    mut next: Option<&'a str>,
) -> Result<InstructionValue, TakeFault>
    requires { 0 < depth }
    ensures { IfOk result (λ v. TakesKind JsxExpression depth (from_key (option_map (λ k. k.now) next.entry) reader.old) v reader.new) }
{
    let tag = take_member(alloc, reader, depth - 1, &mut next, "tag")?;
    let props = take_list(alloc, reader, depth - 1, &mut next, "props")?;
    let children = take_list(alloc, reader, depth - 1, &mut next, "children")?;
    close_object(next)?;
    Ok(InstructionValue::JsxExpression {
        tag,
        props,
        children,
    })
}

/// Takes an object, the name of a property, and what is stored there.
pub fn take_property_store<'a>(
    alloc: Global,
    reader: &mut Reader<'a>,
    depth: usize,
    mut next: Option<&'a str>,
) -> Result<InstructionValue, TakeFault>
    requires { 0 < depth }
    ensures { IfOk result (λ v. TakesKind PropertyStore depth (from_key (option_map (λ k. k.now) next.entry) reader.old) v reader.new) }
{
    let object = take_member(alloc, reader, depth - 1, &mut next, "object")?;
    let property = take_member(alloc, reader, depth - 1, &mut next, "property")?;
    let value = take_member(alloc, reader, depth - 1, &mut next, "value")?;
    close_object(next)?;
    Ok(InstructionValue::PropertyStore {
        object,
        property,
        value,
    })
}

/// Takes the name of a global, and what is stored there.
pub fn take_store_global<'a>(
    alloc: Global,
    reader: &mut Reader<'a>,
    depth: usize,
    mut next: Option<&'a str>,
) -> Result<InstructionValue, TakeFault>
    requires { 0 < depth }
    ensures { IfOk result (λ v. TakesKind StoreGlobal depth (from_key (option_map (λ k. k.now) next.entry) reader.old) v reader.new) }
{
    let name = take_member(alloc, reader, depth - 1, &mut next, "name")?;
    let value = take_member(alloc, reader, depth - 1, &mut next, "value")?;
    close_object(next)?;
    Ok(InstructionValue::StoreGlobal { name, value })
}

/// Takes the properties of an object expression.
pub fn take_object_expression<'a>(
    alloc: Global,
    reader: &mut Reader<'a>,
    depth: usize,
    mut next: Option<&'a str>,
) -> Result<InstructionValue, TakeFault>
    requires { 0 < depth }
    ensures { IfOk result (λ v. TakesKind ObjectExpression depth (from_key (option_map (λ k. k.now) next.entry) reader.old) v reader.new) }
{
    let properties = take_list(alloc, reader, depth - 1, &mut next, "properties")?;
    close_object(next)?;
    Ok(InstructionValue::ObjectExpression { properties })
}
