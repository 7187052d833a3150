//! The places that an instruction reads.
ghost use Rattle.std.specs.Prelude.{◌≡◌, ◌∷◌, ◌++◌, IfOk, OnOk};
ghost use Rattle.std.specs.List.{flat_map};
ghost use Rattle.alias_hir.specs.Parts.{arg_places, tag_places, attribute_places};
ghost use Rattle.alias_visit.specs.Operands.{operands_of, context_at};

use crate::parts::{
    PlaceList, push_args, push_attributes, push_elements, push_one, push_places, push_properties,
    push_tag, push_three, push_two,
};
use alias_base::FunctionId;
use alias_hir::env::Environment;
use alias_hir::place::{Place, PlaceOrSpread};
use alias_hir::value::{InstructionValue, JsxAttribute, JsxTag};
use smallvec::SmallVec;
use std::alloc::{AllocError, Global};

/// Appends the places of a call.
pub(crate) fn push_call(
    places: &mut PlaceList,
    callee: Place,
    args: &[PlaceOrSpread],
) -> Result<(), AllocError>
    ensures { OnOk result (places.new.items ≡ places.old.items ++ callee ∷ flat_map arg_places args.now) }
{
    places.push(callee)?;
    push_args(places, args)
}

/// Appends the places of a method's call.
pub(crate) fn push_method(
    places: &mut PlaceList,
    receiver: Place,
    property: Place,
    args: &[PlaceOrSpread],
) -> Result<(), AllocError>
    ensures { OnOk result (places.new.items ≡ places.old.items ++ receiver ∷ property ∷ flat_map arg_places args.now) }
{
    places.push(receiver)?;
    places.push(property)?;
    push_args(places, args)
}

/// Appends the places of an element.
pub(crate) fn push_jsx(
    places: &mut PlaceList,
    tag: &JsxTag,
    props: &[JsxAttribute],
    children: &[Place],
) -> Result<(), AllocError>
    ensures { OnOk result (places.new.items ≡ places.old.items ++ tag_places tag.now ++ flat_map attribute_places props.now ++ children.now) }
{
    push_tag(places, tag)?;
    push_attributes(places, props)?;
    push_places(places, children)
}

/// The context places of a nested function. There are none where its number is past the end of the table.
pub(crate) fn context(env: &Environment, func: FunctionId) -> &[Place]
    ensures { result.now ≡ context_at env.now func }
{
    match env.functions.get(func.0 as usize) {
        Some(function) => function.context.as_slice(),
        None => &[],
    }
}

fn push_operands(
    places: &mut PlaceList,
    value: &InstructionValue,
    env: &Environment,
) -> Result<(), AllocError>
    ensures { OnOk result (places.new.items ≡ places.old.items ++ operands_of env.now value.now) }
{
    match value {
        InstructionValue::ArrayExpression { elements } => push_elements(
            places,
            elements.as_slice(),
        ),
        InstructionValue::ObjectExpression { properties } => push_properties(
            places,
            properties.as_slice(),
        ),
        InstructionValue::Await { value } => push_one(places, *value),
        InstructionValue::NewExpression { callee, args } => push_call(
            places,
            *callee,
            args.as_slice(),
        ),
        InstructionValue::CallExpression { callee, args } => push_call(
            places,
            *callee,
            args.as_slice(),
        ),
        InstructionValue::MethodCall {
            receiver,
            property,
            args,
        } => push_method(places, *receiver, *property, args.as_slice()),
        InstructionValue::PropertyDelete { object } => push_one(places, *object),
        InstructionValue::ComputedDelete { object, property } => push_two(
            places, *object, *property,
        ),
        InstructionValue::PropertyLoad { object } => push_one(places, *object),
        InstructionValue::ComputedLoad { object, property } => push_two(places, *object, *property),
        InstructionValue::PropertyStore { object, value, .. } => push_two(places, *object, *value),
        InstructionValue::ComputedStore {
            object,
            property,
            value,
        } => push_three(places, *object, *property, *value),
        InstructionValue::FunctionExpression { lowered_func } => push_places(
            places,
            context(env, lowered_func.func),
        ),
        InstructionValue::ObjectMethod { lowered_func } => push_places(
            places,
            context(env, lowered_func.func),
        ),
        InstructionValue::GetIterator { collection } => push_one(places, *collection),
        InstructionValue::IteratorNext {
            iterator,
            collection,
        } => push_two(places, *iterator, *collection),
        InstructionValue::NextPropertyOf { value } => push_one(places, *value),
        InstructionValue::JsxExpression {
            tag,
            props,
            children,
        } => push_jsx(places, tag, props.as_slice(), children.as_slice()),
        InstructionValue::JsxFragment { children } => push_places(places, children.as_slice()),
        InstructionValue::DeclareLocal { .. } => Ok(()),
        InstructionValue::Destructure { value, .. } => push_one(places, *value),
        InstructionValue::LoadContext { place } => push_one(places, *place),
        InstructionValue::DeclareContext { .. } => Ok(()),
        InstructionValue::StoreContext { lvalue, value } => push_two(places, lvalue.place, *value),
        InstructionValue::LoadLocal { place } => push_one(places, *place),
        InstructionValue::StoreLocal { value, .. } => push_one(places, *value),
        InstructionValue::PostfixUpdate { value, .. } => push_one(places, *value),
        InstructionValue::PrefixUpdate { value, .. } => push_one(places, *value),
        InstructionValue::StoreGlobal { value, .. } => push_one(places, *value),
        InstructionValue::TypeCastExpression { value } => push_one(places, *value),
        InstructionValue::LoadGlobal => Ok(()),
        InstructionValue::StartMemoize { deps } => push_places(places, deps.as_slice()),
        InstructionValue::FinishMemoize { decl } => push_one(places, *decl),
        InstructionValue::TaggedTemplateExpression { tag } => push_one(places, *tag),
        InstructionValue::BinaryExpression { left, right } => push_two(places, *left, *right),
        InstructionValue::TemplateLiteral { subexprs } => push_places(places, subexprs.as_slice()),
        InstructionValue::UnaryExpression { value } => push_one(places, *value),
        InstructionValue::Debugger => Ok(()),
        InstructionValue::JSXText => Ok(()),
        InstructionValue::MetaProperty => Ok(()),
        InstructionValue::Primitive => Ok(()),
        InstructionValue::RegExpLiteral => Ok(()),
    }
}

/// The places that the value reads, in order. A value that creates a function reads the context places of
/// that. The one error is out of memory.
pub fn each_instruction_value_operand(
    alloc: Global,
    value: &InstructionValue,
    env: &Environment,
) -> Result<PlaceList, AllocError>
    ensures { IfOk result (λ l. l.items ≡ operands_of env.now value.now) }
{
    let mut places = SmallVec::new(alloc);
    push_operands(&mut places, value, env)?;
    Ok(places)
}
