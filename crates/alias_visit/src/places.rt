//! The places of values, of effects and of whole functions, in the order of the fields.
ghost use Rattle.std.specs.Prelude.{◌≡◌, [], ◌∷◌, ◌++◌, IfOk, OnOk};
ghost use Rattle.std.specs.List.{flat_map};
ghost use Rattle.alias_hir.specs.Effects.{effect_places};
ghost use Rattle.alias_hir.specs.Parts.{apply_arg_places, places_in_pattern};
ghost use Rattle.alias_hir.specs.Values.{places_of};

pub use crate::function_places::each_place;
use crate::operands::{push_call, push_jsx, push_method};
use crate::parts::{
    PlaceList, push_apply_args, push_elements, push_in_pattern, push_one, push_places,
    push_properties, push_three, push_two,
};
use alias_hir::effect::AliasingEffect;
use alias_hir::place::{Place, PlaceOrSpreadOrHole};
use alias_hir::value::{InstructionValue, Pattern};
use smallvec::SmallVec;
use std::alloc::{AllocError, Global};

fn push_destructure(
    places: &mut PlaceList,
    pattern: &Pattern,
    value: Place,
) -> Result<(), AllocError>
    ensures { OnOk result (places.new.items ≡ places.old.items ++ places_in_pattern pattern.now ++ value ∷ []) }
{
    push_in_pattern(places, pattern)?;
    push_one(places, value)
}

/// Appends the places of what an instruction computes.
pub(crate) fn push_value(places: &mut PlaceList, value: &InstructionValue) -> Result<(), AllocError>
    ensures { OnOk result (places.new.items ≡ places.old.items ++ places_of value.now) }
{
    match value {
        InstructionValue::ArrayExpression { elements } => push_elements(
            places,
            elements.as_slice(),
        ),
        InstructionValue::ObjectExpression { properties } => push_properties(
            places,
            properties.as_slice(),
        ),
        InstructionValue::Await { value } => push_one(places, *value),
        InstructionValue::NewExpression { callee, args } => push_call(
            places,
            *callee,
            args.as_slice(),
        ),
        InstructionValue::CallExpression { callee, args } => push_call(
            places,
            *callee,
            args.as_slice(),
        ),
        InstructionValue::MethodCall {
            receiver,
            property,
            args,
        } => push_method(places, *receiver, *property, args.as_slice()),
        InstructionValue::PropertyDelete { object } => push_one(places, *object),
        InstructionValue::ComputedDelete { object, property } => push_two(
            places, *object, *property,
        ),
        InstructionValue::PropertyLoad { object } => push_one(places, *object),
        InstructionValue::ComputedLoad { object, property } => push_two(places, *object, *property),
        InstructionValue::PropertyStore { object, value, .. } => push_two(places, *object, *value),
        InstructionValue::ComputedStore {
            object,
            property,
            value,
        } => push_three(places, *object, *property, *value),
        InstructionValue::FunctionExpression { .. } => Ok(()),
        InstructionValue::ObjectMethod { .. } => Ok(()),
        InstructionValue::GetIterator { collection } => push_one(places, *collection),
        InstructionValue::IteratorNext {
            iterator,
            collection,
        } => push_two(places, *iterator, *collection),
        InstructionValue::NextPropertyOf { value } => push_one(places, *value),
        InstructionValue::JsxExpression {
            tag,
            props,
            children,
        } => push_jsx(places, tag, props.as_slice(), children.as_slice()),
        InstructionValue::JsxFragment { children } => push_places(places, children.as_slice()),
        InstructionValue::DeclareLocal { lvalue } => push_one(places, lvalue.place),
        InstructionValue::Destructure { lvalue, value } => push_destructure(
            places,
            &lvalue.pattern,
            *value,
        ),
        InstructionValue::LoadContext { place } => push_one(places, *place),
        InstructionValue::DeclareContext { lvalue } => push_one(places, lvalue.place),
        InstructionValue::StoreContext { lvalue, value } => push_two(places, lvalue.place, *value),
        InstructionValue::LoadLocal { place } => push_one(places, *place),
        InstructionValue::StoreLocal { lvalue, value } => push_two(places, lvalue.place, *value),
        InstructionValue::PostfixUpdate { lvalue, value } => push_two(places, *lvalue, *value),
        InstructionValue::PrefixUpdate { lvalue, value } => push_two(places, *lvalue, *value),
        InstructionValue::StoreGlobal { value, .. } => push_one(places, *value),
        InstructionValue::TypeCastExpression { value } => push_one(places, *value),
        InstructionValue::LoadGlobal => Ok(()),
        InstructionValue::StartMemoize { deps } => push_places(places, deps.as_slice()),
        InstructionValue::FinishMemoize { decl } => push_one(places, *decl),
        InstructionValue::TaggedTemplateExpression { tag } => push_one(places, *tag),
        InstructionValue::BinaryExpression { left, right } => push_two(places, *left, *right),
        InstructionValue::TemplateLiteral { subexprs } => push_places(places, subexprs.as_slice()),
        InstructionValue::UnaryExpression { value } => push_one(places, *value),
        InstructionValue::Debugger => Ok(()),
        InstructionValue::JSXText => Ok(()),
        InstructionValue::MetaProperty => Ok(()),
        InstructionValue::Primitive => Ok(()),
        InstructionValue::RegExpLiteral => Ok(()),
    }
}

/// The places of what an instruction computes, in the order of its fields. That of its result isn't among
/// them, nor are the context places of a function that it creates. The one error is out of memory.
pub fn places_of(alloc: Global, value: &InstructionValue) -> Result<PlaceList, AllocError>
    ensures { IfOk result (λ places. places.items ≡ places_of value.now) }
{
    let mut places = SmallVec::new(alloc);
    push_value(&mut places, value)?;
    Ok(places)
}

fn push_apply(
    places: &mut PlaceList,
    receiver: Place,
    function: Place,
    args: &[PlaceOrSpreadOrHole],
    into: Place,
) -> Result<(), AllocError>
    ensures { OnOk result (places.new.items ≡ places.old.items ++ receiver ∷ function ∷ flat_map apply_arg_places args.now ++ into ∷ []) }
{
    push_two(places, receiver, function)?;
    push_apply_args(places, args)?;
    push_one(places, into)
}

fn push_created_function(
    places: &mut PlaceList,
    into: Place,
    captures: &[Place],
) -> Result<(), AllocError>
    ensures { OnOk result (places.new.items ≡ places.old.items ++ into ∷ captures.now) }
{
    push_one(places, into)?;
    push_places(places, captures)
}

fn push_effect(places: &mut PlaceList, effect: &AliasingEffect) -> Result<(), AllocError>
    ensures { OnOk result (places.new.items ≡ places.old.items ++ effect_places effect.now) }
{
    match effect {
        AliasingEffect::Apply {
            receiver,
            function,
            args,
            into,
            ..
        } => push_apply(places, *receiver, *function, args.as_slice(), *into),
        AliasingEffect::CreateFrom { from, into }
        | AliasingEffect::ImmutableCapture { from, into }
        | AliasingEffect::Assign { from, into }
        | AliasingEffect::Alias { from, into }
        | AliasingEffect::Capture { from, into }
        | AliasingEffect::MaybeAlias { from, into } => push_two(places, *from, *into),
        AliasingEffect::Create { into: place, .. }
        | AliasingEffect::Freeze { value: place, .. }
        | AliasingEffect::Impure { place, .. }
        | AliasingEffect::MutateFrozen { place, .. }
        | AliasingEffect::MutateGlobal { place, .. }
        | AliasingEffect::Render { place }
        | AliasingEffect::Mutate { value: place, .. }
        | AliasingEffect::MutateConditionally { value: place }
        | AliasingEffect::MutateTransitive { value: place }
        | AliasingEffect::MutateTransitiveConditionally { value: place } => push_one(
            places, *place,
        ),
        AliasingEffect::CreateFunction { into, captures, .. } => push_created_function(
            places,
            *into,
            captures.as_slice(),
        ),
    }
}

/// The places of the effect, in the order of its fields. The one error is out of memory.
pub fn effect_places(alloc: Global, effect: &AliasingEffect) -> Result<PlaceList, AllocError>
    ensures { IfOk result (λ places. places.items ≡ effect_places effect.now) }
{
    let mut places = SmallVec::new(alloc);
    push_effect(&mut places, effect)?;
    Ok(places)
}
