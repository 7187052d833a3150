//! Reads the instructions that are a kind and places alone.
ghost use Rattle.std.specs.Prelude.{◌≡◌, Result};
ghost use Rattle.alias_json.specs.Tree.{view};
ghost use Rattle.alias_base.specs.Answer.{Gives};
ghost use Rattle.alias_json.specs.Pointer.{pointer};
ghost use Rattle.alias_json.specs.Fault.{is_memory};
ghost use Rattle.alias_read.specs.Operations.{plain_with, plain_at, one_place_key, one_place_with, one_place_at, first_key, second_key, two_places_with, two_places_at, place_list_key, place_list_with, place_list_at};

use crate::json::{list_of, required};
use crate::value_kinds::{OnePlaceKind, PlaceListKind, PlainKind, TwoPlacesKind};
use alias_base::List;
use alias_hir::place::Place;
use alias_hir::value::InstructionValue;
use alias_json::{Path, Tree, ValueFault, known_keys};
use std::alloc::Global;

/// The instruction of a kind that has no further key.
pub fn plain_with(kind: PlainKind) -> InstructionValue
    ensures { result ≡ plain_with kind }
{
    match kind {
        PlainKind::LoadGlobal => InstructionValue::LoadGlobal,
        PlainKind::Debugger => InstructionValue::Debugger,
        PlainKind::JSXText => InstructionValue::JSXText,
        PlainKind::MetaProperty => InstructionValue::MetaProperty,
        PlainKind::Primitive => InstructionValue::Primitive,
        PlainKind::RegExpLiteral => InstructionValue::RegExpLiteral,
    }
}

/// Reads an instruction that has no further key.
pub fn plain(
    alloc: Global,
    kind: PlainKind,
    path: &Path,
    value: &Tree,
) -> Result<InstructionValue, ValueFault>
    ensures { Gives is_memory (plain_at kind (pointer path.now) (view value.now)) result }
{
    known_keys(alloc, path, &["kind"], value)?;
    Ok(plain_with(kind))
}

/// The key of the one place of a kind.
pub fn one_place_key(kind: OnePlaceKind) -> &'static str
    ensures { result.now ≡ one_place_key kind }
{
    match kind {
        OnePlaceKind::Await
        | OnePlaceKind::NextPropertyOf
        | OnePlaceKind::TypeCastExpression
        | OnePlaceKind::UnaryExpression => "value",
        OnePlaceKind::PropertyDelete | OnePlaceKind::PropertyLoad => "object",
        OnePlaceKind::GetIterator => "collection",
        OnePlaceKind::LoadContext | OnePlaceKind::LoadLocal => "place",
        OnePlaceKind::FinishMemoize => "decl",
        OnePlaceKind::TaggedTemplateExpression => "tag",
    }
}

/// The instruction of a kind that has one place.
pub fn one_place_with(kind: OnePlaceKind, place: Place) -> InstructionValue
    ensures { result ≡ one_place_with kind place }
{
    match kind {
        OnePlaceKind::Await => InstructionValue::Await { value: place },
        OnePlaceKind::PropertyDelete => InstructionValue::PropertyDelete { object: place },
        OnePlaceKind::PropertyLoad => InstructionValue::PropertyLoad { object: place },
        OnePlaceKind::GetIterator => InstructionValue::GetIterator { collection: place },
        OnePlaceKind::NextPropertyOf => InstructionValue::NextPropertyOf { value: place },
        OnePlaceKind::LoadContext => InstructionValue::LoadContext { place },
        OnePlaceKind::LoadLocal => InstructionValue::LoadLocal { place },
        OnePlaceKind::TypeCastExpression => InstructionValue::TypeCastExpression { value: place },
        OnePlaceKind::FinishMemoize => InstructionValue::FinishMemoize { decl: place },
        OnePlaceKind::TaggedTemplateExpression => InstructionValue::TaggedTemplateExpression {
            tag: place,
        },
        OnePlaceKind::UnaryExpression => InstructionValue::UnaryExpression { value: place },
    }
}

/// Reads an instruction whose one further key is a place.
pub fn one_place(
    alloc: Global,
    kind: OnePlaceKind,
    path: &Path,
    value: &Tree,
) -> Result<InstructionValue, ValueFault>
    ensures { Gives is_memory (one_place_at kind (pointer path.now) (view value.now)) result }
{
    let key = one_place_key(kind);
    let place = required(alloc, path, key, value)?;
    known_keys(alloc, path, &["kind", key], value)?;
    Ok(one_place_with(kind, place))
}

/// The key of the first of two places of a kind.
pub fn first_key(kind: TwoPlacesKind) -> &'static str
    ensures { result.now ≡ first_key kind }
{
    match kind {
        TwoPlacesKind::ComputedDelete | TwoPlacesKind::ComputedLoad => "object",
        TwoPlacesKind::IteratorNext => "iterator",
        TwoPlacesKind::PostfixUpdate | TwoPlacesKind::PrefixUpdate => "lvalue",
        TwoPlacesKind::BinaryExpression => "left",
    }
}

/// The key of the second of two places of a kind.
pub fn second_key(kind: TwoPlacesKind) -> &'static str
    ensures { result.now ≡ second_key kind }
{
    match kind {
        TwoPlacesKind::ComputedDelete | TwoPlacesKind::ComputedLoad => "property",
        TwoPlacesKind::IteratorNext => "collection",
        TwoPlacesKind::PostfixUpdate | TwoPlacesKind::PrefixUpdate => "value",
        TwoPlacesKind::BinaryExpression => "right",
    }
}

/// The instruction of a kind that has two places.
pub fn two_places_with(kind: TwoPlacesKind, first: Place, second: Place) -> InstructionValue
    ensures { result ≡ two_places_with kind first second }
{
    match kind {
        TwoPlacesKind::ComputedDelete => InstructionValue::ComputedDelete {
            object: first,
            property: second,
        },
        TwoPlacesKind::ComputedLoad => InstructionValue::ComputedLoad {
            object: first,
            property: second,
        },
        TwoPlacesKind::IteratorNext => InstructionValue::IteratorNext {
            iterator: first,
            collection: second,
        },
        TwoPlacesKind::PostfixUpdate => InstructionValue::PostfixUpdate {
            lvalue: first,
            value: second,
        },
        TwoPlacesKind::PrefixUpdate => InstructionValue::PrefixUpdate {
            lvalue: first,
            value: second,
        },
        TwoPlacesKind::BinaryExpression => InstructionValue::BinaryExpression {
            left: first,
            right: second,
        },
    }
}

/// Reads an instruction whose two further keys are places.
pub fn two_places(
    alloc: Global,
    kind: TwoPlacesKind,
    path: &Path,
    value: &Tree,
) -> Result<InstructionValue, ValueFault>
    ensures { Gives is_memory (two_places_at kind (pointer path.now) (view value.now)) result }
{
    let first_name = first_key(kind);
    let second_name = second_key(kind);
    let first = required(alloc, path, first_name, value)?;
    let second = required(alloc, path, second_name, value)?;
    known_keys(alloc, path, &["kind", first_name, second_name], value)?;
    Ok(two_places_with(kind, first, second))
}

/// The key of the list of places of a kind.
pub fn place_list_key(kind: PlaceListKind) -> &'static str
    ensures { result.now ≡ place_list_key kind }
{
    match kind {
        PlaceListKind::JsxFragment => "children",
        PlaceListKind::StartMemoize => "deps",
        PlaceListKind::TemplateLiteral => "subexprs",
    }
}

/// The instruction of a kind that has a list of places.
pub fn place_list_with(kind: PlaceListKind, places: List<Place>) -> InstructionValue
    ensures { result ≡ place_list_with kind places }
{
    match kind {
        PlaceListKind::JsxFragment => InstructionValue::JsxFragment { children: places },
        PlaceListKind::StartMemoize => InstructionValue::StartMemoize { deps: places },
        PlaceListKind::TemplateLiteral => InstructionValue::TemplateLiteral { subexprs: places },
    }
}

/// Reads an instruction whose one further key is a list of places.
pub fn place_list(
    alloc: Global,
    kind: PlaceListKind,
    path: &Path,
    value: &Tree,
) -> Result<InstructionValue, ValueFault>
    ensures { Gives is_memory (place_list_at kind (pointer path.now) (view value.now)) result }
{
    let key = place_list_key(kind);
    let places = list_of(alloc, path, key, value)?;
    known_keys(alloc, path, &["kind", key], value)?;
    Ok(place_list_with(kind, places))
}
