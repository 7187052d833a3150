//! The kinds of instruction, by what keys they have, and their names.
ghost use Rattle.std.specs.Prelude.{◌≡◌};
ghost use Rattle.alias_json.specs.Names.{named, named_at};
ghost use Rattle.alias_read.specs.ValueKinds.{instruction_value_names};

use crate::json::FromJson;
use alias_json::{Path, Tree, ValueFault, by_name, named};
use std::alloc::Global;

/// The kinds that have no further key.
#[derive(Clone, Copy)]
pub enum PlainKind {
    LoadGlobal,
    Debugger,
    JSXText,
    MetaProperty,
    Primitive,
    RegExpLiteral,
}

/// The kinds whose one further key is a place.
#[derive(Clone, Copy)]
pub enum OnePlaceKind {
    Await,
    PropertyDelete,
    PropertyLoad,
    GetIterator,
    NextPropertyOf,
    LoadContext,
    LoadLocal,
    TypeCastExpression,
    FinishMemoize,
    TaggedTemplateExpression,
    UnaryExpression,
}

/// The kinds whose two further keys are places.
#[derive(Clone, Copy)]
pub enum TwoPlacesKind {
    ComputedDelete,
    ComputedLoad,
    IteratorNext,
    PostfixUpdate,
    PrefixUpdate,
    BinaryExpression,
}

/// The kinds whose one further key is a list of places.
#[derive(Clone, Copy)]
pub enum PlaceListKind {
    JsxFragment,
    StartMemoize,
    TemplateLiteral,
}

/// The kinds that create a function.
#[derive(Clone, Copy)]
pub enum FunctionKind {
    FunctionExpression,
    ObjectMethod,
}

/// The kinds that declare a variable.
#[derive(Clone, Copy)]
pub enum DeclareKind {
    DeclareLocal,
    DeclareContext,
}

/// The kinds that store a value in a variable.
#[derive(Clone, Copy)]
pub enum StoreKind {
    StoreContext,
    StoreLocal,
}

/// The kinds that call a value.
#[derive(Clone, Copy)]
pub enum CallKind {
    NewExpression,
    CallExpression,
}

/// The kinds of instruction.
#[derive(Clone, Copy)]
pub enum InstructionValueKind {
    Plain(PlainKind),
    OnePlace(OnePlaceKind),
    TwoPlaces(TwoPlacesKind),
    PlaceList(PlaceListKind),
    Function(FunctionKind),
    Declare(DeclareKind),
    Store(StoreKind),
    Call(CallKind),
    ArrayExpression,
    ObjectExpression,
    MethodCall,
    PropertyStore,
    ComputedStore,
    JsxExpression,
    Destructure,
    StoreGlobal,
}

static INSTRUCTION_VALUES: [(&str, InstructionValueKind); 42] = [
    ("ArrayExpression", InstructionValueKind::ArrayExpression),
    ("ObjectExpression", InstructionValueKind::ObjectExpression),
    ("Await", InstructionValueKind::OnePlace(OnePlaceKind::Await)),
    (
        "NewExpression",
        InstructionValueKind::Call(CallKind::NewExpression),
    ),
    (
        "CallExpression",
        InstructionValueKind::Call(CallKind::CallExpression),
    ),
    ("MethodCall", InstructionValueKind::MethodCall),
    (
        "PropertyDelete",
        InstructionValueKind::OnePlace(OnePlaceKind::PropertyDelete),
    ),
    (
        "ComputedDelete",
        InstructionValueKind::TwoPlaces(TwoPlacesKind::ComputedDelete),
    ),
    (
        "PropertyLoad",
        InstructionValueKind::OnePlace(OnePlaceKind::PropertyLoad),
    ),
    (
        "ComputedLoad",
        InstructionValueKind::TwoPlaces(TwoPlacesKind::ComputedLoad),
    ),
    ("PropertyStore", InstructionValueKind::PropertyStore),
    ("ComputedStore", InstructionValueKind::ComputedStore),
    (
        "FunctionExpression",
        InstructionValueKind::Function(FunctionKind::FunctionExpression),
    ),
    (
        "ObjectMethod",
        InstructionValueKind::Function(FunctionKind::ObjectMethod),
    ),
    (
        "GetIterator",
        InstructionValueKind::OnePlace(OnePlaceKind::GetIterator),
    ),
    (
        "IteratorNext",
        InstructionValueKind::TwoPlaces(TwoPlacesKind::IteratorNext),
    ),
    (
        "NextPropertyOf",
        InstructionValueKind::OnePlace(OnePlaceKind::NextPropertyOf),
    ),
    ("JsxExpression", InstructionValueKind::JsxExpression),
    (
        "JsxFragment",
        InstructionValueKind::PlaceList(PlaceListKind::JsxFragment),
    ),
    (
        "DeclareLocal",
        InstructionValueKind::Declare(DeclareKind::DeclareLocal),
    ),
    ("Destructure", InstructionValueKind::Destructure),
    (
        "LoadContext",
        InstructionValueKind::OnePlace(OnePlaceKind::LoadContext),
    ),
    (
        "DeclareContext",
        InstructionValueKind::Declare(DeclareKind::DeclareContext),
    ),
    (
        "StoreContext",
        InstructionValueKind::Store(StoreKind::StoreContext),
    ),
    (
        "LoadLocal",
        InstructionValueKind::OnePlace(OnePlaceKind::LoadLocal),
    ),
    (
        "StoreLocal",
        InstructionValueKind::Store(StoreKind::StoreLocal),
    ),
    (
        "PostfixUpdate",
        InstructionValueKind::TwoPlaces(TwoPlacesKind::PostfixUpdate),
    ),
    (
        "PrefixUpdate",
        InstructionValueKind::TwoPlaces(TwoPlacesKind::PrefixUpdate),
    ),
    ("StoreGlobal", InstructionValueKind::StoreGlobal),
    (
        "TypeCastExpression",
        InstructionValueKind::OnePlace(OnePlaceKind::TypeCastExpression),
    ),
    (
        "LoadGlobal",
        InstructionValueKind::Plain(PlainKind::LoadGlobal),
    ),
    (
        "StartMemoize",
        InstructionValueKind::PlaceList(PlaceListKind::StartMemoize),
    ),
    (
        "FinishMemoize",
        InstructionValueKind::OnePlace(OnePlaceKind::FinishMemoize),
    ),
    (
        "TaggedTemplateExpression",
        InstructionValueKind::OnePlace(OnePlaceKind::TaggedTemplateExpression),
    ),
    (
        "BinaryExpression",
        InstructionValueKind::TwoPlaces(TwoPlacesKind::BinaryExpression),
    ),
    (
        "TemplateLiteral",
        InstructionValueKind::PlaceList(PlaceListKind::TemplateLiteral),
    ),
    (
        "UnaryExpression",
        InstructionValueKind::OnePlace(OnePlaceKind::UnaryExpression),
    ),
    ("Debugger", InstructionValueKind::Plain(PlainKind::Debugger)),
    ("JSXText", InstructionValueKind::Plain(PlainKind::JSXText)),
    (
        "MetaProperty",
        InstructionValueKind::Plain(PlainKind::MetaProperty),
    ),
    (
        "Primitive",
        InstructionValueKind::Plain(PlainKind::Primitive),
    ),
    (
        "RegExpLiteral",
        InstructionValueKind::Plain(PlainKind::RegExpLiteral),
    ),
];

impl FromJson for InstructionValueKind {
    ghost reads = { named_at instruction_value_names };

    #[tactic(auto, unfolding(crate::specs::ValueKinds::instruction_value_names))]
    fn from_json(
        alloc: Global,
        path: &Path,
        value: &Tree,
    ) -> Result<InstructionValueKind, ValueFault> {
        by_name(alloc, &INSTRUCTION_VALUES, path, value)
    }
}

/// The kind of instruction that a name stands for.
#[tactic(auto, unfolding(crate::specs::ValueKinds::instruction_value_names))]
pub fn instruction_value_kind(name: &str) -> Option<InstructionValueKind>
    ensures { result ≡ named instruction_value_names name.now }
{
    named(&INSTRUCTION_VALUES, name)
}
