//! The kinds of types, and their names.
ghost use Rattle.alias_json.specs.Names.{named_at};
ghost use Rattle.alias_read.specs.Types.{type_names};

use crate::json::FromJson;
use alias_json::{Path, Tree, ValueFault, by_name};
use std::alloc::Global;

/// The kinds of types that have no further key.
#[derive(Clone, Copy)]
pub enum PlainType {
    Primitive,
    Poly,
    Property,
    Var,
    ObjectMethod,
}

/// The kinds of types that have no other type in them.
#[derive(Clone, Copy)]
pub enum LeafKind {
    Plain(PlainType),
    Object,
    Phi,
}

/// The kinds of types.
#[derive(Clone, Copy)]
pub enum TypeKind {
    Function,
    Leaf(LeafKind),
}

static TYPES: [(&str, TypeKind); 8] = [
    (
        "Primitive",
        TypeKind::Leaf(LeafKind::Plain(PlainType::Primitive)),
    ),
    ("Function", TypeKind::Function),
    ("Object", TypeKind::Leaf(LeafKind::Object)),
    ("Poly", TypeKind::Leaf(LeafKind::Plain(PlainType::Poly))),
    ("Phi", TypeKind::Leaf(LeafKind::Phi)),
    (
        "Property",
        TypeKind::Leaf(LeafKind::Plain(PlainType::Property)),
    ),
    ("Var", TypeKind::Leaf(LeafKind::Plain(PlainType::Var))),
    (
        "ObjectMethod",
        TypeKind::Leaf(LeafKind::Plain(PlainType::ObjectMethod)),
    ),
];

impl FromJson for TypeKind {
    ghost reads = { named_at type_names };

    #[tactic(auto, unfolding(crate::specs::Types::type_names))]
    fn from_json(alloc: Global, path: &Path, value: &Tree) -> Result<TypeKind, ValueFault> {
        by_name(alloc, &TYPES, path, value)
    }
}
