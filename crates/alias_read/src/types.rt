//! Reads types.
ghost use Rattle.std.specs.Prelude.{◌≡◌, Result};
ghost use Rattle.alias_json.specs.Tree.{view};
ghost use Rattle.alias_base.specs.Answer.{Gives};
ghost use Rattle.alias_json.specs.Pointer.{pointer};
ghost use Rattle.alias_json.specs.Fault.{is_memory};
ghost use Rattle.alias_read.specs.Types.{plain_type, plain_type_at, object_type_at, phi_type_at, leaf_type_at, function_type_of, type_at};

use crate::json::{FromJson, flag, optional, required};
use crate::type_kinds::{LeafKind, PlainType, TypeKind};
use alias_base::{Boxed, Text};
use alias_hir::types::Ty;
use alias_json::{Path, TextRule, Tree, ValueFault, known_keys, object, refused};
use std::alloc::Global;

fn plain_type(kind: PlainType) -> Ty
    ensures { result ≡ plain_type kind }
{
    match kind {
        PlainType::Primitive => Ty::Primitive,
        PlainType::Poly => Ty::Poly,
        PlainType::Property => Ty::Property,
        PlainType::Var => Ty::Var,
        PlainType::ObjectMethod => Ty::ObjectMethod,
    }
}

fn plain_type_of(
    alloc: Global,
    kind: PlainType,
    path: &Path,
    value: &Tree,
) -> Result<Ty, ValueFault>
    ensures { Gives is_memory (plain_type_at kind (pointer path.now) (view value.now)) result }
{
    known_keys(alloc, path, &["kind"], value)?;
    Ok(plain_type(kind))
}

fn object_type(alloc: Global, path: &Path, value: &Tree) -> Result<Ty, ValueFault>
    ensures { Gives is_memory (object_type_at (pointer path.now) (view value.now)) result }
{
    let shape_id = optional(alloc, path, "shape_id", value)?;
    known_keys(alloc, path, &["kind", "shape_id"], value)?;
    Ok(Ty::Object { shape_id })
}

fn phi_type(alloc: Global, path: &Path, value: &Tree) -> Result<Ty, ValueFault>
    ensures { Gives is_memory (phi_type_at (pointer path.now) (view value.now)) result }
{
    let jsx_operand = flag(alloc, path, "jsx_operand", value)?;
    known_keys(alloc, path, &["kind", "jsx_operand"], value)?;
    Ok(Ty::Phi { jsx_operand })
}

fn leaf_type(alloc: Global, kind: LeafKind, path: &Path, value: &Tree) -> Result<Ty, ValueFault>
    ensures { Gives is_memory (leaf_type_at kind (pointer path.now) (view value.now)) result }
{
    match kind {
        LeafKind::Plain(kind) => plain_type_of(alloc, kind, path, value),
        LeafKind::Object => object_type(alloc, path, value),
        LeafKind::Phi => phi_type(alloc, path, value),
    }
}

fn function_type(
    alloc: Global,
    shape_id: Option<Text>,
    return_type: Ty,
    path: &Path,
    value: &Tree,
) -> Result<Ty, ValueFault>
    ensures { Gives is_memory (function_type_of shape_id return_type (pointer path.now) (view value.now)) result }
{
    known_keys(alloc, path, &["kind", "shape_id", "return_type"], value)?;
    Ok(Ty::Function {
        shape_id,
        return_type: Boxed::new(alloc, return_type)?,
    })
}

fn read_type(alloc: Global, path: &Path, value: &Tree) -> Result<Ty, ValueFault>
    ensures { Gives is_memory (type_at (pointer path.now) (view value.now)) result }
{
    object(alloc, path, value)?;
    let kind = required(alloc, path, "kind", value)?;
    match kind {
        TypeKind::Leaf(kind) => leaf_type(alloc, kind, path, value),
        TypeKind::Function => {
            let shape_id = optional(alloc, path, "shape_id", value)?;
            let here = Path::Key {
                above: &*path,
                key: "return_type",
            };
            match value.get("return_type") {
                None => refused(alloc, &here, TextRule::Missing),
                Some(found) => {
                    let return_type = read_type(alloc, &here, found)?;
                    function_type(alloc, shape_id, return_type, path, value)
                }
            }
        }
    }
}

impl FromJson for Ty {
    ghost reads = { type_at };

    fn from_json(alloc: Global, path: &Path, value: &Tree) -> Result<Ty, ValueFault> {
        read_type(alloc, path, value)
    }
}
