//! Reads declarations and stores.
ghost use Rattle.std.specs.Prelude.{◌≡◌, Result};
ghost use Rattle.alias_json.specs.Tree.{view};
ghost use Rattle.alias_base.specs.Answer.{Gives};
ghost use Rattle.alias_json.specs.Pointer.{pointer};
ghost use Rattle.alias_json.specs.Fault.{is_memory};
ghost use Rattle.alias_read.specs.Stores.{declare_with, declare_at, store_with, store_at, destructure_at, store_global_at, property_store_at, computed_store_at};

use crate::json::required;
use crate::value_kinds::{DeclareKind, StoreKind};
use alias_hir::place::Place;
use alias_hir::value::{InstructionValue, LValue};
use alias_json::{Path, Tree, ValueFault, known_keys};
use std::alloc::Global;

/// The declaration of a kind.
pub fn declare_with(kind: DeclareKind, lvalue: LValue) -> InstructionValue
    ensures { result ≡ declare_with kind lvalue }
{
    match kind {
        DeclareKind::DeclareLocal => InstructionValue::DeclareLocal { lvalue },
        DeclareKind::DeclareContext => InstructionValue::DeclareContext { lvalue },
    }
}

/// Reads a declaration of a variable.
pub fn declare(
    alloc: Global,
    kind: DeclareKind,
    path: &Path,
    value: &Tree,
) -> Result<InstructionValue, ValueFault>
    ensures { Gives is_memory (declare_at kind (pointer path.now) (view value.now)) result }
{
    let lvalue = required(alloc, path, "lvalue", value)?;
    known_keys(alloc, path, &["kind", "lvalue"], value)?;
    Ok(declare_with(kind, lvalue))
}

/// The store of a kind.
pub fn store_with(kind: StoreKind, lvalue: LValue, value: Place) -> InstructionValue
    ensures { result ≡ store_with kind lvalue value }
{
    match kind {
        StoreKind::StoreContext => InstructionValue::StoreContext { lvalue, value },
        StoreKind::StoreLocal => InstructionValue::StoreLocal { lvalue, value },
    }
}

/// Reads a store to a variable.
pub fn store(
    alloc: Global,
    kind: StoreKind,
    path: &Path,
    value: &Tree,
) -> Result<InstructionValue, ValueFault>
    ensures { Gives is_memory (store_at kind (pointer path.now) (view value.now)) result }
{
    let lvalue = required(alloc, path, "lvalue", value)?;
    let stored = required(alloc, path, "value", value)?;
    known_keys(alloc, path, &["kind", "lvalue", "value"], value)?;
    Ok(store_with(kind, lvalue, stored))
}

/// Reads a destructuring.
pub fn destructure(alloc: Global, path: &Path, value: &Tree) -> Result<InstructionValue, ValueFault>
    ensures { Gives is_memory (destructure_at (pointer path.now) (view value.now)) result }
{
    let lvalue = required(alloc, path, "lvalue", value)?;
    let taken = required(alloc, path, "value", value)?;
    known_keys(alloc, path, &["kind", "lvalue", "value"], value)?;
    Ok(InstructionValue::Destructure {
        lvalue,
        value: taken,
    })
}

/// Reads a store to a global.
pub fn store_global(
    alloc: Global,
    path: &Path,
    value: &Tree,
) -> Result<InstructionValue, ValueFault>
    ensures { Gives is_memory (store_global_at (pointer path.now) (view value.now)) result }
{
    let name = required(alloc, path, "name", value)?;
    let stored = required(alloc, path, "value", value)?;
    known_keys(alloc, path, &["kind", "name", "value"], value)?;
    Ok(InstructionValue::StoreGlobal {
        name,
        value: stored,
    })
}

/// Reads a store to a property.
pub fn property_store(
    alloc: Global,
    path: &Path,
    value: &Tree,
) -> Result<InstructionValue, ValueFault>
    ensures { Gives is_memory (property_store_at (pointer path.now) (view value.now)) result }
{
    let object = required(alloc, path, "object", value)?;
    let property = required(alloc, path, "property", value)?;
    let stored = required(alloc, path, "value", value)?;
    known_keys(alloc, path, &["kind", "object", "property", "value"], value)?;
    Ok(InstructionValue::PropertyStore {
        object,
        property,
        value: stored,
    })
}

/// Reads a store to a property whose key is computed.
pub fn computed_store(
    alloc: Global,
    path: &Path,
    value: &Tree,
) -> Result<InstructionValue, ValueFault>
    ensures { Gives is_memory (computed_store_at (pointer path.now) (view value.now)) result }
{
    let object = required(alloc, path, "object", value)?;
    let property = required(alloc, path, "property", value)?;
    let stored = required(alloc, path, "value", value)?;
    known_keys(alloc, path, &["kind", "object", "property", "value"], value)?;
    Ok(InstructionValue::ComputedStore {
        object,
        property,
        value: stored,
    })
}
