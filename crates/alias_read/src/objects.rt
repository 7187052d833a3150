//! Reads array and object expressions and JSX.
ghost use Rattle.std.specs.Prelude.{◌≡◌, Result};
ghost use Rattle.alias_json.specs.Tree.{view};
ghost use Rattle.alias_base.specs.Answer.{Gives};
ghost use Rattle.alias_json.specs.Pointer.{pointer};
ghost use Rattle.alias_json.specs.Fault.{is_memory};
ghost use Rattle.alias_read.specs.Objects.{array_expression_at, object_expression_at, jsx_expression_at};

use crate::json::{list_of, required};
use alias_hir::value::InstructionValue;
use alias_json::{Path, Tree, ValueFault, known_keys};
use std::alloc::Global;

/// Reads an array expression.
pub fn array_expression(
    alloc: Global,
    path: &Path,
    value: &Tree,
) -> Result<InstructionValue, ValueFault>
    ensures { Gives is_memory (array_expression_at (pointer path.now) (view value.now)) result }
{
    let elements = list_of(alloc, path, "elements", value)?;
    known_keys(alloc, path, &["kind", "elements"], value)?;
    Ok(InstructionValue::ArrayExpression { elements })
}

/// Reads an object expression.
pub fn object_expression(
    alloc: Global,
    path: &Path,
    value: &Tree,
) -> Result<InstructionValue, ValueFault>
    ensures { Gives is_memory (object_expression_at (pointer path.now) (view value.now)) result }
{
    let properties = list_of(alloc, path, "properties", value)?;
    known_keys(alloc, path, &["kind", "properties"], value)?;
    Ok(InstructionValue::ObjectExpression { properties })
}

/// Reads a JSX expression.
pub fn jsx_expression(
    alloc: Global,
    path: &Path,
    value: &Tree,
) -> Result<InstructionValue, ValueFault>
    ensures { Gives is_memory (jsx_expression_at (pointer path.now) (view value.now)) result }
{
    let tag = required(alloc, path, "tag", value)?;
    let props = list_of(alloc, path, "props", value)?;
    let children = list_of(alloc, path, "children", value)?;
    known_keys(alloc, path, &["kind", "tag", "props", "children"], value)?;
    Ok(InstructionValue::JsxExpression {
        tag,
        props,
        children,
    })
}
