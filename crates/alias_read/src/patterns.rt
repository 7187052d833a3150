//! Reads the variables of declarations and stores.
ghost use Rattle.std.specs.Prelude.{◌≡◌, Result};
ghost use Rattle.alias_json.specs.Tree.{view};
ghost use Rattle.alias_base.specs.Answer.{Gives};
ghost use Rattle.alias_json.specs.Pointer.{pointer};
ghost use Rattle.alias_json.specs.Fault.{is_memory};
ghost use Rattle.alias_read.specs.Patterns.{lvalue_at, array_pattern_at, object_pattern_at, pattern_at, lvalue_pattern_at};

use crate::json::{FromJson, required};
use alias_hir::value::{ArrayPattern, LValue, LValuePattern, ObjectPattern, Pattern};
use alias_json::{Path, Tree, ValueFault, known_keys, object};
use std::alloc::Global;

impl FromJson for LValue {
    ghost reads = { lvalue_at };

    fn from_json(alloc: Global, path: &Path, value: &Tree) -> Result<LValue, ValueFault> {
        object(alloc, path, value)?;
        let kind = required(alloc, path, "kind", value)?;
        let place = required(alloc, path, "place", value)?;
        known_keys(alloc, path, &["kind", "place"], value)?;
        Ok(LValue { place, kind })
    }
}

fn array_pattern(alloc: Global, path: &Path, value: &Tree) -> Result<Pattern, ValueFault>
    ensures { Gives is_memory (array_pattern_at (pointer path.now) (view value.now)) result }
{
    let items = required(alloc, path, "array", value)?;
    known_keys(alloc, path, &["array"], value)?;
    Ok(Pattern::Array(ArrayPattern { items }))
}

fn object_pattern(alloc: Global, path: &Path, value: &Tree) -> Result<Pattern, ValueFault>
    ensures { Gives is_memory (object_pattern_at (pointer path.now) (view value.now)) result }
{
    let properties = required(alloc, path, "object", value)?;
    known_keys(alloc, path, &["object"], value)?;
    Ok(Pattern::Object(ObjectPattern { properties }))
}

impl FromJson for Pattern {
    ghost reads = { pattern_at };

    fn from_json(alloc: Global, path: &Path, value: &Tree) -> Result<Pattern, ValueFault> {
        object(alloc, path, value)?;
        if value.get("array").is_some() || value.get("object").is_none() {
            array_pattern(alloc, path, value)
        } else {
            object_pattern(alloc, path, value)
        }
    }
}

impl FromJson for LValuePattern {
    ghost reads = { lvalue_pattern_at };

    fn from_json(alloc: Global, path: &Path, value: &Tree) -> Result<LValuePattern, ValueFault> {
        object(alloc, path, value)?;
        let kind = required(alloc, path, "kind", value)?;
        let pattern = required(alloc, path, "pattern", value)?;
        known_keys(alloc, path, &["kind", "pattern"], value)?;
        Ok(LValuePattern { pattern, kind })
    }
}
