//! What is read from JSON: lists, members of objects, and items of arrays.
ghost use Rattle.std.specs.Prelude.{◌≡◌, [], ℕ, List, Result};
ghost use Rattle.serde_json.specs.Data.{Data};
ghost use Rattle.alias_json.specs.Tree.{view, items_view};
ghost use Rattle.alias_base.specs.Answer.{Gives};
ghost use Rattle.alias_json.specs.Pointer.{pointer};
ghost use Rattle.alias_json.specs.Fault.{is_memory};
ghost use Rattle.alias_json.specs.Reading.{number_at, boolean_at, text_at};
ghost use Rattle.alias_json.specs.declared.fault.ValueFault.{ValueFault};
ghost use Rattle.alias_read.specs.Json.{list_at, items_at, required, given_or, option_at, optional, list_of, flag, element};

use alias_base::{List, Text};
use alias_json::{Path, TextRule, Tree, ValueFault, boolean, number, refused, text};
use std::alloc::Global;

/// A type whose values are read from JSON.
pub trait FromJson {
    ghost reads: { List ℕ → Data → Result Self ValueFault };

    /// Reads a value that stands at a path, or says what is wrong with it.
    fn from_json(alloc: Global, path: &Path, value: &Tree) -> Result<Self, ValueFault>
        ensures { Gives is_memory (reads (pointer path.now) (view value.now)) result };
}

impl FromJson for u32 {
    ghost reads = { number_at };

    fn from_json(alloc: Global, path: &Path, value: &Tree) -> Result<u32, ValueFault> {
        number(alloc, path, value)
    }
}

impl FromJson for bool {
    ghost reads = { boolean_at };

    fn from_json(alloc: Global, path: &Path, value: &Tree) -> Result<bool, ValueFault> {
        boolean(alloc, path, value)
    }
}

impl FromJson for Text {
    ghost reads = { text_at };

    fn from_json(alloc: Global, path: &Path, value: &Tree) -> Result<Text, ValueFault> {
        text(alloc, path, value)
    }
}

impl<T: FromJson + Drop> FromJson for List<T> {
    ghost reads = { list_at T.reads };

    fn from_json(alloc: Global, path: &Path, value: &Tree) -> Result<List<T>, ValueFault> {
        match value.as_array() {
            Some(values) => items(alloc, path, values),
            None => refused(alloc, path, TextRule::Kind),
        }
    }
}

fn items<T: FromJson + Drop>(
    alloc: Global,
    path: &Path,
    values: &[Tree],
) -> Result<List<T>, ValueFault>
    ensures { Gives is_memory (items_at T.reads (pointer path.now) 0 [] (items_view values.now)) result }
{
    let mut found = Vec::with_capacity(alloc, values.len())?;
    for (index, value) in values.iter().enumerate() {
        let here = Path::Index { above: path, index };
        found.push(T::from_json(alloc, &here, value)?)?;
    }
    Ok(List::from_vec(found))
}

impl<T: FromJson> FromJson for Option<T> {
    ghost reads = { option_at T.reads };

    fn from_json(alloc: Global, path: &Path, value: &Tree) -> Result<Option<T>, ValueFault> {
        match value {
            Tree::Null => Ok(None),
            _ => Ok(Some(T::from_json(alloc, path, value)?)),
        }
    }
}

/// The value of a key that has to be there.
pub fn required<T: FromJson>(
    alloc: Global,
    path: &Path,
    key: &str,
    value: &Tree,
) -> Result<T, ValueFault>
    ensures { Gives is_memory (required T.reads (pointer path.now) key.now (view value.now)) result }
{
    let here = Path::Key { above: path, key };
    match value.get(key) {
        Some(found) => T::from_json(alloc, &here, found),
        None => refused(alloc, &here, TextRule::Missing),
    }
}

/// The value of a key that may be absent, and then stands for the default.
pub fn given_or<T: FromJson + Drop>(
    alloc: Global,
    path: &Path,
    key: &str,
    value: &Tree,
    default: T,
) -> Result<T, ValueFault>
    ensures { Gives is_memory (given_or T.reads default (pointer path.now) key.now (view value.now)) result }
{
    let here = Path::Key { above: path, key };
    match value.get(key) {
        Some(found) => T::from_json(alloc, &here, found),
        None => Ok(default),
    }
}

/// The value of a key that may be absent or null.
pub fn optional<T: FromJson + Drop>(
    alloc: Global,
    path: &Path,
    key: &str,
    value: &Tree,
) -> Result<Option<T>, ValueFault>
    ensures { Gives is_memory (optional T.reads (pointer path.now) key.now (view value.now)) result }
{
    given_or(alloc, path, key, value, None)
}

/// The list of a key that may be absent.
pub fn list_of<T: FromJson + Drop>(
    alloc: Global,
    path: &Path,
    key: &str,
    value: &Tree,
) -> Result<List<T>, ValueFault>
    ensures { Gives is_memory (list_of T.reads (pointer path.now) key.now (view value.now)) result }
{
    given_or(alloc, path, key, value, List::new(alloc))
}

/// The bool of a key that may be absent.
pub fn flag(alloc: Global, path: &Path, key: &str, value: &Tree) -> Result<bool, ValueFault>
    ensures { Gives is_memory (flag (pointer path.now) key.now (view value.now)) result }
{
    given_or(alloc, path, key, value, false)
}

/// The item at an index of an array that has one there.
pub fn element<T: FromJson>(
    alloc: Global,
    path: &Path,
    index: usize,
    value: &Tree,
) -> Result<T, ValueFault>
    ensures { Gives is_memory (element T.reads (pointer path.now) index (view value.now)) result }
{
    match value.at(index) {
        Some(found) => T::from_json(alloc, &Path::Index { above: path, index }, found),
        None => refused(alloc, path, TextRule::Kind),
    }
}
