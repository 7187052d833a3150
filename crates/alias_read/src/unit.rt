//! Reads a whole unit.
ghost use Rattle.std.specs.Prelude.{◌≡◌, [], Result, IfOk, IfErr, codes};
ghost use Rattle.alias_json.specs.Tree.{view};
ghost use Rattle.alias_base.specs.Answer.{Gives};
ghost use Rattle.alias_json.specs.Pointer.{pointer};
ghost use Rattle.alias_json.specs.Fault.{is_memory};
ghost use Rattle.alias_read.specs.Fault.{IsMemory};
ghost use Rattle.alias_read.specs.Json.{given_or};
ghost use Rattle.alias_read.specs.Units.{format_numbered, format_at, context_value_at, context_values_at, root_values_at, unit_keys, environment_at, with_context_values, rooted_at, unit_at, ReadsUnit, UnitReading, NoUnit};

use crate::fault::TextFault;
use crate::json::{FromJson, given_or, list_of, required};
use crate::shapes::shapes_of;
use alias_base::List;
use alias_hir::env::{Config, Environment, Unit};
use alias_hir::hir::{ContextValue, HirFunction};
use alias_hir::interned::InternedReports;
use alias_json::{
    Bump, Path, Scratch, TextRule, Tree, TreeFault, ValueFault, array_of, known_keys, object,
    read_tree, refused,
};
use std::alloc::Global;

/// The formats of units. The second says what the context places of the root are.
#[derive(Clone, Copy)]
pub enum Format {
    First,
    Second,
}

fn format_numbered(alloc: Global, path: &Path, number: u32) -> Result<Format, ValueFault>
    ensures { Gives is_memory (format_numbered (pointer path.now) number) result }
{
    match number {
        1 => Ok(Format::First),
        2 => Ok(Format::Second),
        _ => refused(alloc, path, TextRule::Range),
    }
}

impl FromJson for Format {
    ghost reads = { format_at };

    fn from_json(alloc: Global, path: &Path, value: &Tree) -> Result<Format, ValueFault> {
        let number = u32::from_json(alloc, path, value)?;
        format_numbered(alloc, path, number)
    }
}

impl FromJson for ContextValue {
    ghost reads = { context_value_at };

    fn from_json(alloc: Global, path: &Path, value: &Tree) -> Result<ContextValue, ValueFault> {
        object(alloc, path, value)?;
        let kind = required(alloc, path, "kind", value)?;
        let reasons = list_of(alloc, path, "reasons", value)?;
        known_keys(alloc, path, &["kind", "reasons"], value)?;
        Ok(ContextValue { kind, reasons })
    }
}

/// What context places of this number are.
pub fn context_values(
    alloc: Global,
    count: usize,
    path: &Path,
    value: &Tree,
) -> Result<List<ContextValue>, ValueFault>
    ensures { Gives is_memory (context_values_at count (pointer path.now) (view value.now)) result }
{
    array_of(alloc, path, count, value)?;
    List::from_json(alloc, path, value)
}

fn second_values(
    alloc: Global,
    count: usize,
    path: &Path,
    value: &Tree,
) -> Result<List<ContextValue>, ValueFault>
    ensures { Gives is_memory (given_or (context_values_at count) [] (pointer path.now) (codes "context_values") (view value.now)) result }
{
    let here = Path::Key {
        above: path,
        key: "context_values",
    };
    match value.get("context_values") {
        Some(found) => context_values(alloc, count, &here, found),
        None => Ok(List::new(alloc)),
    }
}

fn root_values(
    alloc: Global,
    format: Format,
    root: &HirFunction,
    path: &Path,
    value: &Tree,
) -> Result<List<ContextValue>, ValueFault>
    ensures { Gives is_memory (root_values_at format root.now (pointer path.now) (view value.now)) result }
{
    match format {
        Format::First => Ok(List::new(alloc)),
        Format::Second => second_values(alloc, root.context.len(), path, value),
    }
}

const FIRST_KEYS: [&str; 7] = [
    "format",
    "config",
    "types",
    "shapes",
    "identifiers",
    "functions",
    "root",
];

const SECOND_KEYS: [&str; 8] = [
    "format",
    "config",
    "types",
    "shapes",
    "identifiers",
    "functions",
    "root",
    "context_values",
];

fn unit_keys(alloc: Global, format: Format, path: &Path, value: &Tree) -> Result<(), ValueFault>
    ensures { Gives is_memory (unit_keys format (pointer path.now) (view value.now)) result }
{
    match format {
        Format::First => known_keys(alloc, path, &FIRST_KEYS, value),
        Format::Second => known_keys(alloc, path, &SECOND_KEYS, value),
    }
}

/// The root, with what its context places are.
pub fn with_context_values(mut root: HirFunction, context_values: List<ContextValue>) -> HirFunction
    ensures { result ≡ with_context_values root context_values }
{
    root.context_values = context_values;
    root
}

fn environment(alloc: Global, path: &Path, value: &Tree) -> Result<Environment, ValueFault>
    ensures { Gives is_memory (environment_at (pointer path.now) (view value.now)) result }
{
    let config = given_or(alloc, path, "config", value, Config::default())?;
    let types = list_of(alloc, path, "types", value)?;
    let shapes = shapes_of(alloc, path, value)?;
    let identifiers = list_of(alloc, path, "identifiers", value)?;
    let functions = list_of(alloc, path, "functions", value)?;
    Ok(Environment {
        identifiers,
        types,
        functions,
        shapes,
        errors: List::new(alloc),
        interned: InternedReports::new(alloc),
        config,
    })
}

fn rooted(
    alloc: Global,
    format: Format,
    env: Environment,
    path: &Path,
    value: &Tree,
) -> Result<Unit, ValueFault>
    ensures { Gives is_memory (rooted_at format env (pointer path.now) (view value.now)) result }
{
    let root = required(alloc, path, "root", value)?;
    let values = root_values(alloc, format, &root, path, value)?;
    unit_keys(alloc, format, path, value)?;
    Ok(Unit {
        function: with_context_values(root, values),
        env,
    })
}

impl FromJson for Unit {
    ghost reads = { unit_at };

    fn from_json(alloc: Global, path: &Path, value: &Tree) -> Result<Unit, ValueFault> {
        object(alloc, path, value)?;
        let format = required(alloc, path, "format", value)?;
        let env = environment(alloc, path, value)?;
        rooted(alloc, format, env, path, value)
    }
}

/// The unit that the bytes spell, or why they spell none, by way of their tree.
pub fn read_unit_by_tree(alloc: Global, bytes: &[u8]) -> Result<Unit, TextFault>
    ensures reads { ReadsUnit bytes.now result }
    ensures unit { IfOk result (λ u. UnitReading bytes.now u) }
    ensures none { IfErr result (λ e. ¬ IsMemory e → NoUnit bytes.now) }
{
    let mut scratch = Scratch::new(alloc);
    let arena = Bump::new(alloc);
    match read_tree(alloc, bytes, &mut scratch, &arena) {
        Ok(tree) => Ok(Unit::from_json(alloc, &Path::Root, &tree)?),
        Err(TreeFault::NotJson) => Err(TextFault::NotJson),
        Err(TreeFault::Memory(e)) => Err(TextFault::Memory(e)),
    }
}
