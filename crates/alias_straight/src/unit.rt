//! Reads a whole unit.
ghost use Rattle.std.specs.Prelude.{◌≡◌, ◌<◌, [], Some, Ok, IfOk, IfErr, option_map, codes};
ghost use Rattle.json.specs.Json.{value};
ghost use Rattle.serde_json.specs.Data.{Data};
ghost use Rattle.serde_json.specs.Read.{of_json, converted, read};
ghost use Rattle.alias_json.specs.Tree.{view};
ghost use Rattle.alias_json.specs.Pointer.{at_key};
ghost use Rattle.alias_read.specs.Fault.{IsMemory};
ghost use Rattle.alias_read.specs.Json.{if_given, list_at};
ghost use Rattle.alias_read.specs.Shapes.{shapes_at};
ghost use Rattle.alias_read.specs.Tables.{unset, config_at};
ghost use Rattle.alias_read.specs.Types.{type_at};
ghost use Rattle.alias_read.specs.Units.{unit_of, ReadsUnit, UnitReading, NoUnit};
ghost use Rattle.alias_straight.specs.Entries.{as_is};
ghost use Rattle.alias_straight.specs.Members.{from_key, MayTake};
ghost use Rattle.alias_straight.specs.Units.{given_values};

use crate::fault::TakeFault;
use crate::members::{close_object, is_next, next_key, open_object, take_list, take_member};
use crate::tokens::{FromTokens, take_number};
use alias_base::List;
use alias_hir::env::{Config, Environment, Unit};
use alias_hir::hir::{ContextValue, HirFunction};
use alias_hir::interned::InternedReports;
use alias_hir::shapes::Shapes;
use alias_hir::types::Ty;
use alias_json::{Bump, Path, Scratch, Tree, take_tree};
use alias_read::TextFault;
use alias_read::json::FromJson;
use alias_read::unit::{Format, context_values, read_unit_by_tree, with_context_values};
use json::Reader;
use std::alloc::Global;

// How deep arrays and objects may nest.
const MAX_DEPTH: usize = 127;

impl FromTokens for Format {
    fn from_tokens(
        _alloc: Global,
        reader: &mut Reader,
        _depth: usize,
    ) -> Result<Format, TakeFault> {
        let number = take_number(reader)?;
        match number {
            1 => Ok(Format::First),
            2 => Ok(Format::Second),
            _ => Err(TakeFault::Unusual),
        }
    }
}

/// Takes the tree of a key's value, and the key behind it, if it is next.
fn take_part<'a>(
    alloc: Global,
    reader: &mut Reader<'a>,
    arena: &'a Bump,
    depth: usize,
    next: &mut Option<&'a str>,
    key: &str,
) -> Result<Option<Tree<'a>>, TakeFault>
    ensures { IfOk result (λ part. MayTake as_is depth (from_key (option_map (λ k. k.now) next.old) reader.old) key.now (option_map view part) (from_key (option_map (λ k. k.now) next.new) reader.new)) }
{
    if !is_next(*next, key) {
        return Ok(None);
    }
    let tree = take_tree(alloc, reader, arena, depth)?;
    *next = next_key(reader)?;
    Ok(Some(tree))
}

/// What the part of a unit that stands at a key is, or the default.
fn read_part<T: FromJson + Drop>(
    alloc: Global,
    key: &str,
    part: Option<Tree>,
    default: T,
) -> Result<T, TakeFault>
    ensures { IfOk result (λ x. if_given T.reads default (at_key [] key.now) (option_map view part.entry) ≡ Ok x) }
{
    let Some(tree) = part else {
        return Ok(default);
    };
    let here = Path::Key {
        above: &Path::Root,
        key,
    };
    let read = T::from_json(alloc, &here, &tree)?;
    Ok(read)
}

fn read_config(alloc: Global, part: Option<Tree>) -> Result<Config, TakeFault>
    ensures { IfOk result (λ config. if_given config_at unset (at_key [] (codes "config")) (option_map view part.entry) ≡ Ok config) }
{
    read_part(alloc, "config", part, Config::default())
}

fn read_types(alloc: Global, part: Option<Tree>) -> Result<List<Ty>, TakeFault>
    ensures { IfOk result (λ types. if_given (list_at type_at) [] (at_key [] (codes "types")) (option_map view part.entry) ≡ Ok types) }
{
    read_part(alloc, "types", part, List::new(alloc))
}

fn read_shapes(alloc: Global, part: Option<Tree>) -> Result<Shapes, TakeFault>
    ensures { IfOk result (λ shapes. if_given shapes_at [] (at_key [] (codes "shapes")) (option_map view part.entry) ≡ Ok shapes) }
{
    read_part(alloc, "shapes", part, Shapes::new(alloc))
}

/// What the context places of the root are, of which the first format says nothing.
fn read_values(
    alloc: Global,
    format: Format,
    root: &HirFunction,
    part: Option<Tree>,
) -> Result<List<ContextValue>, TakeFault>
    ensures { IfOk result (λ values. given_values (option_map view part.entry) format root.now ≡ Ok values) }
{
    let Some(tree) = part else {
        return Ok(List::new(alloc));
    };
    let here = Path::Key {
        above: &Path::Root,
        key: "context_values",
    };
    match format {
        Format::First => Err(TakeFault::Unusual),
        Format::Second => {
            let values = context_values(alloc, root.context.len(), &here, &tree)?;
            Ok(values)
        }
    }
}

/// Takes a unit. Its types and its shapes, which are few, are read by their trees.
fn take_unit<'a>(
    alloc: Global,
    reader: &mut Reader<'a>,
    arena: &'a Bump,
    depth: usize,
) -> Result<Unit, TakeFault>
    requires { 0 < depth }
    ensures { IfOk result (λ u. (d : Data) × (converted of_json (value depth reader.old) ≡ Some (d, reader.new)) × (unit_of d ≡ Ok u)) }
{
    let inner = depth - 1;
    let mut next = open_object(reader)?;
    let format = take_member(alloc, reader, inner, &mut next, "format")?;
    let config_part = take_part(alloc, reader, arena, inner, &mut next, "config")?;
    let types_part = take_part(alloc, reader, arena, inner, &mut next, "types")?;
    let shapes_part = take_part(alloc, reader, arena, inner, &mut next, "shapes")?;
    let identifiers = take_list(alloc, reader, inner, &mut next, "identifiers")?;
    let functions = take_list(alloc, reader, inner, &mut next, "functions")?;
    let root: HirFunction = take_member(alloc, reader, inner, &mut next, "root")?;
    let values_part = take_part(alloc, reader, arena, inner, &mut next, "context_values")?;
    close_object(next)?;
    let config = read_config(alloc, config_part)?;
    let types = read_types(alloc, types_part)?;
    let shapes = read_shapes(alloc, shapes_part)?;
    let context_values = read_values(alloc, format, &root, values_part)?;
    Ok(Unit {
        function: with_context_values(root, context_values),
        env: Environment {
            identifiers,
            types,
            functions,
            shapes,
            errors: List::new(alloc),
            interned: InternedReports::new(alloc),
            config,
        },
    })
}

/// Takes the unit that a whole text is.
fn unit_of_text(alloc: Global, text: &str) -> Result<Unit, TakeFault>
    ensures { IfOk result (λ u. (d : Data) × (read text.now ≡ Some d) × (unit_of d ≡ Ok u)) }
{
    let mut scratch = Scratch::new(alloc);
    let arena = Bump::new(alloc);
    let mut reader = Reader::new(text, &mut scratch)?;
    let unit = take_unit(alloc, &mut reader, &arena, MAX_DEPTH)?;
    if reader.next().is_some() {
        return Err(TakeFault::Unusual);
    }
    Ok(unit)
}

/// The unit that the bytes spell, where it is written in the usual way.
pub fn straight_unit(alloc: Global, bytes: &[u8]) -> Result<Unit, TakeFault>
    ensures { IfOk result (λ u. UnitReading bytes.now u) }
{
    let Ok(text) = simdutf8::compat::from_utf8(bytes) else {
        return Err(TakeFault::Unusual);
    };
    let unit = unit_of_text(alloc, text)?;
    Ok(unit)
}

/// The unit that the bytes spell, or why they spell none.
pub fn read_unit(alloc: Global, bytes: &[u8]) -> Result<Unit, TextFault>
    ensures reads { ReadsUnit bytes.now result }
    ensures unit { IfOk result (λ u. UnitReading bytes.now u) }
    ensures none { IfErr result (λ e. ¬ IsMemory e → NoUnit bytes.now) }
{
    match straight_unit(alloc, bytes) {
        Ok(unit) => Ok(unit),
        Err(TakeFault::Unusual) => read_unit_by_tree(alloc, bytes),
        Err(TakeFault::Memory(e)) => Err(TextFault::Memory(e)),
    }
}
