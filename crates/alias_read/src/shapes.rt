//! Reads shapes, no two of one name.
ghost use Rattle.std.specs.Prelude.{◌≡◌, [], Result, codes};
ghost use Rattle.alias_json.specs.Tree.{view, items_view};
ghost use Rattle.alias_base.specs.Answer.{Gives};
ghost use Rattle.alias_json.specs.Pointer.{pointer};
ghost use Rattle.alias_json.specs.Fault.{is_memory};
ghost use Rattle.alias_read.specs.Json.{given_or};
ghost use Rattle.alias_read.specs.Shapes.{new_name, shape_named, shape_at, shape_items_at, shapes_at};

use crate::json::{FromJson, flag, given_or, optional, required};
use alias_base::Text;
use alias_hir::shapes::Shapes;
use alias_hir::signature::Shape;
use alias_json::{Path, TextRule, Tree, ValueFault, known_keys, object, refused};
use std::alloc::Global;

/// The shapes of the key `shapes`, which may be absent.
pub fn shapes_of(alloc: Global, path: &Path, value: &Tree) -> Result<Shapes, ValueFault>
    ensures { Gives is_memory (given_or shapes_at [] (pointer path.now) (codes "shapes") (view value.now)) result }
{
    given_or(alloc, path, "shapes", value, Shapes::new(alloc))
}

impl FromJson for Shapes {
    ghost reads = { shapes_at };

    fn from_json(alloc: Global, path: &Path, value: &Tree) -> Result<Shapes, ValueFault> {
        match value.as_array() {
            Some(values) => shapes(alloc, path, values),
            None => refused(alloc, path, TextRule::Kind),
        }
    }
}

fn shapes(alloc: Global, path: &Path, values: &[Tree]) -> Result<Shapes, ValueFault>
    ensures { Gives is_memory (shape_items_at (pointer path.now) 0 [] (items_view values.now)) result }
{
    let mut found = Shapes::new(alloc);
    for (index, value) in values.iter().enumerate() {
        let here = Path::Index {
            above: &*path,
            index,
        };
        let shape = shape_of(alloc, &found, &here, value)?;
        found.push(shape)?;
    }
    Ok(found)
}

/// A shape that has the name of none of these.
fn shape_of(alloc: Global, found: &Shapes, path: &Path, value: &Tree) -> Result<Shape, ValueFault>
    ensures { Gives is_memory (shape_at found.now (pointer path.now) (view value.now)) result }
{
    object(alloc, path, value)?;
    let id: Text = required(alloc, path, "id", value)?;
    let here = Path::Key {
        above: path,
        key: "id",
    };
    new_name(alloc, found, &here, id.as_str())?;
    shape_named(alloc, id, path, value)
}

fn shape_named(alloc: Global, id: Text, path: &Path, value: &Tree) -> Result<Shape, ValueFault>
    ensures { Gives is_memory (shape_named id (pointer path.now) (view value.now)) result }
{
    let hook = flag(alloc, path, "hook", value)?;
    let signature = optional(alloc, path, "signature", value)?;
    known_keys(alloc, path, &["id", "hook", "signature"], value)?;
    Ok(Shape {
        id,
        hook,
        signature,
    })
}

fn new_name(alloc: Global, found: &Shapes, path: &Path, name: &str) -> Result<(), ValueFault>
    ensures { Gives is_memory (new_name found.now (pointer path.now) name.now) result }
{
    if found.named(name).is_some() {
        return refused(alloc, path, TextRule::Twice);
    }
    Ok(())
}
