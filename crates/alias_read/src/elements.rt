//! Reads elements, properties and the parts of JSX.
ghost use Rattle.std.specs.Prelude.{◌≡◌, Result};
ghost use Rattle.alias_json.specs.Tree.{view};
ghost use Rattle.alias_base.specs.Answer.{Gives};
ghost use Rattle.alias_json.specs.Pointer.{pointer};
ghost use Rattle.alias_json.specs.Fault.{is_memory};
ghost use Rattle.alias_read.specs.Elements.{hole_at, array_element_at, pattern_element_at, keyed_at, property_at, literal_of, literal_at, tag_of, tag_at, attribute_at};

use crate::json::{FromJson, optional, required};
use alias_base::Text;
use alias_hir::place::{Place, SpreadPattern};
use alias_hir::value::{
    ArrayElement, ArrayPatternElement, JsxAttribute, JsxTag, ObjectProperty,
    ObjectPropertyOrSpread, PropertyLiteral,
};
use alias_json::{Path, TextRule, Tree, ValueFault, known_keys, object, refused};
use std::alloc::Global;

fn hole(alloc: Global, path: &Path, value: &Tree) -> Result<(), ValueFault>
    ensures { Gives is_memory (hole_at (pointer path.now) (view value.now)) result }
{
    match value.as_str() {
        Some("hole") => Ok(()),
        Some(_) => refused(alloc, path, TextRule::Name),
        None => refused(alloc, path, TextRule::Kind),
    }
}

impl FromJson for ArrayElement {
    ghost reads = { array_element_at };

    fn from_json(alloc: Global, path: &Path, value: &Tree) -> Result<ArrayElement, ValueFault> {
        if value.is_string() {
            hole(alloc, path, value)?;
            Ok(ArrayElement::Hole)
        } else if value.is_object() {
            let spread = SpreadPattern::from_json(alloc, path, value)?;
            Ok(ArrayElement::Spread(spread))
        } else {
            Ok(ArrayElement::Place(Place::from_json(alloc, path, value)?))
        }
    }
}

impl FromJson for ArrayPatternElement {
    ghost reads = { pattern_element_at };

    fn from_json(
        alloc: Global,
        path: &Path,
        value: &Tree,
    ) -> Result<ArrayPatternElement, ValueFault> {
        if value.is_string() {
            hole(alloc, path, value)?;
            Ok(ArrayPatternElement::Hole)
        } else if value.is_object() {
            let spread = SpreadPattern::from_json(alloc, path, value)?;
            Ok(ArrayPatternElement::Spread(spread))
        } else {
            Ok(ArrayPatternElement::Place(Place::from_json(alloc, path, value)?))
        }
    }
}

fn keyed(alloc: Global, path: &Path, value: &Tree) -> Result<ObjectPropertyOrSpread, ValueFault>
    ensures { Gives is_memory (keyed_at (pointer path.now) (view value.now)) result }
{
    let computed = optional(alloc, path, "computed", value)?;
    let place = required(alloc, path, "place", value)?;
    known_keys(alloc, path, &["computed", "place"], value)?;
    let property = ObjectProperty { computed, place };
    Ok(ObjectPropertyOrSpread::Property(property))
}

impl FromJson for ObjectPropertyOrSpread {
    ghost reads = { property_at };

    fn from_json(
        alloc: Global,
        path: &Path,
        value: &Tree,
    ) -> Result<ObjectPropertyOrSpread, ValueFault> {
        object(alloc, path, value)?;
        if value.get("spread").is_some() {
            let spread = SpreadPattern::from_json(alloc, path, value)?;
            Ok(ObjectPropertyOrSpread::Spread(spread))
        } else {
            keyed(alloc, path, value)
        }
    }
}

fn literal_of(name: Option<Text>) -> PropertyLiteral
    ensures { result ≡ literal_of name }
{
    match name {
        None => PropertyLiteral::Number,
        Some(text) => PropertyLiteral::String(text),
    }
}

impl FromJson for PropertyLiteral {
    ghost reads = { literal_at };

    fn from_json(alloc: Global, path: &Path, value: &Tree) -> Result<PropertyLiteral, ValueFault> {
        Ok(literal_of(Option::<Text>::from_json(alloc, path, value)?))
    }
}

fn tag_of(place: Option<Place>) -> JsxTag
    ensures { result ≡ tag_of place }
{
    match place {
        None => JsxTag::Builtin,
        Some(place) => JsxTag::Place(place),
    }
}

impl FromJson for JsxTag {
    ghost reads = { tag_at };

    fn from_json(alloc: Global, path: &Path, value: &Tree) -> Result<JsxTag, ValueFault> {
        Ok(tag_of(Option::<Place>::from_json(alloc, path, value)?))
    }
}

impl FromJson for JsxAttribute {
    ghost reads = { attribute_at };

    fn from_json(alloc: Global, path: &Path, value: &Tree) -> Result<JsxAttribute, ValueFault> {
        if value.is_object() {
            let spread = SpreadPattern::from_json(alloc, path, value)?;
            let place = spread.place;
            Ok(JsxAttribute::Spread { place })
        } else {
            let place = Place::from_json(alloc, path, value)?;
            Ok(JsxAttribute::Attribute { place })
        }
    }
}
