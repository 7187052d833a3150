//! The places of the parts of an instruction.
ghost use Rattle.std.specs.Prelude.{◌≡◌, [], ◌∷◌, ◌++◌, OnOk};
ghost use Rattle.std.specs.List.{flat_map};
ghost use Rattle.alias_hir.specs.Parts.{optional_place, arg_places, apply_arg_places, element_places, item_places, property_places, target_places, pattern_places, places_in_pattern, tag_places, attribute_places};

use alias_hir::place::{Place, PlaceOrSpread, PlaceOrSpreadOrHole};
use alias_hir::value::{
    ArrayElement, ArrayPatternElement, JsxAttribute, JsxTag, ObjectPropertyOrSpread, Pattern,
};
use smallvec::SmallVec;
use std::alloc::{AllocError, Global};

/// Places in order, few of them in most instructions.
pub type PlaceList = SmallVec<Place, 8, Global>;

/// Appends a place.
pub fn push_one(places: &mut PlaceList, place: Place) -> Result<(), AllocError>
    ensures { OnOk result (places.new.items ≡ places.old.items ++ place ∷ []) }
{
    places.push(place)?;
    Ok(())
}

/// Appends two places.
pub fn push_two(places: &mut PlaceList, first: Place, second: Place) -> Result<(), AllocError>
    ensures { OnOk result (places.new.items ≡ places.old.items ++ first ∷ second ∷ []) }
{
    places.push(first)?;
    places.push(second)?;
    Ok(())
}

/// Appends three places.
pub fn push_three(
    places: &mut PlaceList,
    first: Place,
    second: Place,
    third: Place,
) -> Result<(), AllocError>
    ensures { OnOk result (places.new.items ≡ places.old.items ++ first ∷ second ∷ third ∷ []) }
{
    places.push(first)?;
    places.push(second)?;
    places.push(third)?;
    Ok(())
}

/// Appends places.
pub fn push_places(places: &mut PlaceList, more: &[Place]) -> Result<(), AllocError>
    ensures { OnOk result (places.new.items ≡ places.old.items ++ more.now) }
{
    for place in more {
        places.push(*place)?;
    }
    Ok(())
}

/// Appends a place where it is there.
pub fn push_optional(places: &mut PlaceList, place: &Option<Place>) -> Result<(), AllocError>
    ensures { OnOk result (places.new.items ≡ places.old.items ++ optional_place place.now) }
{
    if let Some(place) = place {
        places.push(*place)?;
    }
    Ok(())
}

fn push_arg(places: &mut PlaceList, arg: &PlaceOrSpread) -> Result<(), AllocError>
    ensures { OnOk result (places.new.items ≡ places.old.items ++ arg_places arg.now) }
{
    match arg {
        PlaceOrSpread::Place(place) => places.push(*place)?,
        PlaceOrSpread::Spread(s) => places.push(s.place)?,
    }
    Ok(())
}

/// Appends the places of arguments.
pub fn push_args(places: &mut PlaceList, args: &[PlaceOrSpread]) -> Result<(), AllocError>
    ensures { OnOk result (places.new.items ≡ places.old.items ++ flat_map arg_places args.now) }
{
    for arg in args {
        push_arg(places, arg)?;
    }
    Ok(())
}

fn push_apply_arg(places: &mut PlaceList, arg: &PlaceOrSpreadOrHole) -> Result<(), AllocError>
    ensures { OnOk result (places.new.items ≡ places.old.items ++ apply_arg_places arg.now) }
{
    match arg {
        PlaceOrSpreadOrHole::Place(place) => places.push(*place)?,
        PlaceOrSpreadOrHole::Spread(s) => places.push(s.place)?,
        PlaceOrSpreadOrHole::Hole => {}
    }
    Ok(())
}

/// Appends the places of the arguments of an Apply; holes have none.
pub fn push_apply_args(
    places: &mut PlaceList,
    args: &[PlaceOrSpreadOrHole],
) -> Result<(), AllocError>
    ensures { OnOk result (places.new.items ≡ places.old.items ++ flat_map apply_arg_places args.now) }
{
    for arg in args {
        push_apply_arg(places, arg)?;
    }
    Ok(())
}

fn push_element(places: &mut PlaceList, element: &ArrayElement) -> Result<(), AllocError>
    ensures { OnOk result (places.new.items ≡ places.old.items ++ element_places element.now) }
{
    match element {
        ArrayElement::Place(place) => places.push(*place)?,
        ArrayElement::Spread(s) => places.push(s.place)?,
        ArrayElement::Hole => {}
    }
    Ok(())
}

/// Appends the places of elements; holes have none.
pub fn push_elements(places: &mut PlaceList, elements: &[ArrayElement]) -> Result<(), AllocError>
    ensures { OnOk result (places.new.items ≡ places.old.items ++ flat_map element_places elements.now) }
{
    for element in elements {
        push_element(places, element)?;
    }
    Ok(())
}

fn push_property(
    places: &mut PlaceList,
    property: &ObjectPropertyOrSpread,
) -> Result<(), AllocError>
    ensures { OnOk result (places.new.items ≡ places.old.items ++ property_places property.now) }
{
    match property {
        ObjectPropertyOrSpread::Property(p) => {
            push_optional(places, &p.computed)?;
            places.push(p.place)?;
        }
        ObjectPropertyOrSpread::Spread(s) => places.push(s.place)?,
    }
    Ok(())
}

/// Appends the places of properties: keys where they are computed, and values.
pub fn push_properties(
    places: &mut PlaceList,
    properties: &[ObjectPropertyOrSpread],
) -> Result<(), AllocError>
    ensures { OnOk result (places.new.items ≡ places.old.items ++ flat_map property_places properties.now) }
{
    for property in properties {
        push_property(places, property)?;
    }
    Ok(())
}

fn push_item(places: &mut PlaceList, item: &ArrayPatternElement) -> Result<(), AllocError>
    ensures { OnOk result (places.new.items ≡ places.old.items ++ item_places item.now) }
{
    match item {
        ArrayPatternElement::Place(place) => places.push(*place)?,
        ArrayPatternElement::Spread(s) => places.push(s.place)?,
        ArrayPatternElement::Hole => {}
    }
    Ok(())
}

fn push_items(places: &mut PlaceList, items: &[ArrayPatternElement]) -> Result<(), AllocError>
    ensures { OnOk result (places.new.items ≡ places.old.items ++ flat_map item_places items.now) }
{
    for item in items {
        push_item(places, item)?;
    }
    Ok(())
}

fn push_target(places: &mut PlaceList, property: &ObjectPropertyOrSpread) -> Result<(), AllocError>
    ensures { OnOk result (places.new.items ≡ places.old.items ++ target_places property.now) }
{
    match property {
        ObjectPropertyOrSpread::Property(p) => places.push(p.place)?,
        ObjectPropertyOrSpread::Spread(s) => places.push(s.place)?,
    }
    Ok(())
}

fn push_targets(
    places: &mut PlaceList,
    properties: &[ObjectPropertyOrSpread],
) -> Result<(), AllocError>
    ensures { OnOk result (places.new.items ≡ places.old.items ++ flat_map target_places properties.now) }
{
    for property in properties {
        push_target(places, property)?;
    }
    Ok(())
}

/// Appends what the pattern assigns to.
pub fn push_pattern(places: &mut PlaceList, pattern: &Pattern) -> Result<(), AllocError>
    ensures { OnOk result (places.new.items ≡ places.old.items ++ pattern_places pattern.now) }
{
    match pattern {
        Pattern::Array(p) => push_items(places, p.items.as_slice()),
        Pattern::Object(p) => push_targets(places, p.properties.as_slice()),
    }
}

/// Appends all places of the pattern, its computed keys too.
pub fn push_in_pattern(places: &mut PlaceList, pattern: &Pattern) -> Result<(), AllocError>
    ensures { OnOk result (places.new.items ≡ places.old.items ++ places_in_pattern pattern.now) }
{
    match pattern {
        Pattern::Array(p) => push_items(places, p.items.as_slice()),
        Pattern::Object(p) => push_properties(places, p.properties.as_slice()),
    }
}

/// Appends the place of a tag; a name that is built in has none.
pub fn push_tag(places: &mut PlaceList, tag: &JsxTag) -> Result<(), AllocError>
    ensures { OnOk result (places.new.items ≡ places.old.items ++ tag_places tag.now) }
{
    if let JsxTag::Place(place) = tag {
        places.push(*place)?;
    }
    Ok(())
}

fn push_attribute(places: &mut PlaceList, attribute: &JsxAttribute) -> Result<(), AllocError>
    ensures { OnOk result (places.new.items ≡ places.old.items ++ attribute_places attribute.now) }
{
    match attribute {
        JsxAttribute::Attribute { place } => places.push(*place)?,
        JsxAttribute::Spread { place } => places.push(*place)?,
    }
    Ok(())
}

/// Appends the places of attributes.
pub fn push_attributes(
    places: &mut PlaceList,
    attributes: &[JsxAttribute],
) -> Result<(), AllocError>
    ensures { OnOk result (places.new.items ≡ places.old.items ++ flat_map attribute_places attributes.now) }
{
    for attribute in attributes {
        push_attribute(places, attribute)?;
    }
    Ok(())
}
