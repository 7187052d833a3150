//! Takes the instructions that are a kind and places alone.
ghost use Rattle.std.specs.Prelude.{◌<◌, IfOk, option_map};
ghost use Rattle.alias_straight.specs.Kinds.{TakesKind};
ghost use Rattle.alias_straight.specs.Members.{from_key};
ghost use Rattle.alias_read.specs.declared.value_kinds.InstructionValueKind.TheVariants.{Plain, OnePlace, TwoPlaces, PlaceList};

use crate::fault::TakeFault;
use crate::members::{close_object, take_list, take_member};
use alias_hir::value::InstructionValue;
use alias_read::operations::{
    first_key, one_place_key, one_place_with, place_list_key, place_list_with, plain_with,
    second_key, two_places_with,
};
use alias_read::value_kinds::{OnePlaceKind, PlaceListKind, PlainKind, TwoPlacesKind};
use json::Reader;
use std::alloc::Global;

/// Takes the end of an instruction that has no further key.
pub fn take_plain(
    kind: PlainKind,
    reader: &mut Reader,
    depth: usize,
    next: Option<&str>,
) -> Result<InstructionValue, TakeFault>
    ensures { IfOk result (λ v. TakesKind (Plain kind) depth (from_key (option_map (λ k. k.now) next.entry) reader.old) v reader.new) }
{
    close_object(next)?;
    Ok(plain_with(kind))
}

/// Takes the one further place of an instruction.
pub fn take_one_place<'a>(
    alloc: Global,
    kind: OnePlaceKind,
    reader: &mut Reader<'a>,
    depth: usize,
    mut next: Option<&'a str>,
) -> Result<InstructionValue, TakeFault>
    requires { 0 < depth }
    ensures { IfOk result (λ v. TakesKind (OnePlace kind) depth (from_key (option_map (λ k. k.now) next.entry) reader.old) v reader.new) }
{
    let place = take_member(alloc, reader, depth - 1, &mut next, one_place_key(kind))?;
    close_object(next)?;
    Ok(one_place_with(kind, place))
}

/// Takes the two further places of an instruction.
pub fn take_two_places<'a>(
    alloc: Global,
    kind: TwoPlacesKind,
    reader: &mut Reader<'a>,
    depth: usize,
    mut next: Option<&'a str>,
) -> Result<InstructionValue, TakeFault>
    requires { 0 < depth }
    ensures { IfOk result (λ v. TakesKind (TwoPlaces kind) depth (from_key (option_map (λ k. k.now) next.entry) reader.old) v reader.new) }
{
    let first = take_member(alloc, reader, depth - 1, &mut next, first_key(kind))?;
    let second = take_member(alloc, reader, depth - 1, &mut next, second_key(kind))?;
    close_object(next)?;
    Ok(two_places_with(kind, first, second))
}

/// Takes the list of places of an instruction.
pub fn take_place_list<'a>(
    alloc: Global,
    kind: PlaceListKind,
    reader: &mut Reader<'a>,
    depth: usize,
    mut next: Option<&'a str>,
) -> Result<InstructionValue, TakeFault>
    requires { 0 < depth }
    ensures { IfOk result (λ v. TakesKind (PlaceList kind) depth (from_key (option_map (λ k. k.now) next.entry) reader.old) v reader.new) }
{
    let places = take_list(alloc, reader, depth - 1, &mut next, place_list_key(kind))?;
    close_object(next)?;
    Ok(place_list_with(kind, places))
}
