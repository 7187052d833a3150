//! Reads places, and what may stand where a place may.
ghost use Rattle.std.specs.Prelude.{◌≡◌, Result};
ghost use Rattle.alias_json.specs.Tree.{view};
ghost use Rattle.alias_base.specs.Answer.{Gives};
ghost use Rattle.alias_json.specs.Pointer.{pointer};
ghost use Rattle.alias_json.specs.Fault.{is_memory};
ghost use Rattle.alias_read.specs.Places.{span_at, place_of, spanned_at, unspanned_at, place_at, spread_at, argument_at, param_at};

use crate::json::{FromJson, element, required};
use alias_base::IdentifierId;
use alias_hir::hir::ParamPattern;
use alias_hir::place::{Effect, Place, PlaceOrSpread, Span, SpreadPattern};
use alias_json::{Path, Tree, ValueFault, array_of, known_keys, object};
use std::alloc::Global;

impl FromJson for Span {
    ghost reads = { span_at };

    fn from_json(alloc: Global, path: &Path, value: &Tree) -> Result<Span, ValueFault> {
        array_of(alloc, path, 2, value)?;
        let start = element(alloc, path, 0, value)?;
        let end = element(alloc, path, 1, value)?;
        Ok(Span { start, end })
    }
}

fn place_of(number: u32, span: Option<Span>) -> Place
    ensures { result ≡ place_of number span }
{
    Place {
        identifier: IdentifierId(number),
        effect: Effect::Unknown,
        reactive: false,
        span,
    }
}

fn spanned(alloc: Global, path: &Path, value: &Tree) -> Result<Place, ValueFault>
    ensures { Gives is_memory (spanned_at (pointer path.now) (view value.now)) result }
{
    array_of(alloc, path, 3, value)?;
    let identifier = element(alloc, path, 0, value)?;
    let start = element(alloc, path, 1, value)?;
    let end = element(alloc, path, 2, value)?;
    Ok(place_of(identifier, Some(Span { start, end })))
}

fn unspanned(alloc: Global, path: &Path, value: &Tree) -> Result<Place, ValueFault>
    ensures { Gives is_memory (unspanned_at (pointer path.now) (view value.now)) result }
{
    Ok(place_of(u32::from_json(alloc, path, value)?, None))
}

impl FromJson for Place {
    ghost reads = { place_at };

    fn from_json(alloc: Global, path: &Path, value: &Tree) -> Result<Place, ValueFault> {
        if value.is_array() {
            spanned(alloc, path, value)
        } else {
            unspanned(alloc, path, value)
        }
    }
}

impl FromJson for SpreadPattern {
    ghost reads = { spread_at };

    fn from_json(alloc: Global, path: &Path, value: &Tree) -> Result<SpreadPattern, ValueFault> {
        object(alloc, path, value)?;
        let place = required(alloc, path, "spread", value)?;
        known_keys(alloc, path, &["spread"], value)?;
        Ok(SpreadPattern { place })
    }
}

impl FromJson for PlaceOrSpread {
    ghost reads = { argument_at };

    fn from_json(alloc: Global, path: &Path, value: &Tree) -> Result<PlaceOrSpread, ValueFault> {
        if value.is_object() {
            let spread = SpreadPattern::from_json(alloc, path, value)?;
            Ok(PlaceOrSpread::Spread(spread))
        } else {
            Ok(PlaceOrSpread::Place(Place::from_json(alloc, path, value)?))
        }
    }
}

impl FromJson for ParamPattern {
    ghost reads = { param_at };

    fn from_json(alloc: Global, path: &Path, value: &Tree) -> Result<ParamPattern, ValueFault> {
        if value.is_object() {
            let spread = SpreadPattern::from_json(alloc, path, value)?;
            Ok(ParamPattern::Spread(spread))
        } else {
            Ok(ParamPattern::Place(Place::from_json(alloc, path, value)?))
        }
    }
}
