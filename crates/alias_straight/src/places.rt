//! Places.
ghost use Rattle.std.specs.Prelude.{◌≡◌, ◌∷◌, Some, IfSome, IfOk};
ghost use Rattle.serde_json.specs.Data.{unsigned};
ghost use Rattle.serde_json.specs.Read.{number_of};
ghost use Rattle.json.specs.Token as spec;
ghost use Rattle.json.specs.Reads.{token_of};
ghost use Rattle.alias_read.specs.Places.{place_of, place_at, spread_at};
ghost use Rattle.alias_straight.specs.Takes.{Takes};

use crate::fault::TakeFault;
use crate::members::{close_object, next_key, take_member};
use crate::tokens::{FromTokens, open_array, take_number};
use alias_base::IdentifierId;
use alias_hir::hir::ParamPattern;
use alias_hir::place::{Effect, Place, PlaceOrSpread, Span, SpreadPattern};
use alias_json::numeral::number_of;
use json::{Reader, Token};
use std::alloc::Global;

impl FromTokens for Span {
    fn from_tokens(_alloc: Global, reader: &mut Reader, depth: usize) -> Result<Span, TakeFault> {
        if depth == 0 {
            return Err(TakeFault::Unusual);
        }
        open_array(reader)?;
        let start = take_number(reader)?;
        let end = take_number(reader)?;
        if !reader.take_end_array() {
            return Err(TakeFault::Unusual);
        }
        Ok(Span { start, end })
    }
}

fn whole_of(numeral: &str) -> Option<u32>
    ensures { IfSome result (λ n. number_of numeral.now ≡ Some (unsigned n)) }
{
    let number = number_of(numeral)?;
    let whole = number.as_u64()?;
    u32::try_from(whole).ok()
}

fn place_of(identifier: u32, span: Option<Span>) -> Place
    ensures { result ≡ place_of identifier span }
{
    Place {
        identifier: IdentifierId(identifier),
        effect: Effect::Unknown,
        reactive: false,
        span,
    }
}

/// Takes a place of which the first token has been taken.
pub fn take_place_behind<'a>(
    token: Token<'a>,
    reader: &mut Reader<'a>,
    depth: usize,
) -> Result<Place, TakeFault>
    ensures { IfOk result (λ place. Takes place_at depth (token_of token.entry ∷ reader.old) place reader.new) }
{
    match token {
        Token::Number(numeral) => {
            let Some(identifier) = whole_of(numeral) else {
                return Err(TakeFault::Unusual);
            };
            Ok(place_of(identifier, None))
        }
        Token::BeginArray => {
            if depth == 0 {
                return Err(TakeFault::Unusual);
            }
            let identifier = take_number(reader)?;
            let start = take_number(reader)?;
            let end = take_number(reader)?;
            if !reader.take_end_array() {
                return Err(TakeFault::Unusual);
            }
            Ok(place_of(identifier, Some(Span { start, end })))
        }
        _ => Err(TakeFault::Unusual),
    }
}

impl FromTokens for Place {
    fn from_tokens(_alloc: Global, reader: &mut Reader, depth: usize) -> Result<Place, TakeFault> {
        let token = reader.next().ok_or(TakeFault::Unusual)?;
        let place = take_place_behind(token, reader, depth)?;
        Ok(place)
    }
}

impl FromTokens for Option<Place> {
    fn from_tokens(
        _alloc: Global,
        reader: &mut Reader,
        depth: usize,
    ) -> Result<Option<Place>, TakeFault> {
        let token = reader.next().ok_or(TakeFault::Unusual)?;
        match token {
            Token::Null => Ok(None),
            _ => {
                let place = take_place_behind(token, reader, depth)?;
                Ok(Some(place))
            }
        }
    }
}

/// Takes an object that has a place as its spread, of which the brace has been taken.
pub fn take_spread_behind(
    alloc: Global,
    reader: &mut Reader,
    depth: usize,
) -> Result<SpreadPattern, TakeFault>
    ensures { IfOk result (λ spread. Takes spread_at depth (spec.begin_object ∷ reader.old) spread reader.new) }
{
    if depth == 0 {
        return Err(TakeFault::Unusual);
    }
    let mut next = next_key(reader)?;
    let place = take_member(alloc, reader, depth - 1, &mut next, "spread")?;
    close_object(next)?;
    Ok(SpreadPattern { place })
}

impl FromTokens for PlaceOrSpread {
    fn from_tokens(
        alloc: Global,
        reader: &mut Reader,
        depth: usize,
    ) -> Result<PlaceOrSpread, TakeFault> {
        let token = reader.next().ok_or(TakeFault::Unusual)?;
        match token {
            Token::BeginObject => {
                let spread = take_spread_behind(alloc, reader, depth)?;
                Ok(PlaceOrSpread::Spread(spread))
            }
            _ => {
                let place = take_place_behind(token, reader, depth)?;
                Ok(PlaceOrSpread::Place(place))
            }
        }
    }
}

impl FromTokens for ParamPattern {
    fn from_tokens(
        alloc: Global,
        reader: &mut Reader,
        depth: usize,
    ) -> Result<ParamPattern, TakeFault> {
        let token = reader.next().ok_or(TakeFault::Unusual)?;
        match token {
            Token::BeginObject => {
                let spread = take_spread_behind(alloc, reader, depth)?;
                Ok(ParamPattern::Spread(spread))
            }
            _ => {
                let place = take_place_behind(token, reader, depth)?;
                Ok(ParamPattern::Place(place))
            }
        }
    }
}
