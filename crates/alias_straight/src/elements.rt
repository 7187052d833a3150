//! Takes elements, properties and the parts of JSX.
use crate::fault::TakeFault;
use crate::members::{close_object, is_next, open_object, take_member, take_optional};
use crate::places::{take_place_behind, take_spread_behind};
use crate::tokens::FromTokens;
use alias_base::Text;
use alias_hir::place::SpreadPattern;
use alias_hir::value::{
    ArrayElement, JsxAttribute, JsxTag, ObjectProperty, ObjectPropertyOrSpread, PropertyLiteral,
};
use json::{Reader, Token};
use std::alloc::Global;

impl FromTokens for ArrayElement {
    fn from_tokens(
        alloc: Global,
        reader: &mut Reader,
        depth: usize,
    ) -> Result<ArrayElement, TakeFault> {
        let token = reader.next().ok_or(TakeFault::Unusual)?;
        match token {
            Token::BeginObject => {
                let spread = take_spread_behind(alloc, reader, depth)?;
                Ok(ArrayElement::Spread(spread))
            }
            Token::String(text) => {
                if text != "hole" {
                    return Err(TakeFault::Unusual);
                }
                Ok(ArrayElement::Hole)
            }
            _ => {
                let place = take_place_behind(token, reader, depth)?;
                Ok(ArrayElement::Place(place))
            }
        }
    }
}

impl FromTokens for JsxAttribute {
    fn from_tokens(
        alloc: Global,
        reader: &mut Reader,
        depth: usize,
    ) -> Result<JsxAttribute, TakeFault> {
        let token = reader.next().ok_or(TakeFault::Unusual)?;
        match token {
            Token::BeginObject => {
                let spread = take_spread_behind(alloc, reader, depth)?;
                Ok(JsxAttribute::Spread {
                    place: spread.place,
                })
            }
            _ => {
                let place = take_place_behind(token, reader, depth)?;
                Ok(JsxAttribute::Attribute { place })
            }
        }
    }
}

impl FromTokens for JsxTag {
    fn from_tokens(_alloc: Global, reader: &mut Reader, depth: usize) -> Result<JsxTag, TakeFault> {
        let token = reader.next().ok_or(TakeFault::Unusual)?;
        match token {
            Token::Null => Ok(JsxTag::Builtin),
            _ => {
                let place = take_place_behind(token, reader, depth)?;
                Ok(JsxTag::Place(place))
            }
        }
    }
}

impl FromTokens for PropertyLiteral {
    fn from_tokens(
        alloc: Global,
        reader: &mut Reader,
        _depth: usize,
    ) -> Result<PropertyLiteral, TakeFault> {
        let token = reader.next().ok_or(TakeFault::Unusual)?;
        match token {
            Token::Null => Ok(PropertyLiteral::Number),
            Token::String(text) => {
                let name = Text::from_str(alloc, text)?;
                Ok(PropertyLiteral::String(name))
            }
            _ => Err(TakeFault::Unusual),
        }
    }
}

impl FromTokens for ObjectPropertyOrSpread {
    fn from_tokens(
        alloc: Global,
        reader: &mut Reader,
        depth: usize,
    ) -> Result<ObjectPropertyOrSpread, TakeFault> {
        if depth == 0 {
            return Err(TakeFault::Unusual);
        }
        let inner = depth - 1;
        let mut next = open_object(reader)?;
        if is_next(next, "spread") {
            let spread = take_member(alloc, reader, inner, &mut next, "spread")?;
            close_object(next)?;
            return Ok(ObjectPropertyOrSpread::Spread(SpreadPattern { place: spread }));
        }
        let computed = take_optional(alloc, reader, inner, &mut next, "computed")?;
        let place = take_member(alloc, reader, inner, &mut next, "place")?;
        close_object(next)?;
        Ok(ObjectPropertyOrSpread::Property(ObjectProperty { computed, place }))
    }
}
