//! Takes what a destructuring assigns to.
ghost use Rattle.std.specs.Prelude.{◌<◌, IfOk, option_map};
ghost use Rattle.alias_straight.specs.Kinds.{TakesKind};
ghost use Rattle.alias_straight.specs.Members.{from_key};
ghost use Rattle.alias_read.specs.declared.value_kinds.InstructionValueKind.TheVariants.{Destructure};

use crate::fault::TakeFault;
use crate::members::{close_object, is_next, open_object, take_member};
use crate::places::{take_place_behind, take_spread_behind};
use crate::tokens::FromTokens;
use alias_hir::value::{
    ArrayPattern, ArrayPatternElement, InstructionValue, LValuePattern, ObjectPattern, Pattern,
};
use json::{Reader, Token};
use std::alloc::Global;

impl FromTokens for ArrayPatternElement {
    fn from_tokens(
        alloc: Global,
        reader: &mut Reader,
        depth: usize,
    ) -> Result<ArrayPatternElement, TakeFault> {
        let token = reader.next().ok_or(TakeFault::Unusual)?;
        match token {
            Token::BeginObject => {
                let spread = take_spread_behind(alloc, reader, depth)?;
                Ok(ArrayPatternElement::Spread(spread))
            }
            Token::String(text) => {
                if text != "hole" {
                    return Err(TakeFault::Unusual);
                }
                Ok(ArrayPatternElement::Hole)
            }
            _ => {
                let place = take_place_behind(token, reader, depth)?;
                Ok(ArrayPatternElement::Place(place))
            }
        }
    }
}

impl FromTokens for Pattern {
    fn from_tokens(alloc: Global, reader: &mut Reader, depth: usize) -> Result<Pattern, TakeFault> {
        if depth == 0 {
            return Err(TakeFault::Unusual);
        }
        let inner = depth - 1;
        let mut next = open_object(reader)?;
        if is_next(next, "array") {
            let items = take_member(alloc, reader, inner, &mut next, "array")?;
            close_object(next)?;
            return Ok(Pattern::Array(ArrayPattern { items }));
        }
        let properties = take_member(alloc, reader, inner, &mut next, "object")?;
        close_object(next)?;
        Ok(Pattern::Object(ObjectPattern { properties }))
    }
}

impl FromTokens for LValuePattern {
    fn from_tokens(
        alloc: Global,
        reader: &mut Reader,
        depth: usize,
    ) -> Result<LValuePattern, TakeFault> {
        if depth == 0 {
            return Err(TakeFault::Unusual);
        }
        let inner = depth - 1;
        let mut next = open_object(reader)?;
        let kind = take_member(alloc, reader, inner, &mut next, "kind")?;
        let pattern = take_member(alloc, reader, inner, &mut next, "pattern")?;
        close_object(next)?;
        Ok(LValuePattern { pattern, kind })
    }
}

/// Takes what a destructuring assigns to, and what it takes apart.
pub fn take_destructure<'a>(
    alloc: Global,
    reader: &mut Reader<'a>,
    depth: usize,
    mut next: Option<&'a str>,
) -> Result<InstructionValue, TakeFault>
    requires { 0 < depth }
    ensures { IfOk result (λ v. TakesKind Destructure depth (from_key (option_map (λ k. k.now) next.entry) reader.old) v reader.new) }
{
    let lvalue = take_member(alloc, reader, depth - 1, &mut next, "lvalue")?;
    let value = take_member(alloc, reader, depth - 1, &mut next, "value")?;
    close_object(next)?;
    Ok(InstructionValue::Destructure { lvalue, value })
}
