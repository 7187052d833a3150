//! What is taken off the tokens: numbers, texts and lists.
ghost use Rattle.std.specs.Prelude.{◌≡◌, ◌∷◌, IfOk};
ghost use Rattle.json.specs.Token as spec;
ghost use Rattle.alias_json.specs.Direct.{IsWhole};
ghost use Rattle.alias_straight.specs.Takes.{Takes};

use crate::fault::TakeFault;
use alias_base::{List, Text};
use alias_json::take_whole;
use alias_read::json::FromJson;
use json::{Reader, Token};
use std::alloc::Global;

/// A type whose values are taken off the tokens, where they are written in the usual way.
pub trait FromTokens: FromJson {
    /// Takes a value, nested no deeper than the number.
    fn from_tokens(alloc: Global, reader: &mut Reader, depth: usize) -> Result<Self, TakeFault>
        ensures { IfOk result (λ x. Takes Self.reads depth reader.old x reader.new) };
}

impl FromTokens for u32 {
    fn from_tokens(_alloc: Global, reader: &mut Reader, _depth: usize) -> Result<u32, TakeFault> {
        let whole = take_number(reader)?;
        Ok(whole)
    }
}

/// Takes a whole number of 32 bits.
pub fn take_number(reader: &mut Reader) -> Result<u32, TakeFault>
    ensures { IfOk result (λ n. IsWhole reader.old n reader.new) }
{
    match take_whole(reader) {
        Some(whole) => Ok(whole),
        None => Err(TakeFault::Unusual),
    }
}

impl FromTokens for bool {
    fn from_tokens(_alloc: Global, reader: &mut Reader, _depth: usize) -> Result<bool, TakeFault> {
        let token = reader.next().ok_or(TakeFault::Unusual)?;
        match token {
            Token::Bool(flag) => Ok(flag),
            _ => Err(TakeFault::Unusual),
        }
    }
}

/// Takes a text.
pub fn take_text<'a>(reader: &mut Reader<'a>) -> Result<&'a str, TakeFault>
    ensures { IfOk result (λ text. reader.old ≡ spec.string text.now ∷ reader.new) }
{
    let token = reader.next().ok_or(TakeFault::Unusual)?;
    match token {
        Token::String(text) => Ok(text),
        _ => Err(TakeFault::Unusual),
    }
}

impl FromTokens for Text {
    fn from_tokens(alloc: Global, reader: &mut Reader, _depth: usize) -> Result<Text, TakeFault> {
        let text = take_text(reader)?;
        Ok(Text::from_str(alloc, text)?)
    }
}

impl<T: FromTokens + Drop> FromTokens for List<T> {
    fn from_tokens(alloc: Global, reader: &mut Reader, depth: usize) -> Result<List<T>, TakeFault> {
        if depth == 0 {
            return Err(TakeFault::Unusual);
        }
        open_array(reader)?;
        let mut found = Vec::new(alloc);
        'items: while !reader.take_end_array() {
            let item = T::from_tokens(alloc, reader, depth - 1)?;
            found.push(item)?;
        }
        Ok(List::from_vec(found))
    }
}

/// Takes the bracket that opens an array.
pub fn open_array(reader: &mut Reader) -> Result<(), TakeFault>
    ensures { IfOk result (λ _. reader.old ≡ spec.begin_array ∷ reader.new) }
{
    let token = reader.next().ok_or(TakeFault::Unusual)?;
    match token {
        Token::BeginArray => Ok(()),
        _ => Err(TakeFault::Unusual),
    }
}
