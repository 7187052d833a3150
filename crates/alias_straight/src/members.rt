//! The members of an object, which are taken in the order of the format.
ghost use Rattle.std.specs.Prelude.{◌≡◌, ◌∷◌, true, None, Some, IfOk, option_map};
ghost use Rattle.json.specs.Token as spec;
ghost use Rattle.alias_straight.specs.Members.{from_key, TakesMember, MayTake, TakesList};

use crate::fault::TakeFault;
use crate::tokens::FromTokens;
use alias_base::List;
use json::{Reader, Token};
use std::alloc::Global;

/// Takes the brace that opens an object, and its first key, or its end.
pub fn open_object<'a>(reader: &mut Reader<'a>) -> Result<Option<&'a str>, TakeFault>
    ensures { IfOk result (λ next. reader.old ≡ spec.begin_object ∷ from_key (option_map (λ k. k.now) next) reader.new) }
{
    let token = reader.next().ok_or(TakeFault::Unusual)?;
    match token {
        Token::BeginObject => next_key(reader),
        _ => Err(TakeFault::Unusual),
    }
}

/// Takes the next key, or the end.
pub fn next_key<'a>(reader: &mut Reader<'a>) -> Result<Option<&'a str>, TakeFault>
    ensures { IfOk result (λ next. reader.old ≡ from_key (option_map (λ k. k.now) next) reader.new) }
{
    let token = reader.next().ok_or(TakeFault::Unusual)?;
    match token {
        Token::Key(key) => Ok(Some(key)),
        Token::EndObject => Ok(None),
        _ => Err(TakeFault::Unusual),
    }
}

/// Whether the key that is next is this one.
pub fn is_next(next: Option<&str>, key: &str) -> bool
    ensures { result ≡ true → option_map (λ k. k.now) next.entry ≡ Some key.now }
{
    match next {
        Some(found) => found == key,
        None => false,
    }
}

/// Takes the value of a key that has to be next, and the key behind it.
pub fn take_member<'a, T: FromTokens + Drop>(
    alloc: Global,
    reader: &mut Reader<'a>,
    depth: usize,
    next: &mut Option<&'a str>,
    key: &str,
) -> Result<T, TakeFault>
    ensures { IfOk result (λ x. TakesMember T.reads depth (from_key (option_map (λ k. k.now) next.old) reader.old) key.now x (from_key (option_map (λ k. k.now) next.new) reader.new)) }
{
    if !is_next(*next, key) {
        return Err(TakeFault::Unusual);
    }
    let x = T::from_tokens(alloc, reader, depth)?;
    *next = next_key(reader)?;
    Ok(x)
}

/// Takes the value of a key, and the key behind it, if it is next.
pub fn take_optional<'a, T: FromTokens + Drop>(
    alloc: Global,
    reader: &mut Reader<'a>,
    depth: usize,
    next: &mut Option<&'a str>,
    key: &str,
) -> Result<Option<T>, TakeFault>
    ensures { IfOk result (λ x. MayTake T.reads depth (from_key (option_map (λ k. k.now) next.old) reader.old) key.now x (from_key (option_map (λ k. k.now) next.new) reader.new)) }
{
    if !is_next(*next, key) {
        return Ok(None);
    }
    let x = take_member(alloc, reader, depth, next, key)?;
    Ok(Some(x))
}

/// Takes the list of a key, and the key behind it, if it is next. The list is empty if it isn't.
pub fn take_list<'a, T: FromTokens + Drop>(
    alloc: Global,
    reader: &mut Reader<'a>,
    depth: usize,
    next: &mut Option<&'a str>,
    key: &str,
) -> Result<List<T>, TakeFault>
    ensures { IfOk result (λ xs. TakesList T.reads depth (from_key (option_map (λ k. k.now) next.old) reader.old) key.now xs (from_key (option_map (λ k. k.now) next.new) reader.new)) }
{
    let found = take_optional(alloc, reader, depth, next, key)?;
    match found {
        Some(list) => Ok(list),
        None => Ok(List::new(alloc)),
    }
}

/// Refuses an object that goes on.
pub fn close_object(next: Option<&str>) -> Result<(), TakeFault>
    ensures { IfOk result (λ _. option_map (λ k. k.now) next.entry ≡ None) }
{
    match next {
        Some(_) => Err(TakeFault::Unusual),
        None => Ok(()),
    }
}
