//! Takes declarations and stores.
ghost use Rattle.std.specs.Prelude.{◌<◌, IfOk, option_map};
ghost use Rattle.alias_straight.specs.Kinds.{TakesKind};
ghost use Rattle.alias_straight.specs.Members.{from_key};
ghost use Rattle.alias_read.specs.declared.value_kinds.InstructionValueKind.TheVariants.{Declare, Store, ComputedStore};

use crate::fault::TakeFault;
use crate::members::{close_object, open_object, take_member};
use crate::tokens::FromTokens;
use alias_hir::value::{InstructionValue, LValue};
use alias_read::stores::{declare_with, store_with};
use alias_read::value_kinds::{DeclareKind, StoreKind};
use json::Reader;
use std::alloc::Global;

impl FromTokens for LValue {
    fn from_tokens(alloc: Global, reader: &mut Reader, depth: usize) -> Result<LValue, TakeFault> {
        if depth == 0 {
            return Err(TakeFault::Unusual);
        }
        let inner = depth - 1;
        let mut next = open_object(reader)?;
        let kind = take_member(alloc, reader, inner, &mut next, "kind")?;
        let place = take_member(alloc, reader, inner, &mut next, "place")?;
        close_object(next)?;
        Ok(LValue { place, kind })
    }
}

/// Takes the variable of a declaration.
pub fn take_declare<'a>(
    alloc: Global,
    kind: DeclareKind,
    reader: &mut Reader<'a>,
    depth: usize,
    mut next: Option<&'a str>,
) -> Result<InstructionValue, TakeFault>
    requires { 0 < depth }
    ensures { IfOk result (λ v. TakesKind (Declare kind) depth (from_key (option_map (λ k. k.now) next.entry) reader.old) v reader.new) }
{
    let lvalue = take_member(alloc, reader, depth - 1, &mut next, "lvalue")?;
    close_object(next)?;
    Ok(declare_with(kind, lvalue))
}

/// Takes the variable of a store, and what is stored.
pub fn take_store<'a>(
    alloc: Global,
    kind: StoreKind,
    reader: &mut Reader<'a>,
    depth: usize,
    mut next: Option<&'a str>,
) -> Result<InstructionValue, TakeFault>
    requires { 0 < depth }
    ensures { IfOk result (λ v. TakesKind (Store kind) depth (from_key (option_map (λ k. k.now) next.entry) reader.old) v reader.new) }
{
    let lvalue = take_member(alloc, reader, depth - 1, &mut next, "lvalue")?;
    let stored = take_member(alloc, reader, depth - 1, &mut next, "value")?;
    close_object(next)?;
    Ok(store_with(kind, lvalue, stored))
}

/// Takes an object, a computed property, and what is stored there.
pub fn take_computed_store<'a>(
    alloc: Global,
    reader: &mut Reader<'a>,
    depth: usize,
    mut next: Option<&'a str>,
) -> Result<InstructionValue, TakeFault>
    requires { 0 < depth }
    ensures { IfOk result (λ v. TakesKind ComputedStore depth (from_key (option_map (λ k. k.now) next.entry) reader.old) v reader.new) }
{
    let object = take_member(alloc, reader, depth - 1, &mut next, "object")?;
    let property = take_member(alloc, reader, depth - 1, &mut next, "property")?;
    let value = take_member(alloc, reader, depth - 1, &mut next, "value")?;
    close_object(next)?;
    Ok(InstructionValue::ComputedStore {
        object,
        property,
        value,
    })
}
