//! Takes what an instruction computes.
ghost use Rattle.std.specs.Prelude.{◌<◌, IfOk, option_map};
ghost use Rattle.alias_straight.specs.Kinds.{TakesKind};
ghost use Rattle.alias_straight.specs.Members.{from_key};

use crate::calls::{take_call, take_function, take_method_call};
use crate::expressions::{
    take_array_expression, take_jsx_expression, take_object_expression, take_property_store,
    take_store_global,
};
use crate::fault::TakeFault;
use crate::members::{open_object, take_member};
use crate::operations::{take_one_place, take_place_list, take_plain, take_two_places};
use crate::patterns::take_destructure;
use crate::stores::{take_computed_store, take_declare, take_store};
use crate::tokens::FromTokens;
use alias_hir::value::InstructionValue;
use alias_read::value_kinds::InstructionValueKind;
use json::Reader;
use std::alloc::Global;

impl FromTokens for InstructionValue {
    fn from_tokens(
        alloc: Global,
        reader: &mut Reader,
        depth: usize,
    ) -> Result<InstructionValue, TakeFault> {
        if depth == 0 {
            return Err(TakeFault::Unusual);
        }
        let mut next = open_object(reader)?;
        let kind = take_member(alloc, reader, depth - 1, &mut next, "kind")?;
        let value = take_of_kind(alloc, kind, reader, depth, next)?;
        Ok(value)
    }
}

fn take_of_kind<'a>(
    alloc: Global,
    kind: InstructionValueKind,
    reader: &mut Reader<'a>,
    depth: usize,
    next: Option<&'a str>,
) -> Result<InstructionValue, TakeFault>
    requires { 0 < depth }
    ensures { IfOk result (λ v. TakesKind kind depth (from_key (option_map (λ k. k.now) next.entry) reader.old) v reader.new) }
{
    match kind {
        InstructionValueKind::Plain(kind) => take_plain(kind, reader, depth, next),
        InstructionValueKind::OnePlace(kind) => take_one_place(alloc, kind, reader, depth, next),
        InstructionValueKind::TwoPlaces(kind) => take_two_places(alloc, kind, reader, depth, next),
        InstructionValueKind::PlaceList(kind) => take_place_list(alloc, kind, reader, depth, next),
        InstructionValueKind::Function(kind) => take_function(alloc, kind, reader, depth, next),
        InstructionValueKind::Declare(kind) => take_declare(alloc, kind, reader, depth, next),
        InstructionValueKind::Store(kind) => take_store(alloc, kind, reader, depth, next),
        InstructionValueKind::Call(kind) => take_call(alloc, kind, reader, depth, next),
        InstructionValueKind::MethodCall => take_method_call(alloc, reader, depth, next),
        InstructionValueKind::ComputedStore => take_computed_store(alloc, reader, depth, next),
        InstructionValueKind::ArrayExpression => take_array_expression(alloc, reader, depth, next),
        InstructionValueKind::JsxExpression => take_jsx_expression(alloc, reader, depth, next),
        InstructionValueKind::PropertyStore => take_property_store(alloc, reader, depth, next),
        InstructionValueKind::StoreGlobal => take_store_global(alloc, reader, depth, next),
        InstructionValueKind::ObjectExpression => take_object_expression(
            alloc, reader, depth, next,
        ),
        InstructionValueKind::Destructure => take_destructure(alloc, reader, depth, next),
    }
}
