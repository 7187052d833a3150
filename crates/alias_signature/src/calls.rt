//! Calls, whose effects are found where they are stepped, and awaits.
ghost use Rattle.std.specs.Prelude.{◌≡◌, ◌++◌, map, IfOk, OnOk};
ghost use Rattle.alias_signature.specs.Calls.{type_id_of, argument, call_effects, await_effects};

use crate::creating::push_create;
use alias_base::{IdentifierId, List, TypeId};
use alias_hir::effect::{AliasingEffect, AliasingEffects, ValueKind};
use alias_hir::env::Environment;
use alias_hir::place::{Place, PlaceOrSpread, PlaceOrSpreadOrHole, Span};
use std::alloc::{AllocError, Global};

/// The number of an identifier's type, or `None` where its own is past the end of the table.
fn type_id_of(env: &Environment, identifier: IdentifierId) -> Option<TypeId>
    ensures { result ≡ type_id_of env.now identifier }
{
    match env.identifiers.get(identifier.0 as usize) {
        Some(known) => Some(known.type_),
        None => None,
    }
}

fn argument(arg: &PlaceOrSpread) -> PlaceOrSpreadOrHole
    ensures { result ≡ argument arg.now }
{
    match arg {
        PlaceOrSpread::Place(place) => PlaceOrSpreadOrHole::Place(*place),
        PlaceOrSpread::Spread(s) => PlaceOrSpreadOrHole::Spread(*s),
    }
}

fn arguments(alloc: Global, args: &[PlaceOrSpread]) -> Result<List<PlaceOrSpreadOrHole>, AllocError>
    ensures { IfOk result (λ l. l ≡ map argument args.now) }
{
    let mut list = List::new(alloc);
    for arg in args {
        list.push(argument(arg))?;
    }
    Ok(list)
}

/// The call of a function on a receiver. `mutates_function` says whether the call may write the function.
#[derive(Clone, Copy)]
pub(crate) struct Call<'a> {
    pub receiver: &'a Place,
    pub function: &'a Place,
    pub mutates_function: bool,
    pub args: &'a [PlaceOrSpread],
    pub span: Option<Span>,
}

/// `function(args)`, `receiver.function(args)` or `new function(args)`.
pub(crate) fn push_call(
    alloc: Global,
    effects: &mut AliasingEffects,
    env: &Environment,
    lvalue: &Place,
    call: &Call<'_>,
) -> Result<(), AllocError>
    ensures { OnOk result (effects.new ≡ effects.old ++ call_effects env.now call.now.receiver.now call.now.function.now call.now.mutates_function call.now.args.now lvalue.now call.now.span) }
{
    effects.push(AliasingEffect::Apply {
        receiver: *call.receiver,
        function: *call.function,
        mutates_function: call.mutates_function,
        args: arguments(alloc, call.args)?,
        into: *lvalue,
        signature: type_id_of(env, call.function.identifier),
        span: call.span,
    })?;
    Ok(())
}

/// `await value`.
pub(crate) fn push_await(
    effects: &mut AliasingEffects,
    lvalue: &Place,
    value: &Place,
) -> Result<(), AllocError>
    ensures { OnOk result (effects.new ≡ effects.old ++ await_effects lvalue.now value.now) }
{
    push_create(effects, lvalue, ValueKind::Mutable)?;
    effects.push(AliasingEffect::MutateTransitiveConditionally { value: *value })?;
    effects.push(AliasingEffect::Capture {
        from: *value,
        into: *lvalue,
    })?;
    Ok(())
}
