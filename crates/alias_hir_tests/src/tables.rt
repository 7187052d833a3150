//! Tables of which no input is the text: two shapes of one name, and identifiers that are made.

use crate::made::{add, function, text_of};
use crate::print_fact;
use alias_base::{DeclarationId, IdentifierId, List};
use alias_hir::effect::{ValueKind, ValueReason};
use alias_hir::env::{Environment, Identifier, IdentifierName};
use alias_hir::lookup::fresh_identifier;
use alias_hir::place::{Effect, Span};
use alias_hir::signature::{FunctionSignature, Shape};
use alias_hir::types::{Ty, is_untyped_at};
use std::alloc::Global;

/// The identifier 0, which is named `x` and stands at 4..5.
fn named(alloc: Global) -> Identifier {
    let span = Some(Span { start: 4, end: 5 });
    let mut identifier = fresh_identifier(span, 0, 0);
    identifier.name = Some(IdentifierName::Named(text_of(alloc, "x")));
    identifier
}

/// Adds that identifier, and its type.
pub(crate) fn add_named(alloc: Global, env: &mut Environment) {
    add(&mut env.types, Ty::Primitive);
    add(&mut env.identifiers, named(alloc));
}

fn declaration_at(env: &Environment, index: usize) -> Option<DeclarationId> {
    match env.identifiers.get(index) {
        Some(made) => Some(made.declaration_id),
        None => None,
    }
}

/// Makes the identifier 1, and prints its number, whether nothing is known of its type, and its declaration.
pub(crate) fn print_made(rt: &impl Print, env: &mut Environment) {
    let number = env.next_identifier_id();
    let is_untyped = is_untyped_at(env, IdentifierId(1));
    let fact = (number, is_untyped, declaration_at(env, 1));
    print_fact(
        rt,
        "makes_identifiers: the number, untyped, the declaration",
        &fact,
    );
}

fn signature(alloc: Global) -> FunctionSignature {
    FunctionSignature {
        positional_params: List::new(alloc),
        rest_param: Some(Effect::Freeze),
        return_value_kind: ValueKind::Frozen,
        return_value_reason: Some(ValueReason::State),
        callee_effect: Effect::Read,
        no_alias: true,
        mutable_only_if_operands_are_mutable: false,
        impure: false,
        known_incompatible: None,
        canonical_name: None,
        aliasing: None,
    }
}

fn shape(alloc: Global, hook: bool, signature: Option<FunctionSignature>) -> Shape {
    Shape {
        id: text_of(alloc, "useState"),
        hook,
        signature,
    }
}

/// Adds the identifier 2, whose type is a function of the shape `useState`, and two shapes of that name, of which the
/// first is a hook.
pub(crate) fn add_shapes(alloc: Global, env: &mut Environment) {
    add(&mut env.types, function(alloc, "useState", Ty::Var));
    add(&mut env.identifiers, fresh_identifier(None, 2, 2));
    let _ = env.shapes.push(shape(alloc, true, Some(signature(alloc))));
    let _ = env.shapes.push(shape(alloc, false, None));
}

/// Prints how many shapes there are, and whether the identifier 2 has no alias by the first.
pub(crate) fn print_alias(rt: &impl Print, env: &Environment) {
    let shapes = env.shapes.as_slice().len();
    let fact = (shapes, env.has_no_alias_signature(IdentifierId(2)));
    print_fact(
        rt,
        "looks_up_the_first_shape: how many, no alias of the identifier",
        &fact,
    );
}
