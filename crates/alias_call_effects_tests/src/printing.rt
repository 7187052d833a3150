//! Effects in a word and two numbers, and what calls answer.

use alias_call_effects::SignatureError;
use alias_hir::effect::{AliasingEffect, AliasingEffects};
use std::fmt::Debug;

/// The form of an effect, and its source and target, or its one place and its report's number.
type Described = (&'static str, u32, u32);

fn described(effect: &AliasingEffect) -> Described {
    match effect {
        AliasingEffect::Create { into, .. } => ("Create", into.identifier.0, 0),
        AliasingEffect::Alias { from, into } => ("Alias", from.identifier.0, into.identifier.0),
        AliasingEffect::Capture { from, into } => {
            ("Capture", from.identifier.0, into.identifier.0)
        }
        AliasingEffect::ImmutableCapture { from, into } => {
            ("ImmutableCapture", from.identifier.0, into.identifier.0)
        }
        AliasingEffect::Impure { place, error } => ("Impure", place.identifier.0, error.instance),
        AliasingEffect::Mutate { value, .. } => ("Mutate", value.identifier.0, 0),
        _ => ("else", 0, 0),
    }
}

/// Prints a fact.
pub(crate) fn print_fact(rt: &impl Print, name: &str, fact: &impl Debug) {
    let _ = println!(rt; "{name}: {fact:?}");
}

/// Prints each effect, in order.
pub(crate) fn print_effects(rt: &impl Print, name: &str, effects: &[AliasingEffect]) {
    for effect in effects {
        print_fact(rt, name, &described(effect));
    }
}

/// Prints why a call is refused: at which span an argument is spread, or for another reason.
pub(crate) fn print_refusal(rt: &impl Print, name: &str, error: &SignatureError) {
    match error {
        SignatureError::SpreadArgument(span) => print_fact(rt, name, &("a spread argument", *span)),
        _ => print_fact(rt, name, &"refused otherwise"),
    }
}

/// Prints the effects that a call gave, that it gave none, or why it is refused.
pub(crate) fn print_given(
    rt: &impl Print,
    name: &str,
    answer: Result<Option<AliasingEffects>, SignatureError>,
) {
    match &answer {
        Ok(Some(effects)) => print_effects(rt, name, effects.as_slice()),
        Ok(None) => print_fact(rt, name, &"gives none"),
        Err(error) => print_refusal(rt, name, error),
    }
}
