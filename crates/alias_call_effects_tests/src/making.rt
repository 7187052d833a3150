//! Small environments, and texts and lists; with less in them where memory runs out.

use alias_base::{List, Text};
use alias_hir::env::{Environment, IdentifierName};
use alias_hir::place::{Place, PlaceOrSpreadOrHole, Span, SpreadPattern};
use alias_test_units::place;
use std::alloc::Global;

/// Adds the item.
pub(crate) fn add<T: Drop>(list: &mut List<T>, item: T) {
    let _ = list.push(item);
}

pub(crate) fn text(alloc: Global, text: &str) -> Text {
    match Text::from_str(alloc, text) {
        Ok(text) => text,
        Err(_) => Text::new(alloc),
    }
}

fn four_identifiers(alloc: Global) -> Environment {
    match alias_test_units::environment(alloc, 4) {
        Ok(env) => env,
        Err(_) => Environment::new(alloc),
    }
}

/// Four identifiers of which nothing is known but that 2 is named `x`.
pub(crate) fn environment(alloc: Global) -> Environment {
    let mut env = four_identifiers(alloc);
    if let Some(identifier) = env.identifiers.get_mut(2) {
        identifier.name = Some(IdentifierName::Named(text(alloc, "x")));
    }
    env
}

/// The argument `...x` at a span that no other place has.
pub(crate) fn spread_argument() -> PlaceOrSpreadOrHole {
    let plain = place(2);
    PlaceOrSpreadOrHole::Spread(SpreadPattern {
        place: Place {
            span: Some(Span { start: 7, end: 9 }),
            ..plain
        },
    })
}
