//! What the names of an aliasing part stand for beside its arguments.

ghost use Rattle.std.specs.Prelude.{◌≡◌, slice_get, OnOk, option_map};
ghost use Rattle.alias_tables.specs.Steps.{each};
ghost use Rattle.alias_call_effects.specs.Answers.{Extended};
ghost use Rattle.alias_call_effects.specs.Configs.{with_temporary};
ghost use Rattle.alias_call_effects.specs.Kept.{kept, HasGrown};
ghost use Rattle.alias_call_effects.specs.Parts.{nothing_named, with_named, both_named, known_name, context_name, context_named, contexts_named};

use crate::error::SignatureError;
use crate::temporaries::temporary_at;
use alias_base::{IdentifierId, List, Text, TryClone};
use alias_calls::CallSite;
use alias_hir::env::{Environment, IdentifierName};
use alias_hir::place::Place;
use alias_tables::temp_key::Name;
use alias_tables::{TempKey, Temporaries};
use std::alloc::{AllocError, Global};

/// Names of an aliasing part, and the places that they stand for, each where its name stands.
#[derive(Drop)]
pub struct NamedPlaces {
    pub names: List<Text>,
    pub places: List<Place>,
}

impl NamedPlaces {
    /// No names. Takes no memory.
    pub(crate) fn new(alloc: Global) -> NamedPlaces
        ensures { result ≡ nothing_named }
    {
        NamedPlaces {
            names: List::new(alloc),
            places: List::new(alloc),
        }
    }

    /// Appends a name, with its place.
    fn push(&mut self, name: Text, place: Place) -> Result<(), AllocError>
        ensures { OnOk result (self.new ≡ with_named name place self.old) }
    {
        self.names.push(name)?;
        self.places.push(place)?;
        Ok(())
    }
}

/// Appends the temporary of a name of the part, made or found.
fn push_temporary(
    alloc: Global,
    env: &mut Environment,
    temporaries: &mut Temporaries,
    site: CallSite,
    named: &mut NamedPlaces,
    name: &Text,
) -> Result<(), SignatureError>
    ensures answer { Extended (with_temporary site name.now named.old (kept env.old temporaries.old)) result named.new (kept env.new temporaries.new) }
    ensures grown { HasGrown (kept env.old temporaries.old) (kept env.new temporaries.new) }
{
    let text = name.try_clone(alloc)?;
    let key = TempKey::Named(site.into.identifier, Name { text });
    let place = temporary_at(alloc, env, temporaries, key, site.receiver.span)?;
    let name = name.try_clone(alloc)?;
    named.push(name, place)?;
    Ok(())
}

/// Appends the temporaries of the names of a part, in order.
pub(crate) fn push_temporaries(
    alloc: Global,
    env: &mut Environment,
    temporaries: &mut Temporaries,
    site: CallSite,
    named: &mut NamedPlaces,
    names: &[Text],
) -> Result<(), SignatureError>
    ensures answer { Extended (each (with_temporary site) names.now named.old (kept env.old temporaries.old)) result named.new (kept env.new temporaries.new) }
    ensures grown { HasGrown (kept env.old temporaries.old) (kept env.new temporaries.new) }
{
    for name in names {
        push_temporary(alloc, env, temporaries, site, named, name)?;
    }
    Ok(())
}

fn known_name(env: &Environment, identifier: IdentifierId) -> Option<&IdentifierName>
    ensures { option_map (λ n. n.now) result ≡ known_name (slice_get env.now.identifiers identifier.0) }
{
    match env.identifiers.get(identifier.0 as usize) {
        Some(known) => known.name.as_ref(),
        None => None,
    }
}

fn push_name(
    alloc: Global,
    name: Option<&IdentifierName>,
    place: Place,
    named: &mut NamedPlaces,
) -> Result<(), AllocError>
    ensures { OnOk result (named.new ≡ both_named named.old (context_name (option_map (λ n. n.now) name.entry) place)) }
{
    if let Some(known) = name {
        let mut name = Text::from_str(alloc, "@")?;
        name.push_str(known.value())?;
        named.push(name, place)?;
    }
    Ok(())
}

/// Appends the context place with its name, if it has one.
fn push_context(
    alloc: Global,
    env: &Environment,
    place: Place,
    named: &mut NamedPlaces,
) -> Result<(), AllocError>
    ensures { OnOk result (named.new ≡ both_named named.old (context_named env.now place)) }
{
    push_name(alloc, known_name(env, place.identifier), place, named)
}

/// Appends the context places that have a name, the last first.
pub(crate) fn push_contexts(
    alloc: Global,
    env: &Environment,
    context: &[Place],
    named: &mut NamedPlaces,
) -> Result<(), AllocError>
    ensures { OnOk result (named.new ≡ both_named named.old (contexts_named env.now context.now)) }
{
    let mut left = context.len();
    while left > 0 {
        left -= 1;
        push_context(alloc, env, context[left], named)?;
    }
    Ok(())
}
