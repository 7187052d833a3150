//! Temporaries that a host keeps from call to call.

ghost use Rattle.std.specs.Prelude.{◌≡◌, OnErr};
ghost use Rattle.alias_hir.specs.Tables.{next_identifier};
ghost use Rattle.alias_call_effects.specs.Answers.{Answers};
ghost use Rattle.alias_call_effects.specs.Kept.{kept, numbered, place_of, temporary_at, HasGrown};

use crate::error::SignatureError;
use alias_base::IdentifierId;
use alias_hir::env::Environment;
use alias_hir::place::{Effect, Place, Span};
use alias_tables::{TempKey, Temporaries};
use std::alloc::Global;

/// A new identifier of the environment, with this span. `TooMany` comes exactly where all numbers of identifiers or of
/// types are taken. After an `Err` nothing has changed.
fn new_identifier(env: &mut Environment, span: Option<Span>) -> Result<IdentifierId, SignatureError>
    ensures answer { Answers (numbered span (next_identifier env.old) env.old) result env.new }
    ensures err { OnErr result (env.new ≡ env.old) }
{
    Ok(env.next_identifier_id_at(span)?)
}

fn place_of(identifier: IdentifierId, span: Option<Span>) -> Place
    ensures { result ≡ place_of identifier span }
{
    Place {
        identifier,
        effect: Effect::Unknown,
        reactive: false,
        span,
    }
}

/// The place of the key's temporary. Where there is none, the environment gets a new identifier with this span, and its
/// place, with the same span, is kept. After an `Err` the environment may have got an identifier that no temporary has.
pub(crate) fn temporary_at(
    alloc: Global,
    env: &mut Environment,
    temporaries: &mut Temporaries,
    key: TempKey,
    span: Option<Span>,
) -> Result<Place, SignatureError>
    ensures answer { Answers (temporary_at key span (kept env.old temporaries.old)) result (kept env.new temporaries.new) }
    ensures grown { HasGrown (kept env.old temporaries.old) (kept env.new temporaries.new) }
{
    if let Some(there) = temporaries.get(&key) {
        return Ok(there.place);
    }
    let place = place_of(new_identifier(env, span)?, span);
    temporaries.push(alloc, key, place)?;
    Ok(place)
}
