//! What the names of a signature stand for in a call.

ghost use Rattle.std.specs.Prelude.{◌≡◌, ◌∷◌, [], option_map, slice_get, OnOk};
ghost use Rattle.alias_calls.specs.Arguments.{is_rest, with_further, with_plain, with_argument, substituted_arguments, is_further, has_further, is_bad_spread_of, is_bad_spread, first_bad};

use alias_base::{IdentifierId, List};
use alias_hir::env::Environment;
use alias_hir::place::{Place, PlaceOrSpreadOrHole};
use alias_hir::types::is_builtin_collection_at;
use std::alloc::{AllocError, Global};

fn is_rest<K: PartialEq>(name: &K, rest: Option<&K>) -> bool
    ensures { result ≡ is_rest K.eq name.now (option_map (λ r. r.now) rest.entry) }
{
    match rest {
        Some(rest) => *rest == *name,
        None => false,
    }
}

/// A further argument is appended to what the rest stands for.
fn with_further<K: PartialEq>(
    name: &K,
    rest: Option<&K>,
    place: Place,
    so_far: &mut List<Place>,
) -> Result<(), AllocError>
    ensures { OnOk result (so_far.new ≡ with_further K.eq name.now (option_map (λ r. r.now) rest.entry) place so_far.old) }
{
    if is_rest(name, rest) {
        so_far.push(place)?;
    }
    Ok(())
}

/// A plain argument stands for the parameter of its place, or else is a further one.
fn with_plain<K: PartialEq>(
    alloc: Global,
    name: &K,
    param: Option<&K>,
    rest: Option<&K>,
    place: Place,
    so_far: &mut List<Place>,
) -> Result<(), AllocError>
    ensures { OnOk result (so_far.new ≡ with_plain K.eq name.now (option_map (λ p. p.now) param.entry) (option_map (λ r. r.now) rest.entry) place so_far.old) }
{
    match param {
        Some(param) => {
            if *param == *name {
                substituted_for(alloc, so_far, place)?;
            }
            Ok(())
        }
        None => with_further(name, rest, place, so_far),
    }
}

/// The place alone.
fn substituted_for(alloc: Global, so_far: &mut List<Place>, place: Place) -> Result<(), AllocError>
    ensures { OnOk result (so_far.new ≡ place ∷ []) }
{
    *so_far = List::new(alloc);
    so_far.push(place)?;
    Ok(())
}

/// What the name stands for after one argument more.
fn with_argument<K: PartialEq>(
    alloc: Global,
    name: &K,
    param: Option<&K>,
    rest: Option<&K>,
    argument: &PlaceOrSpreadOrHole,
    so_far: &mut List<Place>,
) -> Result<(), AllocError>
    ensures { OnOk result (so_far.new ≡ with_argument K.eq name.now (option_map (λ p. p.now) param.entry) (option_map (λ r. r.now) rest.entry) argument.now so_far.old) }
{
    match argument {
        PlaceOrSpreadOrHole::Place(place) => with_plain(alloc, name, param, rest, *place, so_far),
        PlaceOrSpreadOrHole::Spread(spread) => with_further(name, rest, spread.place, so_far),
        PlaceOrSpreadOrHole::Hole => Ok(()),
    }
}

/// The parameter of the place, if there is one.
fn param_at<K>(params: &[K], index: usize) -> Option<&K>
    ensures { option_map (λ p. p.now) result ≡ slice_get params.now index }
{
    params.get(index)
}

/// What the name stands for after all arguments.
pub fn substituted_arguments<K: PartialEq>(
    alloc: Global,
    name: &K,
    params: &[K],
    rest: Option<&K>,
    args: &[PlaceOrSpreadOrHole],
    so_far: &mut List<Place>,
) -> Result<(), AllocError>
    ensures { OnOk result (so_far.new ≡ substituted_arguments K.eq name.now params.now (option_map (λ r. r.now) rest.entry) args.now 0 so_far.old) }
{
    let mut index = 0usize;
    for argument in args {
        with_argument(alloc, name, param_at(params, index), rest, argument, so_far)?;
        index += 1;
    }
    Ok(())
}

fn is_further<K>(param: Option<&K>, argument: &PlaceOrSpreadOrHole) -> bool
    ensures { result ≡ is_further (option_map (λ p. p.now) param.entry) argument.now }
{
    match argument {
        PlaceOrSpreadOrHole::Place(_) => param.is_none(),
        PlaceOrSpreadOrHole::Spread(_) => true,
        PlaceOrSpreadOrHole::Hole => false,
    }
}

/// Whether some argument needs a rest.
pub fn has_further<K>(params: &[K], args: &[PlaceOrSpreadOrHole]) -> bool
    ensures { result ≡ has_further params.now args.now 0 }
{
    let mut index = 0usize;
    for argument in args {
        if is_further(param_at(params, index), argument) {
            return true;
        }
        index += 1;
    }
    false
}

fn is_bad_spread_of(
    env: &Environment,
    identifier: IdentifierId,
    argument: &PlaceOrSpreadOrHole,
) -> bool
    ensures { result ≡ is_bad_spread_of env.now identifier argument.now }
{
    match argument {
        PlaceOrSpreadOrHole::Spread(spread) => {
            spread.place.identifier.0 == identifier.0 && !is_builtin_collection_at(env, identifier)
        }
        _ => false,
    }
}

/// Whether the identifier is spread, and isn't an array, a set or a map.
fn is_bad_spread(env: &Environment, args: &[PlaceOrSpreadOrHole], identifier: IdentifierId) -> bool
    ensures { result ≡ is_bad_spread env.now args.now identifier }
{
    args.iter()
        .any(|argument| is_bad_spread_of(env, identifier, argument))
}

/// The first of the places whose identifier is spread so.
pub fn first_bad(env: &Environment, args: &[PlaceOrSpreadOrHole], places: &[Place]) -> Option<Place>
    ensures { result ≡ first_bad env.now args.now places.now }
{
    for place in places {
        if is_bad_spread(env, args, place.identifier) {
            return Some(*place);
        }
    }
    None
}
