//! Copies of the effects of a signature, for the places that its names stand for.

ghost use Rattle.std.specs.Prelude.{◌≡◌, ◌++◌, map, OnOk};
ghost use Rattle.alias_calls.specs.Copies.{pair_of, pairs, effect_at, with_freezes, Collects};

use crate::arguments::first_bad;
use alias_apply::reports::spread_report;
use alias_hir::effect::{AliasingEffect, AliasingEffects, MutationReason, ValueKind, ValueReason};
use alias_hir::env::Environment;
use alias_hir::place::{Place, PlaceOrSpreadOrHole};
use alias_hir::report::ReportId;
use alias_tables::{EffectFault, Refusal, Tables};
use std::alloc::AllocError;

/// The effects that link one place to another.
#[derive(Clone, Copy, Debug, PartialEq, Eq)]
pub enum PairKind {
    CreateFrom,
    ImmutableCapture,
    Assign,
    Alias,
    Capture,
    MaybeAlias,
}

/// The effects of one place.
#[derive(Clone, Copy, Debug, PartialEq, Eq)]
pub enum PlaceKind {
    Create(ValueKind, ValueReason),
    Freeze(ValueReason),
    Impure(ReportId),
    MutateFrozen(ReportId),
    MutateGlobal(ReportId),
    Render,
    Mutate(Option<MutationReason>),
    MutateConditionally,
    MutateTransitive,
    MutateTransitiveConditionally,
}

fn pair_of(kind: PairKind, from: Place, into: Place) -> AliasingEffect
    ensures { result ≡ pair_of kind from into }
{
    match kind {
        PairKind::CreateFrom => AliasingEffect::CreateFrom { from, into },
        PairKind::ImmutableCapture => AliasingEffect::ImmutableCapture { from, into },
        PairKind::Assign => AliasingEffect::Assign { from, into },
        PairKind::Alias => AliasingEffect::Alias { from, into },
        PairKind::Capture => AliasingEffect::Capture { from, into },
        PairKind::MaybeAlias => AliasingEffect::MaybeAlias { from, into },
    }
}

fn push_targets(
    out: &mut AliasingEffects,
    kind: PairKind,
    from: Place,
    targets: &[Place],
) -> Result<(), AllocError>
    ensures { OnOk result (out.new ≡ out.old ++ map (pair_of kind from) targets.now) }
{
    for into in targets {
        out.push(pair_of(kind, from, *into))?;
    }
    Ok(())
}

/// Appends an effect for each pair of a source and a target, source by source.
pub fn push_pairs(
    out: &mut AliasingEffects,
    kind: PairKind,
    sources: &[Place],
    targets: &[Place],
) -> Result<(), AllocError>
    ensures { OnOk result (out.new ≡ out.old ++ pairs kind sources.now targets.now) }
{
    for from in sources {
        push_targets(out, kind, *from, targets)?;
    }
    Ok(())
}

fn effect_at(kind: PlaceKind, place: Place) -> AliasingEffect
    ensures { result ≡ effect_at kind place }
{
    let value = place;
    match kind {
        PlaceKind::Create(kind, reason) => AliasingEffect::Create {
            into: place,
            value: kind,
            reason,
        },
        PlaceKind::Freeze(reason) => AliasingEffect::Freeze { value, reason },
        PlaceKind::Impure(error) => AliasingEffect::Impure { place, error },
        PlaceKind::MutateFrozen(error) => AliasingEffect::MutateFrozen { place, error },
        PlaceKind::MutateGlobal(error) => AliasingEffect::MutateGlobal { place, error },
        PlaceKind::Render => AliasingEffect::Render { place },
        PlaceKind::Mutate(reason) => AliasingEffect::Mutate { value, reason },
        PlaceKind::MutateConditionally => AliasingEffect::MutateConditionally { value },
        PlaceKind::MutateTransitive => AliasingEffect::MutateTransitive { value },
        PlaceKind::MutateTransitiveConditionally => {
            AliasingEffect::MutateTransitiveConditionally { value }
        }
    }
}

/// Appends an effect for each of the places.
pub fn push_at(
    out: &mut AliasingEffects,
    kind: PlaceKind,
    places: &[Place],
) -> Result<(), AllocError>
    ensures { OnOk result (out.new ≡ out.old ++ map (effect_at kind) places.now) }
{
    for place in places {
        out.push(effect_at(kind, *place))?;
    }
    Ok(())
}

/// Appends a freeze of each of the places. One of a spread argument that isn't an array, a set or a map is refused.
pub fn push_freezes(
    env: &Environment,
    tables: &Tables,
    args: &[PlaceOrSpreadOrHole],
    out: &mut AliasingEffects,
    reason: ValueReason,
    places: &[Place],
) -> Result<bool, EffectFault>
    ensures { Collects (with_freezes env.now args.now reason places.now out.old tables.now) result out.new tables.now }
{
    match first_bad(env, args, places) {
        Some(place) => Err(EffectFault::Refused(Refusal::SpreadArgument {
            span: place.span,
            report: spread_report(tables.alloc(), place.span)?,
        })),
        None => {
            push_at(out, PlaceKind::Freeze(reason), places)?;
            Ok(true)
        }
    }
}
