//! The effects of a call by a signature without an aliasing part.

ghost use Rattle.std.specs.Prelude.{◌≡◌, ◌++◌, map, IfOk, OnOk};
ghost use Rattle.alias_hir.specs.declared.effect.AliasingEffect.TheVariants.{Capture};
ghost use Rattle.alias_hir.specs.declared.place.Place.{Place};
ghost use Rattle.alias_tables.specs.Tables.{Leaves};
ghost use Rattle.alias_calls.specs.Copies.{Extended};
ghost use Rattle.alias_calls.specs.Legacy.{links_of, all_links, ended, still_captures, return_reason, is_capture, with_impure, with_receiver, visited, asked, with_still, legacy_after, legacy_expansion};

use crate::call::CallSite;
use crate::immutable::{Checked, immutables};
use crate::visits::{Visits, push, visit, visit_arguments};
use alias_apply::reports::{impure_report, spread_report};
use alias_base::List;
use alias_hir::effect::{AliasingEffect, AliasingEffects, ValueReason};
use alias_hir::env::Environment;
use alias_hir::place::{Effect, Place, PlaceOrSpreadOrHole};
use alias_hir::signature::FunctionSignature;
use alias_lattice::{InferenceState, MissingLookup};
use alias_tables::{EffectFault, Refusal, Tables};
use std::alloc::AllocError;

/// The effects of a call, and the first missing lookup on the way.
#[derive(Drop)]
pub struct Legacy {
    pub effects: AliasingEffects,
    pub missing: Option<MissingLookup>,
}

fn push_captures(out: &mut AliasingEffects, from: Place, stored: &[Place]) -> Result<(), AllocError>
    ensures { OnOk result (out.new ≡ out.old ++ map (λ (q : Place). Capture from q) stored.now) }
{
    for into in stored {
        push(out, AliasingEffect::Capture { from, into: *into })?;
    }
    Ok(())
}

/// A captured place goes where places were stored, or else into the result.
fn push_links_of(
    out: &mut AliasingEffects,
    into: Place,
    stored: &[Place],
    from: Place,
) -> Result<(), AllocError>
    ensures { OnOk result (out.new ≡ out.old ++ links_of into stored.now from) }
{
    match stored {
        [] => push(out, AliasingEffect::Alias { from, into }),
        [_, ..] => push_captures(out, from, stored),
    }
}

fn push_all_links(
    out: &mut AliasingEffects,
    into: Place,
    stored: &[Place],
    captured: &[Place],
) -> Result<(), AllocError>
    ensures { OnOk result (out.new ≡ out.old ++ all_links into stored.now captured.now) }
{
    for from in captured {
        push_links_of(out, into, stored, *from)?;
    }
    Ok(())
}

fn ended(
    tables: &Tables,
    into: Place,
    visits: Visits,
    missing: Option<MissingLookup>,
) -> Result<Legacy, EffectFault>
    ensures { Leaves (ended visits.refused into visits missing tables.now) result tables.now }
{
    let Visits {
        mut out,
        stored,
        captured,
        refused,
    } = visits;
    match refused {
        Some(place) => Err(EffectFault::Refused(Refusal::SpreadArgument {
            span: place.span,
            report: spread_report(tables.alloc(), place.span)?,
        })),
        None => {
            push_all_links(&mut out, into, stored.as_slice(), captured.as_slice())?;
            Ok(Legacy {
                effects: out,
                missing,
            })
        }
    }
}

/// Each argument is captured, and not written.
fn push_still_captures(
    out: &mut AliasingEffects,
    into: Place,
    args: &[PlaceOrSpreadOrHole],
) -> Result<(), AllocError>
    ensures { OnOk result (out.new ≡ out.old ++ still_captures into args.now) }
{
    for argument in args {
        match argument {
            PlaceOrSpreadOrHole::Place(place) => push(
                out,
                AliasingEffect::ImmutableCapture { from: *place, into },
            )?,
            PlaceOrSpreadOrHole::Spread(spread) => push(
                out,
                AliasingEffect::ImmutableCapture {
                    from: spread.place,
                    into,
                },
            )?,
            PlaceOrSpreadOrHole::Hole => {}
        }
    }
    Ok(())
}

/// Appends the call of an impure function, where it is reported.
fn push_impure_call(
    env: &Environment,
    tables: &mut Tables,
    signature: &FunctionSignature,
    site: CallSite,
    out: &mut AliasingEffects,
) -> Result<(), EffectFault>
    ensures { Extended (with_impure env.now signature.now site out.old tables.old) result out.new tables.new }
{
    if signature.impure && env.config.validate_no_impure_functions_in_render {
        let report = impure_report(tables.alloc(), signature.canonical_name.as_ref(), site.span)?;
        let error = tables.intern_report(site.receiver.identifier, report)?;
        push(
            out,
            AliasingEffect::Impure {
                place: site.receiver,
                error,
            },
        )?;
    }
    Ok(())
}

fn return_reason(signature: &FunctionSignature) -> ValueReason
    ensures { result ≡ return_reason signature.now }
{
    match signature.return_value_reason {
        Some(reason) => reason,
        None => ValueReason::Other,
    }
}

fn is_capture(effect: Effect) -> bool
    ensures { result ≡ is_capture effect }
{
    matches!(effect, Effect::Capture)
}

/// The receiver aliases the result, unless it is captured.
fn push_receiver(
    signature: &FunctionSignature,
    site: CallSite,
    out: &mut AliasingEffects,
) -> Result<(), AllocError>
    ensures { OnOk result (out.new ≡ with_receiver signature.now site out.old) }
{
    if !is_capture(signature.callee_effect) {
        push(
            out,
            AliasingEffect::Alias {
                from: site.receiver,
                into: site.into,
            },
        )?;
    }
    Ok(())
}

/// Receiver and arguments, in order.
fn visited(
    env: &Environment,
    tables: &Tables,
    signature: &FunctionSignature,
    site: CallSite,
    args: &[PlaceOrSpreadOrHole],
    before: AliasingEffects,
) -> Result<Visits, AllocError>
    ensures { IfOk result (λ v. v ≡ visited env.now signature.now site args.now before) }
{
    let mut out = before;
    push_receiver(signature, site, &mut out)?;
    let mut visits = Visits {
        out,
        stored: List::new(tables.alloc()),
        captured: List::new(tables.alloc()),
        refused: None,
    };
    let reason = return_reason(signature);
    visit(
        env,
        site.into,
        reason,
        site.receiver,
        signature.callee_effect,
        &mut visits,
    )?;
    visit_arguments(env, signature, site.into, reason, args, &mut visits)?;
    Ok(visits)
}

/// Whether the arguments are asked for, and immutable.
fn asked(
    env: &Environment,
    state: &InferenceState,
    signature: &FunctionSignature,
    args: &[PlaceOrSpreadOrHole],
) -> Checked
    ensures { result ≡ asked env.now signature.now args.now state.now }
{
    if signature.mutable_only_if_operands_are_mutable {
        immutables(env, state, args)
    } else {
        Checked {
            holds: false,
            missing: None,
        }
    }
}

/// The receiver is aliased, and the arguments are only read.
fn push_still(
    site: CallSite,
    args: &[PlaceOrSpreadOrHole],
    out: &mut AliasingEffects,
) -> Result<(), AllocError>
    ensures { OnOk result (out.new ≡ with_still site args.now out.old) }
{
    push(
        out,
        AliasingEffect::Alias {
            from: site.receiver,
            into: site.into,
        },
    )?;
    push_still_captures(out, site.into, args)
}

fn legacy_after(
    env: &Environment,
    tables: &Tables,
    signature: &FunctionSignature,
    site: CallSite,
    args: &[PlaceOrSpreadOrHole],
    checked: Checked,
    before: AliasingEffects,
) -> Result<Legacy, EffectFault>
    ensures { Leaves (legacy_after env.now signature.now site args.now checked before tables.now) result tables.now }
{
    if checked.holds {
        let mut effects = before;
        push_still(site, args, &mut effects)?;
        return Ok(Legacy {
            effects,
            missing: checked.missing,
        });
    }
    let visits = visited(env, tables, signature, site, args, before)?;
    ended(tables, site.into, visits, checked.missing)
}

/// The effects of a call by a signature without an aliasing part, and the first missing lookup on the way.
pub fn compute_effects_for_legacy_signature(
    env: &Environment,
    tables: &mut Tables,
    state: &InferenceState,
    signature: &FunctionSignature,
    site: CallSite,
    args: &[PlaceOrSpreadOrHole],
) -> Result<Legacy, EffectFault>
    ensures { Leaves (legacy_expansion env.now signature.now site args.now state.now tables.old) result tables.new }
{
    let mut out = List::new(tables.alloc());
    push(
        &mut out,
        AliasingEffect::Create {
            into: site.into,
            value: signature.return_value_kind,
            reason: return_reason(signature),
        },
    )?;
    push_impure_call(env, tables, signature, site, &mut out)?;
    let checked = asked(env, state, signature, args);
    legacy_after(env, tables, signature, site, args, checked, out)
}
