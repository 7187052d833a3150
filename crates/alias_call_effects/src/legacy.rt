//! The effects of a call by a signature without an aliasing part.

ghost use Rattle.std.specs.Prelude.{◌≡◌, ◌<◌, true, length, slice_set, option_map, IfOk, OnErr};
ghost use Rattle.alias_base.specs.Answer.{Gives};
ghost use Rattle.alias_hir.specs.declared.effect.AliasingEffect.TheVariants.{Impure};
ghost use Rattle.alias_apply.specs.Reports.{impure_report};
ghost use Rattle.alias_call_effects.specs.Answers.{Answers, has_numbers, is_memory, site_of};
ghost use Rattle.alias_call_effects.specs.Legacy.{is_reported, legacy_called, list_without_reports};

use crate::configs::site_of;
use crate::error::SignatureError;
use alias_apply::reports::impure_report;
use alias_base::IdentifierId;
use alias_calls::{CallSite, Legacy, compute_effects_for_legacy_signature as list_of_signature};
use alias_hir::effect::{AliasingEffect, AliasingEffects};
use alias_hir::env::Environment;
use alias_hir::error::Counter;
use alias_hir::interned::InternedReports;
use alias_hir::place::{Place, PlaceOrSpreadOrHole, Span};
use alias_hir::report::{Report, ReportId};
use alias_hir::signature::FunctionSignature;
use alias_lattice::InferenceState;
use alias_tables::{Tables, intern_report};
use std::alloc::{AllocError, Global};

/// Whether the call of an impure function is reported.
fn is_reported(env: &Environment, signature: &FunctionSignature) -> bool
    ensures { result ≡ is_reported env.now signature.now }
{
    signature.impure && env.config.validate_no_impure_functions_in_render
}

fn report_of(
    alloc: Global,
    signature: &FunctionSignature,
    site: CallSite,
) -> Result<Report, AllocError>
    ensures { IfOk result (λ r. r ≡ impure_report signature.now.canonical_name site.span) }
{
    impure_report(alloc, signature.canonical_name.as_ref(), site.span)
}

/// Whether there are numbers for the report: those of reports that are kept, or new ones.
fn has_numbers(reports: &InternedReports, identifier: IdentifierId, report: &Report) -> bool
    ensures { result ≡ has_numbers identifier report.now reports.now }
{
    let (identity, instance) = reports.numbers_of(identifier, report);
    identity < 4294967295 && instance < 4294967295
}

/// The list as it is where no report is interned. Where the call is reported, its report has the numbers of the first one.
fn list_without_reports(
    alloc: Global,
    env: &Environment,
    state: &InferenceState,
    signature: &FunctionSignature,
    site: CallSite,
    args: &[PlaceOrSpreadOrHole],
) -> Result<Legacy, SignatureError>
    ensures { Gives is_memory (list_without_reports env.now signature.now site args.now state.now) result }
{
    let mut tables = Tables::new(alloc, InternedReports::new(alloc));
    Ok(list_of_signature(env, &mut tables, state, signature, site, args)?)
}

/// Gives the report of an impure call, which stands second, its numbers.
fn number_report(effects: &mut AliasingEffects, place: Place, error: ReportId)
    requires { 1 < length effects.old }
    ensures { effects.new ≡ slice_set effects.old 1 (Impure place error) }
{
    let _effect = effects.replace(1, AliasingEffect::Impure { place, error });
}

/// The list of a call that is reported. After an `Err` nothing has changed.
#[tactic(auto, using(crate::specs::LegacyLaws::reported_full))]
fn reported_expansion(
    alloc: Global,
    env: &mut Environment,
    state: &InferenceState,
    signature: &FunctionSignature,
    site: CallSite,
    args: &[PlaceOrSpreadOrHole],
) -> Result<Legacy, SignatureError>
    requires { is_reported env.old signature.now ≡ true }
    ensures answer { Answers (legacy_called signature.now site args.now state.now env.old) result env.new }
    ensures err { OnErr result (env.new ≡ env.old) }
{
    let identifier = site.receiver.identifier;
    let report = report_of(alloc, signature, site)?;
    if !has_numbers(&env.interned, identifier, &report) {
        return Err(SignatureError::TooMany(Counter::Diagnostics));
    }
    let mut legacy = list_without_reports(alloc, env, state, signature, site, args)?;
    let error = intern_report(&mut env.interned, identifier, report)?;
    number_report(&mut legacy.effects, site.receiver, error);
    Ok(legacy)
}

/// The effects of a call by a signature without an aliasing part, and the first look at an identifier without a value on
/// the way. The report of an impure call is interned, where the configuration asks for it.
///
/// The errors: `TooMany`, where no number is left for that report; else `SpreadArgument`, at the first spread argument that
/// would be frozen. After an `Err` the environment is as it was.
#[tactic(auto, using(crate::specs::LegacyLaws::unreported_ok, crate::specs::LegacyLaws::unreported_err))]
pub fn compute_effects_for_legacy_signature(
    alloc: Global,
    state: &InferenceState,
    signature: &FunctionSignature,
    lvalue: &Place,
    receiver: &Place,
    args: &[PlaceOrSpreadOrHole],
    span: Option<&Span>,
    env: &mut Environment,
) -> Result<Legacy, SignatureError>
    ensures answer { Answers (legacy_called signature.now (site_of lvalue.now receiver.now (option_map (λ s. s.now) span.entry)) args.now state.now env.old) result env.new }
    ensures err { OnErr result (env.new ≡ env.old) }
{
    let site = site_of(lvalue, receiver, span);
    if is_reported(env, signature) {
        reported_expansion(alloc, env, state, signature, site, args)
    } else {
        list_without_reports(alloc, env, state, signature, site, args)
    }
}
