//! What the words and the input lead to, before anything is written.
ghost use Rattle.std.specs.Prelude.{◌≡◌, ◌≤◌, true, false};
ghost use Rattle.alias_cause_laws.specs.causes.Causes.{EachHasCause};
ghost use Rattle.alias_inferred_laws.specs.inferred.Explanations.{NeverTooMany};
ghost use Rattle.alias_inferred_laws.specs.inferred.Reports.{LintsAreReports};
ghost use Rattle.alias_rules.specs.Fitting.{function_fits};
ghost use Rattle.alias_stream.specs.Streams.{HasFailed};
ghost use Rattle.alias_made.specs.Units.{made_unit as unit_of};
ghost use Rattle.alias_run.specs.Commands.{reads, IsSized};
ghost use Rattle.alias_hir.specs.declared.env.Unit.{Unit as HirUnit};
ghost use Rattle.alias_read.specs.Units.{UnitReading};
ghost use Rattle.alias_run.specs.Findings.{parts_of, IsFound, IsRead, IsJudged, IsChecked, IsAnswered, IsReadAgain, IsInferred, IsInference, IsAccepted, IsAcceptedOf, IsBriefed, IsLinted, IsLintedOf, IsExplained, IsExplainedOf, IsFunctionExplained, IsFunctionExplainedOf, IsDecided, IsFit, Leaves};

use crate::answer::Answer;
use crate::command::Command;
use crate::following::{brief_inferred, verify_checked};
use crate::outcome::{Outcome, done, ended};
use crate::query::Query;
use crate::status::Status;
use alias_base::{FunctionId, IdentifierId};
use alias_cert::check_certificate;
use alias_cert_text::{read_certificate, unit_and_certificate};
use alias_certificate::Certificate;
use alias_explain::{explain_function, explain_range};
use alias_hir::env::Unit;
use alias_inner_passes::KeepAll;
use alias_lint::lines::lint_lines;
use alias_made::made_unit;
use alias_nested::{Inferred, infer_unit};
use alias_plain::plain_unit;
use alias_rules::check::{Checked, check_unit};
use alias_straight::read_unit;
use alias_stream::{Source, read_whole};
use std::alloc::Global;

/// What is inferred of a unit that is well formed, or the status where the inference refuses it.
fn inference_of(alloc: Global, unit: Checked) -> Result<Inferred, Status>
    ensures { IsInference unit result }
{
    let mut passes = KeepAll;
    // Looked at for what the clause of `unit` says: the unit is well formed.
    let _unit = unit.unit();
    match infer_unit(alloc, unit, &mut passes) {
        Ok(inferred) => Ok(inferred),
        Err(error) => Err(Status::from(error)),
    }
}

/// What a unit that is well formed leads to.
fn infer_checked(alloc: Global, unit: Checked) -> Outcome
    ensures { IsInferred unit result.status result.answer }
{
    match inference_of(alloc, unit) {
        Ok(inferred) => done(Answer::Inferred(inferred)),
        Err(status) => ended(status),
    }
}

/// Whether a certificate is one of the unit.
fn accept_certificate(alloc: Global, unit: Checked, certificate: &Certificate) -> Outcome
    ensures { IsAcceptedOf certificate.now unit result.status result.answer }
{
    // Looked at for what the clause of `unit` says: the unit is well formed.
    let _unit = unit.unit();
    match check_certificate(alloc, unit, certificate) {
        Ok(accepted) => done(Answer::Accepted(accepted)),
        Err(fault) => ended(Status::from(fault)),
    }
}

/// Whether a text is a certificate of the unit.
fn accept_checked(alloc: Global, unit: Checked, text: &[u8]) -> Outcome
    ensures { IsAccepted text.now unit result.status result.answer }
{
    match read_certificate(alloc, text) {
        Ok(certificate) => accept_certificate(alloc, unit, &certificate),
        Err(fault) => ended(Status::from(fault)),
    }
}

/// The text that follows from what is inferred of a unit, whose bytes these are.
fn brief_checked(alloc: Global, unit: Checked, again: &[u8]) -> Outcome
    requires { UnitReading again.now unit }
    ensures { IsBriefed unit result.status result.answer }
{
    // Looked at for what the clause of `unit` says: the unit is well formed.
    let _unit = unit.unit();
    match inference_of(alloc, unit) {
        Ok(inferred) => brief_inferred(alloc, again, inferred),
        Err(status) => ended(status),
    }
}

/// The reports of what was inferred of a unit.
#[tactic(auto, using(alias_range_pass::specs::CheckLaws::checked_fits))]
fn lint_inferred(alloc: Global, inferred: Inferred) -> Outcome
    requires fits { function_fits inferred.unit.function inferred.unit.env ≡ true }
    requires reports { LintsAreReports inferred }
    ensures { IsLintedOf inferred result.status result.answer }
{
    match lint_lines(alloc, inferred.unit) {
        Ok(lints) => done(Answer::Linted(lints)),
        Err(error) => ended(Status::from(error)),
    }
}

/// The reports on the unit, each with the place that it comes from.
fn lint_checked(alloc: Global, unit: Checked) -> Outcome
    ensures { IsLinted unit result.status result.answer }
{
    match inference_of(alloc, unit) {
        Ok(inferred) => lint_inferred(alloc, inferred),
        Err(status) => ended(status),
    }
}

/// Why the range of an identifier ends where it does, of what was inferred of a unit.
fn explain_inferred(
    alloc: Global,
    inferred: &Inferred,
    function: Option<FunctionId>,
    identifier: IdentifierId,
) -> Outcome
    requires numbered { NeverTooMany inferred.now }
    requires caused { EachHasCause inferred.now }
    ensures { IsExplainedOf function identifier inferred.now result.status result.answer }
{
    match explain_range(alloc, &inferred.unit, function, identifier) {
        Ok(explanation) => done(Answer::Explained(explanation)),
        Err(fault) => ended(Status::from(fault)),
    }
}

/// Why the range of an identifier ends where it does in the unit.
fn explain_checked(
    alloc: Global,
    unit: Checked,
    function: Option<FunctionId>,
    identifier: IdentifierId,
) -> Outcome
    ensures { IsExplained function identifier unit result.status result.answer }
{
    match inference_of(alloc, unit) {
        Ok(inferred) => explain_inferred(alloc, &inferred, function, identifier),
        Err(status) => ended(status),
    }
}

/// Why the ranges of all identifiers of a function end where they do, of what was inferred of a unit.
fn explain_function_inferred(
    alloc: Global,
    inferred: &Inferred,
    function: Option<FunctionId>,
) -> Outcome
    requires numbered { NeverTooMany inferred.now }
    requires caused { EachHasCause inferred.now }
    ensures { IsFunctionExplainedOf function inferred.now result.status result.answer }
{
    match explain_function(alloc, &inferred.unit, function) {
        Ok(explained) => done(Answer::FunctionExplained(explained)),
        Err(fault) => ended(Status::from(fault)),
    }
}

/// Why the ranges of all identifiers of a function end where they do in the unit.
fn explain_function_checked(alloc: Global, unit: Checked, function: Option<FunctionId>) -> Outcome
    ensures { IsFunctionExplained function unit result.status result.answer }
{
    match inference_of(alloc, unit) {
        Ok(inferred) => explain_function_inferred(alloc, &inferred, function),
        Err(status) => ended(status),
    }
}

/// Whether the unit is plain.
fn decide_checked(alloc: Global, unit: Checked) -> Outcome
    ensures { IsDecided unit result.status result.answer }
{
    match plain_unit(alloc, unit) {
        Ok(plainness) => done(Answer::Decided(plainness)),
        Err(fault) => ended(Status::from(fault)),
    }
}

/// What a unit that is well formed leads to, by what is asked about it, where the text is to be its certificate, or spells the
/// unit once more.
fn answer(alloc: Global, query: Query, unit: Checked, certificate: &[u8]) -> Outcome
    requires { IsReadAgain query certificate.now unit }
    ensures { IsAnswered query certificate.now unit result.status result.answer }
{
    match query {
        Query::Inference => infer_checked(alloc, unit),
        Query::Acceptance => accept_checked(alloc, unit, certificate),
        Query::BriefText => brief_checked(alloc, unit, certificate),
        Query::Verification => verify_checked(alloc, unit, certificate),
        Query::Lints => lint_checked(alloc, unit),
        Query::Explanation {
            function,
            identifier,
        } => explain_checked(alloc, unit, function, identifier),
        Query::FunctionExplanation { function } => explain_function_checked(alloc, unit, function),
        Query::Plainness => decide_checked(alloc, unit),
    }
}

/// What a unit leads to.
fn judge_unit(alloc: Global, query: Query, unit: Unit, certificate: &[u8]) -> Outcome
    requires { IsReadAgain query certificate.now unit }
    ensures { IsChecked query certificate.now unit result.status result.answer }
{
    match check_unit(alloc, unit) {
        Ok(checked) => answer(alloc, query, checked, certificate),
        Err(fault) => ended(Status::from(fault)),
    }
}

/// The bytes of the unit in the whole input, and those of what is to be its certificate, or those of the unit once more.
fn parts_of(query: Query, bytes: &[u8]) -> (&[u8], &[u8])
    ensures { (result.0.now, result.1.now) ≡ parts_of query bytes.now }
{
    match query {
        Query::Acceptance | Query::Verification => unit_and_certificate(bytes),
        Query::BriefText => (bytes, bytes),
        _ => (bytes, &[]),
    }
}

/// What the unit's part of the input leads to.
fn judge(alloc: Global, query: Query, unit: &[u8], certificate: &[u8]) -> Outcome
    requires { (u : HirUnit) → UnitReading unit.now u → IsReadAgain query certificate.now u }
    ensures { IsJudged query (unit.now, certificate.now) result.status result.answer }
{
    match read_unit(alloc, unit) {
        Ok(read) => judge_unit(alloc, query, read, certificate),
        Err(fault) => ended(Status::from(fault)),
    }
}

/// What the bytes of the whole input lead to.
fn judge_whole(alloc: Global, query: Query, bytes: &[u8]) -> Outcome
    ensures { IsJudged query (parts_of query bytes.now) result.status result.answer }
{
    let (unit, certificate) = parts_of(query, bytes);
    judge(alloc, query, unit, certificate)
}

/// What a source leads to, read to its end.
fn ask_source<S: Source>(alloc: Global, query: Query, source: &mut S) -> Outcome
    ensures read { IsRead query (S.left source.old) (HasFailed (S.faults source.old) (S.faults source.new) (S.at_last source.new)) result.status result.answer }
    ensures leaves { Leaves result.status (S.left source.new) }
    ensures faults { S.faults source.old ≤ S.faults source.new }
{
    match read_whole(alloc, source) {
        Ok(bytes) => judge_whole(alloc, query, bytes.as_slice()),
        Err(stop) => ended(Status::from(stop)),
    }
}

/// What the unit of a seed and a size leads to. It is well formed, so that none of them refuses it, and its
/// inference has a result.
fn infer_made(alloc: Global, seed: u64, size: u32) -> Outcome
    requires some { 1 ≤ size }
    requires limit { size ≤ 1000 }
    ensures { IsFit (unit_of seed size) result.status result.answer }
{
    match made_unit(alloc, seed, size) {
        Ok(unit) => judge_unit(alloc, Query::Inference, unit, &[]),
        Err(_) => ended(Status::Memory),
    }
}

/// What the words and the source lead to, where the words ask for this.
#[tactic(auto, unfolding(crate::specs::Findings::IsFound))]
pub(crate) fn find<S: Source>(alloc: Global, asked: Option<Command>, source: &mut S) -> Outcome
    requires { IsSized asked }
    ensures found { IsFound asked (S.left source.old) (HasFailed (S.faults source.old) (S.faults source.new) (S.at_last source.new)) result.status result.answer }
    ensures unread { reads asked ≡ false → (S.left source.new ≡ S.left source.old) × (S.faults source.new ≡ S.faults source.old) }
    ensures leaves { reads asked ≡ true → Leaves result.status (S.left source.new) }
    ensures faults { S.faults source.old ≤ S.faults source.new }
{
    match asked {
        None => ended(Status::Words),
        Some(Command::Infer | Command::Certify) => ask_source(alloc, Query::Inference, source),
        Some(Command::Check) => ask_source(alloc, Query::Acceptance, source),
        Some(Command::Brief) => ask_source(alloc, Query::BriefText, source),
        Some(Command::Verify) => ask_source(alloc, Query::Verification, source),
        Some(Command::Lint) => ask_source(alloc, Query::Lints, source),
        Some(
            Command::Explain {
                function,
                identifier,
            },
        ) => {
            let query = Query::Explanation {
                function,
                identifier,
            };
            ask_source(alloc, query, source)
        }
        Some(Command::ExplainFunction { function }) => {
            ask_source(alloc, Query::FunctionExplanation { function }, source)
        }
        Some(Command::Plain) => ask_source(alloc, Query::Plainness, source),
        Some(Command::Made { seed, size }) => infer_made(alloc, seed, size),
        Some(Command::Help | Command::Version) => ended(Status::Done),
    }
}
