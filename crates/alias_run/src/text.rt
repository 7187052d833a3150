//! The text that a run writes: a result, the line of a refusal, or what a command tells of the program.
ghost use Rattle.std.specs.Prelude.{◌≡◌, ◌++◌, OnOk, IfOk};
ghost use Rattle.alias_question_text.specs.lints.Explanations.{explanation_text, function_text};
ghost use Rattle.alias_question_text.specs.lints.Lints.{lints_text};
ghost use Rattle.alias_question_text.specs.plain.Lines.{plainness_text};
ghost use Rattle.alias_cert_text.specs.check_lines.CheckLines.{accepted_text as functions_accepted};
ghost use Rattle.alias_run.specs.Statuses.{spaced_line, differs_text, refusal_line};
ghost use Rattle.alias_text.specs.Fitting.{AreFitting, IfCertify};
ghost use Rattle.alias_run.specs.Texts.{inferred_text, accepted_text, answer_text, text_of, IsCertificateOf, IsReadBack, IsCertifying};

use crate::answer::Answer;
use crate::command::Command;
use crate::outcome::Outcome;
use crate::status::Status;
use crate::telling::{VERSION, help};
use alias_base::Text;
use alias_cert::Accepted;
use alias_cert_text::check_lines::{push_accepted, push_bad_line, push_rejected};
use alias_certificate_laws::text::reads_back;
use alias_explain::{Explanation, IdentifierExplanation};
use alias_lint::Lint;
use alias_nested::Inferred;
use alias_plain::laws::Plainness;
use alias_question_text::lints::{push_explanation, push_function_explanation, push_lints};
use alias_question_text::plain::{push_plain_refusal, push_plainness};
use alias_text::Detail;
use alias_text::effects::push_spaced;
use alias_text::refusals::{push_not_unit, push_refusal, push_unfit};
use alias_text::results::push_result;
use std::alloc::{AllocError, Global};

/// Appends a blank and the line, where there is one.
fn push_spaced_line(out: &mut Text, line: &str) -> Result<(), AllocError>
    ensures { OnOk result (out.new ≡ out.old ++ spaced_line line.now) }
{
    if line.is_empty() {
        return Ok(());
    }
    out.push_str(" ")?;
    out.push_str(line)
}

/// Appends the line of a certificate that differs from what follows: the number of the line, and what follows there.
fn push_differs(out: &mut Text, number: usize, line: &str) -> Result<(), AllocError>
    ensures { OnOk result (out.new ≡ out.old ++ differs_text number line.now) }
{
    out.push_str("refused Differs")?;
    push_spaced(out, number as u64)?;
    push_spaced_line(out, line)?;
    out.push_str("\n")
}

/// Appends the line that a run with this status writes, where nothing was inferred: none where the status writes
/// none. An `Err` is out of memory, and leaves what was appended before it.
pub fn push_refusal_line(alloc: Global, out: &mut Text, status: &Status) -> Result<(), AllocError>
    ensures { OnOk result (out.new ≡ out.old ++ refusal_line status.now) }
{
    match status {
        Status::Words => out.push_str("refused Words\n"),
        Status::NotJson => out.push_str("refused NotJson\n"),
        Status::NotUnit { pointer, rule } => push_not_unit(alloc, out, pointer, *rule),
        Status::Unfit(fault) => push_unfit(out, *fault),
        Status::BadLine(number) => push_bad_line(out, *number),
        Status::Rejected(fault) => push_rejected(out, fault),
        Status::Differs { number, line } => push_differs(out, *number, line.as_str()),
        Status::PlainRefused(fault) => push_plain_refusal(out, fault),
        Status::Refused(error) => push_refusal(out, error),
        Status::NotHere => out.push_str("refused NotHere\n"),
        Status::ReadFault => out.push_str("refused ReadFault\n"),
        Status::TooLong => out.push_str("refused TooLong\n"),
        Status::Done | Status::WriteFault | Status::Memory => Ok(()),
    }
}

/// The line that a run with this status writes, where nothing was inferred: the empty text where the status writes
/// none.
pub fn print_refusal(alloc: Global, status: &Status) -> Result<Text, AllocError>
    ensures { IfOk result (λ t. t ≡ refusal_line status.now) }
{
    let mut out = Text::new(alloc);
    push_refusal_line(alloc, &mut out, status)?;
    Ok(out)
}

/// Does nothing: it tells the prover that a certificate that is printed reads as that.
fn certificate_reads_back(text: &str, inferred: &Inferred, detail: Detail)
    requires printed { text.now ≡ inferred_text detail inferred.now }
    requires fits { IfCertify detail (AreFitting inferred.now.unit inferred.now.solved) }
    ensures { IfCertify detail (IsCertificateOf inferred.now text.now) }
{
    let solved = inferred.solved.as_slice();
    let summary = inferred.summary.as_slice();
    let reports = inferred.reports.as_slice();
    match detail {
        Detail::Certify => reads_back(text, &inferred.unit, solved, summary, reports),
        Detail::Infer | Detail::Counts => (),
    }
}

/// What is inferred of a unit, in this detail, as docs/FORMAT.md describes it. What `Certify` gives reads as the
/// certificate of what was inferred.
pub fn print_inferred(
    alloc: Global,
    inferred: &Inferred,
    detail: Detail,
) -> Result<Text, AllocError>
    ensures text { IfOk result (λ t. t ≡ inferred_text detail inferred.now) }
    ensures reads_back { IfOk result (λ t. IfCertify detail (IsCertificateOf inferred.now t)) }
{
    let mut out = Text::new(alloc);
    push_result(
        alloc,
        &mut out,
        detail,
        &inferred.unit,
        inferred.solved.as_slice(),
        inferred.summary.as_slice(),
        inferred.reports.as_slice(),
    )?;
    certificate_reads_back(out.as_str(), inferred, detail);
    Ok(out)
}

/// How many functions a certificate has that is accepted, as docs/FORMAT.md describes it.
pub fn print_accepted(alloc: Global, accepted: &Accepted) -> Result<Text, AllocError>
    ensures { IfOk result (λ t. t ≡ accepted_text accepted.now) }
{
    let mut out = Text::new(alloc);
    push_accepted(&mut out, accepted.solved.len())?;
    Ok(out)
}

/// What is inferred of a unit, with what a verifier of each line needs, as docs/FORMAT.md describes it: a copy.
pub fn print_brief(alloc: Global, text: &Text) -> Result<Text, AllocError>
    ensures { IfOk result (λ t. t ≡ text.now) }
{
    Text::from_str(alloc, text.as_str())
}

/// How many functions a unit has, where each line is the one that follows, as docs/FORMAT.md describes it.
pub fn print_verified(alloc: Global, functions: usize) -> Result<Text, AllocError>
    ensures { IfOk result (λ t. t ≡ functions_accepted functions) }
{
    let mut out = Text::new(alloc);
    push_accepted(&mut out, functions)?;
    Ok(out)
}

/// The reports on a unit, each with the place that it comes from, as docs/FORMAT.md describes them.
pub fn print_lints(alloc: Global, lints: &[Lint]) -> Result<Text, AllocError>
    ensures { IfOk result (λ t. t ≡ lints_text lints.now) }
{
    let mut out = Text::new(alloc);
    push_lints(alloc, &mut out, lints)?;
    Ok(out)
}

/// Why a range ends where it does, as docs/FORMAT.md describes it.
pub fn print_explanation(alloc: Global, explanation: &Explanation) -> Result<Text, AllocError>
    ensures { IfOk result (λ t. t ≡ explanation_text explanation.now) }
{
    let mut out = Text::new(alloc);
    push_explanation(&mut out, explanation)?;
    Ok(out)
}

/// Why the range of each identifier of a function ends where it does, as docs/FORMAT.md describes it.
pub fn print_function_explanation(
    alloc: Global,
    explained: &[IdentifierExplanation],
) -> Result<Text, AllocError>
    ensures { IfOk result (λ t. t ≡ function_text explained.now) }
{
    let mut out = Text::new(alloc);
    push_function_explanation(&mut out, explained)?;
    Ok(out)
}

/// Whether a unit is plain, as docs/FORMAT.md describes it.
pub fn print_plainness(alloc: Global, plainness: Plainness) -> Result<Text, AllocError>
    ensures { IfOk result (λ t. t ≡ plainness_text plainness) }
{
    let mut out = Text::new(alloc);
    push_plainness(&mut out, plainness)?;
    Ok(out)
}

/// The answer, where there is one, and else the line of the refusal.
fn print_outcome(alloc: Global, outcome: &Outcome, detail: Detail) -> Result<Text, AllocError>
    ensures text { IfOk result (λ t. t ≡ answer_text detail outcome.now.status outcome.now.answer) }
    ensures reads_back { IfOk result (λ t. IsReadBack outcome.now.answer detail t) }
{
    match &outcome.answer {
        Answer::Nothing => print_refusal(alloc, &outcome.status),
        Answer::Inferred(inferred) => print_inferred(alloc, inferred, detail),
        Answer::Accepted(accepted) => print_accepted(alloc, accepted),
        Answer::Briefed(text) => print_brief(alloc, text),
        Answer::Verified(functions) => print_verified(alloc, *functions),
        Answer::Linted(lints) => print_lints(alloc, lints.as_slice()),
        Answer::Explained(explanation) => print_explanation(alloc, explanation),
        Answer::FunctionExplained(explained) => {
            print_function_explanation(alloc, explained.as_slice())
        }
        Answer::Decided(plainness) => print_plainness(alloc, *plainness),
    }
}

/// The text that a run writes.
pub(crate) fn text_of(
    alloc: Global,
    asked: Option<Command>,
    outcome: &Outcome,
) -> Result<Text, AllocError>
    ensures text { IfOk result (λ t. t ≡ text_of asked outcome.now.status outcome.now.answer) }
    ensures certifies { IfOk result (λ t. IsCertifying asked outcome.now.answer t) }
{
    match asked {
        None => print_refusal(alloc, &outcome.status),
        Some(Command::Infer) => print_outcome(alloc, outcome, Detail::Infer),
        Some(Command::Certify) => print_outcome(alloc, outcome, Detail::Certify),
        Some(
            Command::Check
            | Command::Brief
            | Command::Verify
            | Command::Lint
            | Command::Explain { .. }
            | Command::ExplainFunction { .. }
            | Command::Plain,
        ) => print_outcome(alloc, outcome, Detail::Infer),
        Some(Command::Made { .. }) => print_outcome(alloc, outcome, Detail::Counts),
        Some(Command::Help) => help(alloc),
        Some(Command::Version) => Text::from_str(alloc, VERSION),
    }
}
