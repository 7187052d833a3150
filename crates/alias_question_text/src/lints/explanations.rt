//! Why a range ends where it does, as lines.
ghost use Rattle.std.specs.Prelude.{◌≡◌, ◌++◌, OnOk};
ghost use Rattle.std.specs.List.{flat_map};
ghost use Rattle.alias_question_text.specs.lints.Explanations.{range_line, reach_word, direction_word, kind_word, step_line, steps_text, cause_text, explanation_text, identifier_line, identifier_text, function_text};

use alias_base::{IdentifierId, Text};
use alias_explain::{Cause, Explanation, IdentifierExplanation, PathStep};
use alias_hir::env::MutableRange;
use alias_text::effects::push_spaced;
use std::alloc::AllocError;

fn push_range_line(out: &mut Text, range: MutableRange) -> Result<(), AllocError>
    ensures { OnOk result (out.new ≡ out.old ++ range_line range) }
{
    out.push_str("range")?;
    push_spaced(out, u64::from(range.start.0))?;
    push_spaced(out, u64::from(range.end.0))?;
    out.push_str("\n")
}

fn reach_word(transitive: bool) -> &'static str
    ensures { result.now ≡ reach_word transitive }
{
    if transitive { " transitive" } else { " local" }
}

fn direction_word(forwards: bool) -> &'static str
    ensures { result.now ≡ direction_word forwards }
{
    if forwards { " Forwards" } else { " Backwards" }
}

fn kind_word(definite: bool) -> &'static str
    ensures { result.now ≡ kind_word definite }
{
    if definite {
        " Definite"
    } else {
        " Conditional"
    }
}

/// Appends the line of a step of a path.
fn push_step_line(out: &mut Text, step: PathStep) -> Result<(), AllocError>
    ensures { OnOk result (out.new ≡ out.old ++ step_line step) }
{
    out.push_str("step")?;
    push_spaced(out, u64::from(step.identifier.0))?;
    out.push_str(reach_word(step.transitive))?;
    out.push_str(direction_word(step.forwards))?;
    out.push_str(kind_word(step.definite))?;
    out.push_str("\n")
}

fn push_steps(out: &mut Text, path: &[PathStep]) -> Result<(), AllocError>
    ensures { OnOk result (out.new ≡ out.old ++ steps_text path.now) }
{
    for step in path {
        push_step_line(out, *step)?;
    }
    Ok(())
}

fn push_cause(out: &mut Text, cause: &Cause) -> Result<(), AllocError>
    ensures { OnOk result (out.new ≡ out.old ++ cause_text cause.now) }
{
    match cause {
        Cause::Unset => out.push_str("unset\n"),
        Cause::NoCause => out.push_str("nocause\n"),
        Cause::Defined { instruction } => {
            out.push_str("defined")?;
            push_spaced(out, u64::from(instruction.0))?;
            out.push_str("\n")
        }
        Cause::Mutated { instruction, path } => {
            out.push_str("mutated")?;
            push_spaced(out, u64::from(instruction.0))?;
            out.push_str("\n")?;
            push_steps(out, path.as_slice())
        }
    }
}

/// Appends a line for the range, one for its cause, and one for each step of a path. An `Err` is out of memory:
/// `out` may then hold a part of it.
pub fn push_explanation(out: &mut Text, explanation: &Explanation) -> Result<(), AllocError>
    ensures { OnOk result (out.new ≡ out.old ++ explanation_text explanation.now) }
{
    push_range_line(out, explanation.range)?;
    push_cause(out, &explanation.cause)
}

fn push_identifier_line(out: &mut Text, identifier: IdentifierId) -> Result<(), AllocError>
    ensures { OnOk result (out.new ≡ out.old ++ identifier_line identifier) }
{
    out.push_str("identifier")?;
    push_spaced(out, u64::from(identifier.0))?;
    out.push_str("\n")
}

#[tactic(auto, unfolding(crate::specs::lints::Explanations::identifier_text))]
fn push_identifier(out: &mut Text, explained: &IdentifierExplanation) -> Result<(), AllocError>
    ensures { OnOk result (out.new ≡ out.old ++ identifier_text explained.now) }
{
    push_identifier_line(out, explained.identifier)?;
    push_explanation(out, &explained.explanation)
}

/// Appends a line for each identifier, each followed by the lines of what is explained of it. An `Err` is out of
/// memory: `out` may then hold a part of it.
pub fn push_function_explanation(
    out: &mut Text,
    explained: &[IdentifierExplanation],
) -> Result<(), AllocError>
    ensures { OnOk result (out.new ≡ out.old ++ function_text explained.now) }
{
    for identifier in explained {
        push_identifier(out, identifier)?;
    }
    Ok(())
}
