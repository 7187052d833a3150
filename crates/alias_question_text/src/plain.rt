//! Whether a unit is plain, and why that isn't known, as lines.
ghost use Rattle.std.specs.Prelude.{◌≡◌, ◌++◌, OnOk};
ghost use Rattle.alias_question_text.specs.plain.Lines.{refused_head, function_text, counter_text, plainness_text, plain_refusal_text};

use alias_base::{FunctionId, Text};
use alias_hir::error::Counter;
use alias_plain::laws::{PlainFault, Plainness};
use alias_text::effects::push_spaced;
use alias_text::functions::push_function_name;
use alias_text::refusals::counter_word;
use std::alloc::AllocError;

/// Appends one line: `plain`, or `not plain`, the function, the instruction, and the number of the first of the five
/// conditions that it breaks. An `Err` is out of memory: `out` may then hold a part of it.
pub fn push_plainness(out: &mut Text, plainness: Plainness) -> Result<(), AllocError>
    ensures { OnOk result (out.new ≡ out.old ++ plainness_text plainness) }
{
    match plainness {
        Plainness::Plain => out.push_str("plain\n"),
        Plainness::NotPlain {
            function,
            instruction,
            rule,
        } => {
            out.push_str("not plain ")?;
            push_function_name(out, function)?;
            push_spaced(out, u64::from(instruction.0))?;
            push_spaced(out, u64::from(rule))?;
            out.push_str("\n")
        }
    }
}

/// Appends what is refused, and its cause.
fn push_refused_head(out: &mut Text, name: &str, cause: &str) -> Result<(), AllocError>
    ensures { OnOk result (out.new ≡ out.old ++ refused_head name.now cause.now) }
{
    out.push_str("refused ")?;
    out.push_str(name)?;
    out.push_str(" ")?;
    out.push_str(cause)?;
    out.push_str(" ")
}

/// Appends the line of a refusal whose cause is in a function.
fn push_in_function(
    out: &mut Text,
    name: &str,
    cause: &str,
    function: Option<FunctionId>,
) -> Result<(), AllocError>
    ensures { OnOk result (out.new ≡ out.old ++ function_text name.now cause.now function) }
{
    push_refused_head(out, name, cause)?;
    push_function_name(out, function)?;
    out.push_str("\n")
}

/// Appends the line of a refusal whose cause is a counter.
fn push_of_counter(
    out: &mut Text,
    name: &str,
    cause: &str,
    which: Counter,
) -> Result<(), AllocError>
    ensures { OnOk result (out.new ≡ out.old ++ counter_text name.now cause.now which) }
{
    push_refused_head(out, name, cause)?;
    out.push_str(counter_word(which))?;
    out.push_str("\n")
}

/// Appends the line of a unit of which it isn't known whether it is plain: the cause, and the function that isn't settled or
/// the counter that is at its end. Out of memory has no line. An `Err` is out of memory: `out` may then hold a part of it.
pub fn push_plain_refusal(out: &mut Text, fault: &PlainFault) -> Result<(), AllocError>
    ensures { OnOk result (out.new ≡ out.old ++ plain_refusal_text fault.now) }
{
    match fault {
        PlainFault::NotSettled { function } => {
            push_in_function(out, "PlainRefused", "NotSettled", *function)
        }
        PlainFault::TooMany(which) => push_of_counter(out, "PlainRefused", "TooMany", *which),
        PlainFault::Memory(_) => Ok(()),
    }
}
