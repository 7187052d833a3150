//! Why a unit or a function is refused, as lines.
ghost use Rattle.std.specs.Prelude.{◌≡◌, ◌++◌, OnOk, codes};
ghost use Rattle.alias_text.specs.Lines.{spaced};
ghost use Rattle.alias_text.specs.Refusals.{refused_head, at_number_text, at_numbers_text, refused_text, table_word, spaced_function, spaced_holder, pass_word, counter_word, last_word, word_text, number_text, pass_fault_text, unfit_data, unfit_text, rule_word, words_text, not_unit_text};

use crate::effects::push_spaced;
use crate::functions::push_function_name;
use crate::quoting::quoted;
use alias_base::{FunctionId, IdentifierId, InstructionId, Text};
use alias_hir::error::{Counter, InferError, Pass};
use alias_json::fault::TextRule;
use alias_rules::function_rules::fault::{Holder, Table, UnitFault};
use std::alloc::{AllocError, Global};

/// Appends what is refused, and the function.
fn push_refused_head(
    out: &mut Text,
    name: &str,
    function: Option<FunctionId>,
) -> Result<(), AllocError>
    ensures { OnOk result (out.new ≡ out.old ++ refused_head name.now function) }
{
    out.push_str("refused ")?;
    out.push_str(name)?;
    out.push_str(" ")?;
    push_function_name(out, function)
}

/// Appends the line of a refusal at one number of a function.
fn push_at_number(
    out: &mut Text,
    name: &str,
    function: Option<FunctionId>,
    number: u64,
) -> Result<(), AllocError>
    ensures { OnOk result (out.new ≡ out.old ++ at_number_text name.now function number) }
{
    push_refused_head(out, name, function)?;
    push_spaced(out, number)?;
    out.push_str("\n")
}

/// Appends the line of a refusal at an instruction of a function.
fn push_at_instruction(
    out: &mut Text,
    name: &str,
    function: Option<FunctionId>,
    instruction: InstructionId,
) -> Result<(), AllocError>
    ensures { OnOk result (out.new ≡ out.old ++ at_number_text name.now function instruction.0) }
{
    push_at_number(out, name, function, u64::from(instruction.0))
}

/// Appends the line of a refusal at two numbers of a function.
fn push_at_numbers(
    out: &mut Text,
    name: &str,
    function: Option<FunctionId>,
    first: u32,
    second: u32,
) -> Result<(), AllocError>
    ensures { OnOk result (out.new ≡ out.old ++ at_numbers_text name.now function first second) }
{
    push_refused_head(out, name, function)?;
    push_spaced(out, u64::from(first))?;
    push_spaced(out, u64::from(second))?;
    out.push_str("\n")
}

fn pass_word(pass: Pass) -> &'static str
    ensures { result.now ≡ pass_word pass }
{
    match pass {
        Pass::DeadCodeElimination => "DeadCodeElimination",
        Pass::RewriteInstructionKindsBasedOnReassignment => {
            "RewriteInstructionKindsBasedOnReassignment"
        }
        Pass::InferReactiveScopeVariables => "InferReactiveScopeVariables",
    }
}

/// The word of a counter.
pub fn counter_word(counter: Counter) -> &'static str
    ensures { result.now ≡ counter_word counter }
{
    match counter {
        Counter::Identifiers => "Identifiers",
        Counter::Diagnostics => "Diagnostics",
        Counter::GraphPositions => "GraphPositions",
    }
}

/// Appends the last word of a line.
fn push_last(out: &mut Text, word: &str) -> Result<(), AllocError>
    ensures { OnOk result (out.new ≡ out.old ++ last_word word.now) }
{
    out.push_str(" ")?;
    out.push_str(word)?;
    out.push_str("\n")
}

/// Appends the line of a refusal that names neither function nor number, but one word.
fn push_word(out: &mut Text, name: &str, word: &str) -> Result<(), AllocError>
    ensures { OnOk result (out.new ≡ out.old ++ word_text name.now word.now) }
{
    out.push_str("refused ")?;
    out.push_str(name)?;
    push_last(out, word)
}

/// Appends the line of a refusal that names a number and no function.
fn push_number_alone(out: &mut Text, name: &str, number: u64) -> Result<(), AllocError>
    ensures { OnOk result (out.new ≡ out.old ++ number_text name.now number) }
{
    out.push_str("refused ")?;
    out.push_str(name)?;
    push_spaced(out, number)?;
    out.push_str("\n")
}

/// Appends the line of a pass that failed.
fn push_pass_fault(
    out: &mut Text,
    function: Option<FunctionId>,
    pass: Pass,
) -> Result<(), AllocError>
    ensures { OnOk result (out.new ≡ out.old ++ pass_fault_text function pass) }
{
    push_refused_head(out, "PassFault", function)?;
    push_last(out, pass_word(pass))
}

/// Appends the line of a refusal by the inference: what was refused, and where. Out of memory has no line.
/// An `Err` is out of memory: `out` may then hold a part of it.
pub fn push_refusal(out: &mut Text, error: &InferError) -> Result<(), AllocError>
    ensures { OnOk result (out.new ≡ out.old ++ refused_text error.now) }
{
    match error {
        InferError::NotSettled {
            function,
            visits,
            ..
        } => push_at_number(out, "NotSettled", *function, *visits),
        InferError::Uninitialized {
            function,
            block,
            identifier,
            ..
        } => push_at_numbers(out, "Uninitialized", *function, block.0, identifier.0),
        InferError::Reinitialized {
            function,
            instruction,
            identifier,
        } => push_at_numbers(out, "Reinitialized", *function, instruction.0, identifier.0),
        InferError::AliasBeforeCreate {
            function,
            instruction,
            identifier,
        } => push_at_numbers(
            out,
            "AliasBeforeCreate",
            *function,
            instruction.0,
            identifier.0,
        ),
        InferError::IncompatibleLibrary {
            function,
            instruction,
            ..
        } => push_at_instruction(out, "IncompatibleLibrary", *function, *instruction),
        InferError::SpreadArgument {
            function,
            instruction,
            ..
        } => push_at_instruction(out, "SpreadArgument", *function, *instruction),
        InferError::UnreplacedApply { instruction, .. } => {
            push_number_alone(out, "UnreplacedApply", u64::from(instruction.0))
        }
        InferError::EffectsNotInferred { identifier } => {
            push_number_alone(out, "EffectsNotInferred", u64::from(identifier.0))
        }
        InferError::PassFault { function, pass } => push_pass_fault(out, *function, *pass),
        InferError::TooMany { which } => push_word(out, "TooMany", counter_word(*which)),
        InferError::Memory(_) => Ok(()),
    }
}

fn table_word(table: Table) -> &'static str
    ensures { result.now ≡ table_word table }
{
    match table {
        Table::Identifiers => "Identifiers",
        Table::Types => "Types",
        Table::Functions => "Functions",
        Table::Instructions => "Instructions",
        Table::Declarations => "Declarations",
    }
}

/// Appends a space and the function.
fn push_spaced_function(out: &mut Text, function: Option<FunctionId>) -> Result<(), AllocError>
    ensures { OnOk result (out.new ≡ out.old ++ spaced_function function) }
{
    out.push_str(" ")?;
    push_function_name(out, function)
}

/// Appends the function and a number in it.
fn push_in_function(
    out: &mut Text,
    function: Option<FunctionId>,
    number: u32,
) -> Result<(), AllocError>
    ensures { OnOk result (out.new ≡ out.old ++ spaced_function function ++ spaced number) }
{
    push_spaced_function(out, function)?;
    push_spaced(out, u64::from(number))
}

/// Appends the function and two numbers in it.
fn push_both_in_function(
    out: &mut Text,
    function: Option<FunctionId>,
    first: u32,
    second: u32,
) -> Result<(), AllocError>
    ensures { OnOk result (out.new ≡ out.old ++ spaced_function function ++ spaced first ++ spaced second) }
{
    push_in_function(out, function, first)?;
    push_spaced(out, u64::from(second))
}

/// Appends the table and the number that is past its end.
fn push_in_table(out: &mut Text, table: Table, number: u32) -> Result<(), AllocError>
    ensures { OnOk result (out.new ≡ out.old ++ codes " " ++ table_word table ++ spaced number) }
{
    out.push_str(" ")?;
    out.push_str(table_word(table))?;
    push_spaced(out, u64::from(number))
}

/// Appends what has too much of something, and how much.
fn push_too_much(out: &mut Text, holder: Holder, number: u64) -> Result<(), AllocError>
    ensures { OnOk result (out.new ≡ out.old ++ spaced_holder holder ++ spaced number) }
{
    match holder {
        Holder::Function(function) => push_spaced_function(out, function)?,
        Holder::Signature => out.push_str(" signature")?,
    }
    push_spaced(out, number)
}

/// Appends an identifier, and the function that has it.
fn push_shared(
    out: &mut Text,
    identifier: IdentifierId,
    function: Option<FunctionId>,
) -> Result<(), AllocError>
    ensures { OnOk result (out.new ≡ out.old ++ spaced identifier.0 ++ spaced_function function) }
{
    push_spaced(out, u64::from(identifier.0))?;
    push_spaced_function(out, function)
}

/// Appends where a unit breaks a rule.
fn push_unfit_data(out: &mut Text, fault: UnitFault) -> Result<(), AllocError>
    ensures { OnOk result (out.new ≡ out.old ++ unfit_data fault) }
{
    match fault {
        UnitFault::IdOutOfRange { table, number } => push_in_table(out, table, number),
        UnitFault::SuccessorMissing {
            function,
            block,
            named,
        }
        | UnitFault::PhiNoPredecessor {
            function,
            block,
            named,
        } => push_both_in_function(out, function, block.0, named.0),
        UnitFault::EntryMissing { function }
        | UnitFault::NestingNoTree { function }
        | UnitFault::NestingTooDeep { function }
        | UnitFault::ContextValues { function } => push_spaced_function(out, function),
        UnitFault::TypeTooDeep { number } => push_spaced(out, u64::from(number)),
        UnitFault::InstructionMissing {
            function,
            instruction,
        }
        | UnitFault::InstructionTwice {
            function,
            instruction,
        } => push_in_function(out, function, instruction.0),
        UnitFault::TwoTrys { function, handler } => push_in_function(out, function, handler.0),
        UnitFault::OrderOutOfRange { function, order } => push_in_function(out, function, order.0),
        UnitFault::NotDistinct {
            function,
            identifier,
        } => push_in_function(out, function, identifier.0),
        UnitFault::IdentifierInTwo {
            identifier,
            function,
        } => push_shared(out, identifier, function),
        UnitFault::TooMuch { holder, number } => push_too_much(out, holder, number),
        UnitFault::SomethingInferred | UnitFault::Memory(_) => Ok(()),
    }
}

/// Appends the line of a unit that does not fit: the number of the rule that it breaks, and where. Out of
/// memory has no line. An `Err` is out of memory: `out` may then hold a part of it.
pub fn push_unfit(out: &mut Text, fault: UnitFault) -> Result<(), AllocError>
    ensures { OnOk result (out.new ≡ out.old ++ unfit_text fault) }
{
    match fault.rule_number() {
        Some(rule) => {
            out.push_str("refused Unfit")?;
            push_spaced(out, u64::from(rule))?;
            push_unfit_data(out, fault)?;
            out.push_str("\n")
        }
        None => Ok(()),
    }
}

fn rule_word(rule: TextRule) -> &'static str
    ensures { result.now ≡ rule_word rule }
{
    match rule {
        TextRule::Missing => "Missing",
        TextRule::Unknown => "Unknown",
        TextRule::Kind => "Kind",
        TextRule::Float => "Float",
        TextRule::Range => "Range",
        TextRule::Name => "Name",
        TextRule::Twice => "Twice",
    }
}

/// Appends the line of a refusal that names two words and no function.
fn push_words(out: &mut Text, name: &str, first: &str, second: &str) -> Result<(), AllocError>
    ensures { OnOk result (out.new ≡ out.old ++ words_text name.now first.now second.now) }
{
    out.push_str("refused ")?;
    out.push_str(name)?;
    out.push_str(" ")?;
    out.push_str(first)?;
    push_last(out, second)
}

/// Appends the line of a text that is JSON and no unit: the pointer to the first value that breaks a rule of the
/// format, as a JSON text, and the rule. An `Err` is out of memory: `out` may then hold a part of it.
pub fn push_not_unit(
    alloc: Global,
    out: &mut Text,
    pointer: &Text,
    rule: TextRule,
) -> Result<(), AllocError>
    ensures { OnOk result (out.new ≡ out.old ++ not_unit_text pointer.now rule) }
{
    let pointer = quoted(alloc, pointer.as_str())?;
    push_words(out, "NotUnit", pointer.as_str(), rule_word(rule))
}
