//! How much there is of a unit, and of what was inferred of it, as lines.
ghost use Rattle.std.specs.Prelude.{◌≡◌, ◌+◌, ◌++◌, OnOk, IfOk, sum_by};
ghost use Rattle.alias_text.specs.Counts.{instruction_effects, terminal_effects, effects_of, visits_of, range_count, count_line, size_lines, solved_lines, counts_text};

use crate::effects::push_spaced;
use crate::ranges::has_range;
use alias_base::Text;
use alias_effects::Solved;
use alias_hir::env::{Identifier, Unit};
use alias_hir::report::Report;
use alias_step::block::{InstructionEffects, TerminalEffects};
use std::alloc::AllocError;

/// The sum of two counts. Where it needs more than 64 bits, as many things aren't in memory.
fn sum_of(count: usize, more: usize) -> Result<usize, AllocError>
    ensures { IfOk result (λ sum. sum ≡ count + more) }
{
    count.checked_add(more).ok_or(AllocError)
}

/// How many effects were recorded of these instructions.
fn instruction_effects(recorded: &[InstructionEffects]) -> Result<usize, AllocError>
    ensures { IfOk result (λ count. count ≡ instruction_effects recorded.now) }
{
    let mut count = 0;
    for of_instruction in recorded {
        count = sum_of(count, of_instruction.effects.len())?;
    }
    Ok(count)
}

/// How many effects were recorded of these terminals.
fn terminal_effects(recorded: &[TerminalEffects]) -> Result<usize, AllocError>
    ensures { IfOk result (λ count. count ≡ terminal_effects recorded.now) }
{
    let mut count = 0;
    for of_terminal in recorded {
        count = sum_of(count, of_terminal.effects.len())?;
    }
    Ok(count)
}

/// How many effects were recorded of the function.
fn effects_of(solved: &Solved) -> Result<usize, AllocError>
    ensures { IfOk result (λ count. count ≡ effects_of solved.now) }
{
    let of_instructions = instruction_effects(solved.effects.as_slice())?;
    let of_terminals = terminal_effects(solved.terminal_effects.as_slice())?;
    sum_of(of_instructions, of_terminals)
}

fn effect_count(solved: &[Solved]) -> Result<usize, AllocError>
    ensures { IfOk result (λ count. count ≡ sum_by effects_of solved.now) }
{
    let mut count = 0;
    for of_function in solved {
        count = sum_of(count, effects_of(of_function)?)?;
    }
    Ok(count)
}

fn visit_count(solved: &[Solved]) -> Result<usize, AllocError>
    ensures { IfOk result (λ count. count ≡ sum_by visits_of solved.now) }
{
    let mut count = 0;
    for of_function in solved {
        count = sum_of(count, of_function.visits.len())?;
    }
    Ok(count)
}

fn range_count(identifiers: &[Identifier]) -> usize
    ensures { result ≡ range_count identifiers.now }
{
    identifiers
        .iter()
        .filter(|identifier| has_range(identifier.mutable_range))
        .count()
}

fn push_count(out: &mut Text, name: &str, count: usize) -> Result<(), AllocError>
    ensures { OnOk result (out.new ≡ out.old ++ count_line name.now count) }
{
    out.push_str(name)?;
    push_spaced(out, count as u64)?;
    out.push_str("\n")
}

/// Appends how many blocks and instructions the root has.
fn push_size(out: &mut Text, unit: &Unit) -> Result<(), AllocError>
    ensures { OnOk result (out.new ≡ out.old ++ size_lines unit.now) }
{
    push_count(out, "blocks", unit.function.body.blocks.len())?;
    push_count(out, "instructions", unit.function.instructions.len())
}

/// Appends how many effects were recorded of all functions, and how often their blocks were visited.
fn push_solved(out: &mut Text, solved: &[Solved]) -> Result<(), AllocError>
    ensures { OnOk result (out.new ≡ out.old ++ solved_lines solved.now) }
{
    push_count(out, "effects", effect_count(solved)?)?;
    push_count(out, "visits", visit_count(solved)?)
}

/// Appends six counts, a line each: the root's blocks and instructions, the effects and visits of all functions, the
/// mutable ranges, and the reports. An `Err` is out of memory: `out` may then hold a part of it.
pub(crate) fn push_counts(
    out: &mut Text,
    unit: &Unit,
    solved: &[Solved],
    reports: &[Report],
) -> Result<(), AllocError>
    ensures { OnOk result (out.new ≡ out.old ++ counts_text unit.now solved.now reports.now) }
{
    push_size(out, unit)?;
    push_solved(out, solved)?;
    push_count(out, "ranges", range_count(unit.env.identifiers.as_slice()))?;
    push_count(out, "reports", reports.len())
}
