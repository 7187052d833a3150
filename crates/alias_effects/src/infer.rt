//! The effects pass over a function.
ghost use Rattle.std.specs.List.{IsDistinct};
ghost use Rattle.std.specs.Map.{keys_of};
ghost use Rattle.std.specs.Prelude.{◌≡◌, true, IfOk, OnOk, OnErr, length};
ghost use Rattle.alias_base.specs.Answer.{Gives};
ghost use Rattle.alias_base.specs.Find.{same_block};
ghost use Rattle.alias_hir.specs.Errors.{is_memory};
ghost use Rattle.alias_facts.specs.Facts.{function_facts as facts_of};
ghost use Rattle.alias_lattice.specs.States.{state_join, state_below};
ghost use Rattle.alias_flow.specs.Machine.{solution};
ghost use Rattle.alias_rules.specs.Fitting.{function_fits};
ghost use Rattle.alias_tables.specs.write_back.WriteBack.{tables_of as tables_begun};
ghost use Rattle.alias_step.specs.block.Contexts.{context_of, held};
ghost use Rattle.alias_effects.specs.Faults.{GivesInto};
ghost use Rattle.alias_effects.specs.Output.{last_visits, VisitsEnd};
ghost use Rattle.alias_effects.specs.Inference.{pass_end, inferred, env_after, env_inferred, effects_inferred};
ghost use Rattle.alias_effects.specs.Numbered.{numbered};
ghost use Rattle.alias_effects.specs.Recording.{with_effects_of};
ghost use Rattle.alias_effects.specs.Settling.{GoesForward, IsSettled};
ghost use Rattle.alias_effects.specs.Solutions.{IsSolved};

use crate::output::{LastVisits, PassEnd, all_recorded, end_of};
use crate::pass::EffectsFlow;
use crate::recording::{record_instructions, record_terminals};
use crate::refused::unsolved;
use crate::solved::Solved;
use alias_base::TryClone;
use alias_facts::{FunctionFacts, function_facts};
use alias_flow::{SolveFault, is_forward, nothing_yet, solve, solve_forward};
use alias_hir::env::Environment;
use alias_hir::error::InferError;
use alias_hir::hir::HirFunction;
use alias_step::block::{BlockContext, BlockRefusal};
use alias_tables::TableParts;
use alias_tables::write_back::{tables_of, write_back};
use std::alloc::{AllocError, Global};

/// The solution of the function of which these facts are known.
fn solved_with(
    alloc: Global,
    func: &HirFunction,
    env: &Environment,
    facts: &FunctionFacts,
    is_function_expression: bool,
) -> Result<PassEnd, InferError>
    requires fits { function_fits func.now env.now ≡ true }
    requires facts { facts.now ≡ facts_of func.now env.now }
    ensures answer { Gives is_memory (pass_end env.now func.now is_function_expression) result }
    ensures solves { IfOk result (λ e. IsSolved env.now func.now is_function_expression e.solved) }
{
    let mut pass = EffectsFlow::new(alloc, func, env, facts, is_function_expression)?;
    let answer = solve(alloc, &mut pass);
    let EffectsFlow {
        tables,
        recorded,
        ..
    } = pass;
    match answer {
        Ok(solution) => Ok(end_of(alloc, func, solution, tables, recorded)?),
        Err(fault) => Err(unsolved(alloc, env, func, fault)?),
    }
}

/// The solution of the function.
fn solved(
    alloc: Global,
    func: &HirFunction,
    env: &Environment,
    is_function_expression: bool,
) -> Result<PassEnd, InferError>
    requires { function_fits func.now env.now ≡ true }
    ensures answer { Gives is_memory (pass_end env.now func.now is_function_expression) result }
    ensures solves { IfOk result (λ e. IsSolved env.now func.now is_function_expression e.solved) }
{
    let facts = function_facts(alloc, func, env)?;
    solved_with(alloc, func, env, &facts, is_function_expression)
}

/// Visits the blocks until nothing is dirty, with no entry state kept where all edges go forward.
fn visit_all(alloc: Global, pass: &mut EffectsFlow<'_>) -> Result<(), SolveFault<BlockRefusal>>
    ensures { VisitsEnd (solution state_join state_below (numbered (held pass.old.context)) pass.old.tables pass.old.recorded.items) result pass.new.tables pass.new.recorded.items }
{
    if is_forward(&*pass)? {
        return solve_forward(alloc, pass);
    }
    solve(alloc, pass)?;
    Ok(())
}

/// What the last visits record of the function of which these facts are known.
fn last_visits_with(
    alloc: Global,
    func: &HirFunction,
    env: &Environment,
    facts: &FunctionFacts,
    is_function_expression: bool,
) -> Result<LastVisits, InferError>
    requires fits { function_fits func.now env.now ≡ true }
    requires facts { facts.now ≡ facts_of func.now env.now }
    ensures { Gives is_memory (last_visits env.now func.now is_function_expression) result }
{
    let mut pass = EffectsFlow::new(alloc, func, env, facts, is_function_expression)?;
    let answer = visit_all(alloc, &mut pass);
    let EffectsFlow {
        tables,
        recorded,
        ..
    } = pass;
    match answer {
        Ok(()) => Ok(LastVisits {
            effects: all_recorded(alloc, recorded)?,
            tables: tables.into_parts(),
        }),
        Err(fault) => Err(unsolved(alloc, env, func, fault)?),
    }
}

/// What the last visits of the function's blocks record, and the tables that they leave.
fn last_visits(
    alloc: Global,
    func: &HirFunction,
    env: &Environment,
    is_function_expression: bool,
) -> Result<LastVisits, InferError>
    requires { function_fits func.now env.now ≡ true }
    ensures { Gives is_memory (last_visits env.now func.now is_function_expression) result }
{
    let facts = function_facts(alloc, func, env)?;
    last_visits_with(alloc, func, env, &facts, is_function_expression)
}

/// Infers what each instruction of the function creates, aliases, freezes and mutates.
///
/// At `Ok` the effects are on the instructions and terminals, and what is handed out has them too, with
/// entry states that solve the function's flow under the interned effects and temporaries that are handed out with them. The
/// environment has got an identifier for each temporary, the reports that effects name, and the effect `Read` at the
/// context places of nested functions that are only read. An `Err` leaves function and environment unchanged. On every
/// answer `check_function` still holds.
///
/// The errors, each exactly where the sequence of visits meets it first: `Uninitialized`, where the step of a visited block
/// looks at an identifier without a value; `Reinitialized`, where an instruction's effects make an identifier twice;
/// `AliasBeforeCreate`, where an alias goes into what its instruction hasn't made; `IncompatibleLibrary`, where a function is
/// called that can't be memoized, with validations asked for; `SpreadArgument`, where a spread would be frozen;
/// `TooMany`, where no number is left for an identifier or a report; and `NotSettled`, where a block is still dirty
/// after 100 rounds, which never comes where all edges go to later blocks. `Memory` can come at any growth, and comes
/// where the function has 2^32 blocks or more. docs/MODEL.md has the rules.
pub fn infer_effects_certified(
    alloc: Global,
    func: &mut HirFunction,
    env: &mut Environment,
    is_function_expression: bool,
) -> Result<Solved, InferError>
    requires { function_fits func.old env.old ≡ true }
    ensures answer { Gives is_memory (inferred env.old func.old is_function_expression) result }
    ensures settles { GoesForward env.old func.old is_function_expression → IsSettled result }
    ensures solves { IfOk result (λ s. IsSolved env.old func.old is_function_expression s) }
    ensures recorded { IfOk result (λ s. func.new ≡ with_effects_of s func.old) }
    ensures env { IfOk result (λ _. env_inferred env.old func.old is_function_expression ≡ Ok env.new) }
    ensures err { OnErr result ((func.new ≡ func.old) × (env.new ≡ env.old)) }
    ensures fits { function_fits func.new env.new ≡ true }
{
    let PassEnd {
        solved,
        reports,
        reads,
    } = solved(alloc, func, env, is_function_expression)?;
    let instructions = solved.effects.try_clone(alloc)?;
    let terminal = solved.terminal_effects.try_clone(alloc)?;
    let temporaries = solved.temporaries.as_slice();
    write_back(alloc, env, temporaries, reports, reads.as_slice())?;
    record_instructions(&mut func.instructions, instructions);
    record_terminals(&mut func.body.blocks, terminal);
    Ok(solved)
}

/// The instructions and terminals of the function carry what was recorded of them, and the environment takes over what the
/// tables hold. An `Err` leaves both unchanged.
pub fn leave(
    alloc: Global,
    func: &mut HirFunction,
    env: &mut Environment,
    end: PassEnd,
) -> Result<Solved, AllocError>
    ensures solved { IfOk result (λ s. s ≡ end.solved) }
    ensures func { OnOk result (func.new ≡ with_effects_of end.solved func.old) }
    ensures env { OnOk result (env.new ≡ env_after env.old end) }
    ensures err { OnErr result ((func.new ≡ func.old) × (env.new ≡ env.old)) }
{
    let PassEnd {
        solved,
        reports,
        reads,
    } = end;
    let instructions = solved.effects.try_clone(alloc)?;
    let terminal = solved.terminal_effects.try_clone(alloc)?;
    let temporaries = solved.temporaries.as_slice();
    write_back(alloc, env, temporaries, reports, reads.as_slice())?;
    record_instructions(&mut func.instructions, instructions);
    record_terminals(&mut func.body.blocks, terminal);
    Ok(solved)
}

/// Infers what each instruction of the function creates, aliases, freezes and mutates, and hands nothing
/// out. Where each block's successors stand after it, no entry state is kept.
///
/// At `Ok` function and environment are as `infer_effects_certified` leaves them. An `Err` comes exactly where that
/// comes there, and leaves both unchanged; out of memory can come at any growth. On every answer `check_function` still
/// holds.
pub fn infer_mutation_aliasing_effects(
    alloc: Global,
    func: &mut HirFunction,
    env: &mut Environment,
    is_function_expression: bool,
) -> Result<(), InferError>
    requires { function_fits func.old env.old ≡ true }
    ensures answer { GivesInto is_memory (effects_inferred env.old func.old is_function_expression) result func.new }
    ensures settles { GoesForward env.old func.old is_function_expression → IsSettled result }
    ensures env { GivesInto is_memory (env_inferred env.old func.old is_function_expression) result env.new }
    ensures err { OnErr result ((func.new ≡ func.old) × (env.new ≡ env.old)) }
    ensures fits { function_fits func.new env.new ≡ true }
{
    let LastVisits { effects, tables } = last_visits(alloc, func, env, is_function_expression)?;
    let TableParts {
        temporaries,
        reports,
        reads,
        ..
    } = tables;
    write_back(
        alloc,
        env,
        temporaries.as_slice(),
        reports,
        reads.as_slice(),
    )?;
    record_instructions(&mut func.instructions, effects.instructions);
    record_terminals(&mut func.body.blocks, effects.terminal);
    Ok(())
}
