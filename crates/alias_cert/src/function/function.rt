//! The check of one function.
ghost use Rattle.std.specs.Prelude.{◌≡◌, ◌+◌, ◌<◌, ◌^◌, true, false, [], IfOk, length};
ghost use Rattle.alias_base.specs.Answer.{Gives};
ghost use Rattle.alias_facts.specs.Facts.{function_facts as facts_of};
ghost use Rattle.alias_rules.specs.Fitting.{function_fits};
ghost use Rattle.alias_lattice.specs.States.{state_join, state_below};
ghost use Rattle.alias_flow.specs.Runs.{solver_state};
ghost use Rattle.alias_flow.specs.check.Checks.{solution_checked};
ghost use Rattle.alias_step.specs.block.Contexts.{held};
ghost use Rattle.alias_effects.specs.Inference.{end_tables};
ghost use Rattle.alias_effects.specs.Numbered.{numbered};
ghost use Rattle.alias_effects.specs.Solutions.{IsSolvedUnder};
ghost use Rattle.alias_nested.specs.Created.{created_functions};
ghost use Rattle.alias_cert.specs.function.Entries.{entries_stated};
ghost use Rattle.alias_cert.specs.function.Claims.{differs};
ghost use Rattle.alias_cert.specs.function.Faults.{is_memory, step_fault, difference_fault, unsolved_fault, faulted, StatesInto};
ghost use Rattle.alias_cert.specs.function.Functions.{marked_positions, function_solved};
ghost use Rattle.alias_cert.specs.function.Named.{named};

use crate::function::claims::{Claims, Difference, Fault};
use crate::function::entries::entries_stated;
use crate::function::lines::{are_lines, block_at, line_numbers};
use crate::function::temporaries::state_temporaries;
use alias_base::{BlockId, BlockMap, FunctionId, List};
use alias_certificate::{CertFunction, CheckFault, CreatedFunctions};
use alias_effects::{EffectsFlow, PassEnd, refusal};
use alias_facts::{FunctionFacts, function_facts};
use alias_flow::Solution;
use alias_flow::check::{Unsolved, all_known, check_entries, reached_blocks};
use alias_hir::env::Environment;
use alias_hir::error::InferError;
use alias_hir::hir::{BasicBlock, HirFunction};
use alias_lattice::InferenceState;
use alias_nested::created::created_functions;
use alias_nested::errors::named as named_of;
use alias_step::block::BlockRefusal;
use alias_tables::Refusal;
use std::alloc::{AllocError, Global};

/// The positions that are marked.
pub fn marked_positions(alloc: Global, marks: &[bool]) -> Result<List<u32>, AllocError>
    requires { length marks.now < 2 ^ 32 }
    ensures { IfOk result (λ positions. positions ≡ marked_positions 0 marks.now) }
{
    let mut positions = List::new(alloc);
    for (index, mark) in marks.iter().enumerate() {
        if *mark {
            positions.push(index as u32)?;
        }
    }
    Ok(positions)
}

/// A refusal as one of the function.
fn named(function: Option<FunctionId>, error: InferError) -> InferError
    ensures { result ≡ named function error }
{
    match function {
        None => error,
        Some(id) => named_of(id, error),
    }
}

/// Why the step of the block is refused.
pub fn step_fault(
    alloc: Global,
    function: Option<FunctionId>,
    env: &Environment,
    block: BlockId,
    fault: BlockRefusal,
) -> Result<CheckFault, AllocError>
    ensures { IfOk result (λ e. e ≡ step_fault function env.now block fault) }
{
    match fault {
        BlockRefusal::Instruction {
            refusal: Refusal::TooMany(which),
            ..
        } => Ok(CheckFault::TooMany { which }),
        fault => Ok(CheckFault::Step {
            function,
            block,
            cause: named(function, refusal(alloc, env, block, fault)?),
        }),
    }
}

fn difference_fault(
    function: Option<FunctionId>,
    block: BlockId,
    difference: Difference,
) -> CheckFault
    ensures { result ≡ difference_fault function block difference }
{
    match difference {
        Difference::MissingTemporary => CheckFault::MissingTemporary { function, block },
        Difference::Effects => CheckFault::Effects { function, block },
    }
}

/// What a check of entry states found, as a fault of the function.
fn unsolved_fault(
    alloc: Global,
    function: Option<FunctionId>,
    env: &Environment,
    blocks: &BlockMap<BasicBlock>,
    fault: Fault,
) -> Result<CheckFault, AllocError>
    ensures { IfOk result (λ e. e ≡ unsolved_fault function env.now blocks.now fault) }
{
    match fault {
        Unsolved::Initial => Ok(CheckFault::Initial { function }),
        Unsolved::Step { block, fault } => {
            let block = block_at(blocks, block as usize);
            step_fault(alloc, function, env, block, fault)
        }
        Unsolved::Differs { block, difference } => {
            let block = block_at(blocks, block as usize);
            Ok(difference_fault(function, block, difference))
        }
        Unsolved::NotBelow { block, successor } => Ok(CheckFault::NotBelow {
            function,
            block: block_at(blocks, block as usize),
            successor: block_at(blocks, successor as usize),
        }),
        Unsolved::NotJoin { block } => Ok(CheckFault::NotJoin {
            function,
            block: block_at(blocks, block as usize),
        }),
        Unsolved::Memory(e) => Ok(CheckFault::Memory(e)),
    }
}

/// The same as it is answered.
fn fault_of(
    alloc: Global,
    said: &CertFunction,
    func: &HirFunction,
    env: &Environment,
    fault: Fault,
) -> CheckFault
    ensures { is_memory result ≡ false → result ≡ unsolved_fault said.now.function env.now func.now.body.blocks fault }
{
    match unsolved_fault(alloc, said.function, env, &func.body.blocks, fault) {
        Ok(fault) => fault,
        Err(e) => CheckFault::Memory(e),
    }
}

/// The entry states that are said of the function, whose blocks have these lines.
fn said_entries(
    alloc: Global,
    said: &CertFunction,
    func: &HirFunction,
    env: &Environment,
    numbers: &[Option<usize>],
) -> Result<List<Option<InferenceState>>, CheckFault>
    ensures { Gives is_memory (entries_stated said.now.function (length env.now.identifiers + length said.now.temporaries) (created_functions func.now) said.now.blocks [] numbers.now) result }
{
    let created = CreatedFunctions::new(alloc, created_functions(alloc, func)?)?;
    let Some(identifiers) = env.identifiers.len().checked_add(said.temporaries.len()) else {
        // Never so: as many entries don't fit into memory.
        return Err(CheckFault::Memory(AllocError));
    };
    entries_stated(
        alloc,
        said.function,
        identifiers,
        &created,
        said.blocks.as_slice(),
        numbers,
    )
}

/// The check of the entry states, whose blocks have these lines, and of what is said of the steps from them.
fn check_steps(
    alloc: Global,
    said: &CertFunction,
    func: &HirFunction,
    env: &Environment,
    numbers: &[Option<usize>],
    entries: &[Option<InferenceState>],
    flow: &mut EffectsFlow<'_>,
) -> Result<(), CheckFault>
    ensures steps { (progress : _) × StatesInto (faulted said.now.function env.now func.now.body.blocks (solution_checked state_join state_below (numbered (held flow.old.context)) (differs said.now.blocks numbers.now (length said.now.temporaries)) entries.now flow.old.tables flow.old.recorded.items)) result (solver_state progress flow.new.tables flow.new.recorded.items) }
    ensures func { flow.new.context.func ≡ flow.old.context.func }
{
    let lines = said.blocks.as_slice();
    let temporaries = said.temporaries.len();
    let claims = Claims {
        lines,
        numbers,
        temporaries,
    };
    match check_entries(alloc, flow, entries, &claims) {
        Ok(()) => Ok(()),
        Err(fault) => Err(fault_of(alloc, said, func, env, fault)),
    }
}

/// The check of the function of which these facts are known.
fn check_with(
    alloc: Global,
    said: &CertFunction,
    func: &HirFunction,
    env: &Environment,
    facts: &FunctionFacts,
    is_function_expression: bool,
) -> Result<PassEnd, CheckFault>
    requires fits { function_fits func.now env.now ≡ true }
    requires facts { facts.now ≡ facts_of func.now env.now }
    ensures answer { Gives is_memory (function_solved said.now env.now func.now is_function_expression) result }
    ensures solves { IfOk result (λ e. IsSolvedUnder env.now func.now is_function_expression (end_tables e) e.solved) }
{
    let function = said.function;
    let mut flow = EffectsFlow::new(alloc, func, env, facts, is_function_expression)?;
    let marks = reached_blocks(alloc, &flow)?;
    let reached = marks.as_slice();
    let found = line_numbers(alloc, reached)?;
    let numbers = found.as_slice();
    let lines = said.blocks.as_slice();
    if !are_lines(lines, &func.body.blocks, reached, numbers) {
        return Err(CheckFault::Blocks { function });
    }
    let entries = said_entries(alloc, said, func, env, numbers)?;
    let temporaries = said.temporaries.as_slice();
    state_temporaries(alloc, function, env, &mut flow, temporaries)?;
    let states = entries.as_slice();
    all_known(states);
    check_steps(alloc, said, func, env, numbers, states, &mut flow)?;
    let visits = marked_positions(alloc, reached)?;
    let end = flow.into_end(Solution { visits, entries })?;
    Ok(end)
}

/// Checks what a certificate says of the function: whether its entry states solve the function's flow, with the effects that it
/// tells. Takes nothing over: function and environment stay as they are.
///
/// At `Ok` there is what the effects pass would hand out: the entry states that are said, and the effects, interned effects, temporaries and reports of
/// one step of each reached block from them, in stored order. They solve the function's flow under the tables that these steps end with.
///
/// The faults, each exactly where it is the first: `Blocks`, where the block lines aren't the reached blocks in stored order; `State`, where
/// an entry state names what isn't there; `Temporaries`, where a temporary has another number than the next, or a key that is an earlier
/// one's or names what isn't there; `Initial`, where the initial state isn't below the entry's; then, block by block, `Step`, where the step is
/// refused, `MissingTemporary`, where it made a temporary that isn't said, `Effects`, where it recorded other effects than are claimed, and `NotBelow`, where
/// its out state isn't below a successor's; and `NotJoin`, where all edges go forward and an entry state isn't the join of what
/// arrives. `TooMany` comes where a number is wanting for a temporary or a report, and `Memory` is out of memory, which can come at any time.
/// docs/MODEL.md has the rules.
pub fn check_function_certificate(
    alloc: Global,
    said: &CertFunction,
    func: &HirFunction,
    env: &Environment,
    is_function_expression: bool,
) -> Result<PassEnd, CheckFault>
    requires { function_fits func.now env.now ≡ true }
    ensures answer { Gives is_memory (function_solved said.now env.now func.now is_function_expression) result }
    ensures solves { IfOk result (λ e. IsSolvedUnder env.now func.now is_function_expression (end_tables e) e.solved) }
{
    let facts = function_facts(alloc, func, env)?;
    check_with(alloc, said, func, env, &facts, is_function_expression)
}
