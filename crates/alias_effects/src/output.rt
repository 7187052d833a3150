//! Making what is handed out of what solved the flow over positions.
ghost use Rattle.std.specs.Prelude.{◌≡◌, ◌++◌, IfOk, OnOk, length, map};
ghost use Rattle.alias_effects.specs.Inference.{block_at, entries_of, instructions_recorded, terminal_recorded, end_of};
ghost use Rattle.alias_effects.specs.Output.{entry_as, all_recorded, solver_state_with};

use crate::solved::{BlockEntry, Solved};
use alias_base::{BlockId, BlockMap, List};
use alias_flow::Solution;
use alias_hir::hir::{BasicBlock, HirFunction};
use alias_hir::interned::InternedReports;
use alias_lattice::InferenceState;
use alias_step::block::{BlockEffects, InstructionEffects, TerminalEffects};
use alias_tables::{ContextRead, TableParts, Tables};
use std::alloc::{AllocError, Global};

/// How a pass ends where it hands a solution out: the solution, and what else the tables have.
#[derive(Drop)]
pub struct PassEnd {
    pub solved: Solved,
    /// All reports that are interned.
    pub reports: InternedReports,
    /// The context places that are only read.
    pub reads: List<ContextRead>,
}

/// How a pass ends where it hands nothing out.
#[derive(Drop)]
pub(crate) struct LastVisits {
    /// What the last visits recorded.
    pub(crate) effects: BlockEffects,
    pub(crate) tables: TableParts,
}

/// The name of the block at a position.
pub(crate) fn block_at(blocks: &BlockMap<BasicBlock>, position: usize) -> BlockId
    ensures { result ≡ block_at blocks.now position }
{
    match blocks.get_index(position) {
        Some((name, _)) => *name,
        // Never asked for: the positions that visits and faults name are those of blocks.
        None => BlockId(0),
    }
}

/// The names of the blocks at the positions.
fn names_of(
    alloc: Global,
    blocks: &BlockMap<BasicBlock>,
    positions: &[u32],
) -> Result<List<BlockId>, AllocError>
    ensures { IfOk result (λ names. names ≡ map (block_at blocks.now) positions.now) }
{
    let mut names = List::new(alloc);
    for position in positions {
        names.push(block_at(blocks, *position as usize))?;
    }
    Ok(names)
}

fn push_entry(
    entries: &mut List<BlockEntry>,
    block: BlockId,
    state: Option<InferenceState>,
) -> Result<(), AllocError>
    ensures { OnOk result (entries.new ≡ entries.old ++ entry_as block state) }
{
    if let Some(state) = state {
        entries.push(BlockEntry { block, state })?;
    }
    Ok(())
}

/// The blocks that were reached, with their entry states, which are moved.
#[tactic(auto, using(crate::proofs::Moving::entries_left))]
fn entries_of(
    alloc: Global,
    blocks: &BlockMap<BasicBlock>,
    states: List<Option<InferenceState>>,
) -> Result<List<BlockEntry>, AllocError>
    requires { length states ≡ length blocks.now }
    ensures { IfOk result (λ entries. entries ≡ entries_of blocks.now states) }
{
    let mut states = states;
    let mut entries = List::new(alloc);
    for index in 0..states.len() {
        let state = states.replace(index, None);
        push_entry(&mut entries, block_at(blocks, index), state)?;
    }
    Ok(entries)
}

fn append<T: Drop>(list: &mut Vec<T>, more: List<T>) -> Result<(), AllocError>
    ensures { OnOk result (list.new.items ≡ list.old.items ++ more) }
{
    let mut more = more.into_vec();
    list.append(&mut more)
}

fn append_recorded(
    instructions: &mut Vec<InstructionEffects>,
    terminal: &mut Vec<TerminalEffects>,
    recorded: Option<BlockEffects>,
) -> Result<(), AllocError>
    ensures instructions { OnOk result (instructions.new.items ≡ instructions.old.items ++ instructions_recorded recorded) }
    ensures terminal { OnOk result (terminal.new.items ≡ terminal.old.items ++ terminal_recorded recorded) }
{
    if let Some(effects) = recorded {
        append(instructions, effects.instructions)?;
        append(terminal, effects.terminal)?;
    }
    Ok(())
}

/// What was recorded of all blocks in stored order, which is moved.
#[tactic(auto, using(crate::proofs::Moving::recorded_left))]
pub(crate) fn all_recorded(
    alloc: Global,
    recorded: Vec<Option<BlockEffects>>,
) -> Result<BlockEffects, AllocError>
    ensures { IfOk result (λ all. all ≡ all_recorded recorded.items) }
{
    let mut recorded = List::from_vec(recorded);
    let mut instructions = Vec::new(alloc);
    let mut terminal = Vec::new(alloc);
    for index in 0..recorded.len() {
        let effects = recorded.replace(index, None);
        append_recorded(&mut instructions, &mut terminal, effects)?;
    }
    Ok(BlockEffects {
        instructions: List::from_vec(instructions),
        terminal: List::from_vec(terminal),
    })
}

/// The end of a pass, of what solved the function's flow over positions.
pub(crate) fn end_of(
    alloc: Global,
    func: &HirFunction,
    solution: Solution<InferenceState>,
    tables: Tables,
    recorded: Vec<Option<BlockEffects>>,
) -> Result<PassEnd, AllocError>
    requires { length solution.entries ≡ length func.now.body.blocks }
    ensures { IfOk result (λ e. e ≡ end_of func.now (solver_state_with solution tables recorded.items)) }
{
    let blocks = &func.body.blocks;
    let visits = names_of(alloc, blocks, solution.visits.as_slice())?;
    let entries = entries_of(alloc, blocks, solution.entries)?;
    let recorded = all_recorded(alloc, recorded)?;
    let TableParts {
        first,
        temporaries,
        reports,
        reads,
    } = tables.into_parts();
    Ok(PassEnd {
        solved: Solved {
            function: None,
            visits,
            entries,
            first,
            temporaries,
            effects: recorded.instructions,
            terminal_effects: recorded.terminal,
        },
        reports,
        reads,
    })
}
