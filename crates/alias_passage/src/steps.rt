//! The steps of a pass.
ghost use Rattle.std.specs.Prelude.{◌≡◌, ◌<◌, Some, None, OnOk, length, slice_set};
ghost use Rattle.alias_flow.specs.Machine.{up};
ghost use Rattle.alias_flow.specs.Runs.{solver_state};
ghost use Rattle.alias_flow.specs.check.Checks.{ChecksInto};
ghost use Rattle.alias_lattice.specs.Flows.{Stepped};
ghost use Rattle.alias_passage.specs.Givens.{Lacks};
ghost use Rattle.alias_passage.specs.Passes.{outcome_passed, block_passed, turn_passed, blocks_passed};

use crate::arriving::{arrive_forward, first_not_above};
use crate::given::Given;
use crate::passage::{Passage, note_entry, take_arrived};
use alias_flow::Flow;
use alias_flow::check::{Unsolved, refused};
use alias_lattice::Lattice;
use std::alloc::Global;

/// What follows the step of the block to the out state.
fn pass_out<F: Flow, G: Given<F>>(
    flow: &F,
    given: &G,
    passage: &mut Passage<F::State, G::Beyond>,
    block: u32,
    out: F::State,
) -> Result<(), Unsolved<F::Fault, G::Lack>>
    requires block { block < (F.rules flow.now).blocks }
    requires arriving { length passage.old.arriving ≡ (F.rules flow.now).blocks }
    ensures passes { (empty : _) (lacks : _) (before : _) (k : _) → Lacks F.tables (G.lacking given.now) lacks → F.recorded flow.now ≡ slice_set before block (Some k) → ChecksInto F.cause (outcome_passed F.State.join F.State.below empty (F.rules flow.now) (G.entering given.now) G.unentered lacks block (solver_state passage.old (F.tables flow.now) before) (Stepped out (F.tables flow.now) k)) result (solver_state passage.new (F.tables flow.now) (F.recorded flow.now)) }
    ensures arriving { OnOk result (length passage.new.arriving ≡ length passage.old.arriving) }
    ensures entries { passage.new.entries ≡ passage.old.entries }
{
    if let Some(difference) = given.lack(flow) {
        return Err(Unsolved::Differs { block, difference });
    }
    let edges = flow.edges(block)?;
    let entries = passage.entries.as_slice();
    if let Some(successor) = first_not_above(entries, &out, block, edges.as_slice()) {
        return Err(Unsolved::NotBelow { block, successor });
    }
    let arriving = passage.arriving.as_mut_slice();
    arrive_forward(arriving, out, block, edges.as_slice())?;
    Ok(())
}

/// The block steps from the state that it is entered with.
fn pass_block<F: Flow, G: Given<F>>(
    alloc: Global,
    flow: &mut F,
    given: &G,
    empty: &F::State,
    passage: &mut Passage<F::State, G::Beyond>,
    block: u32,
) -> Result<(), Unsolved<F::Fault, G::Lack>>
    requires block { block < (F.rules flow.old).blocks }
    requires arriving { length passage.old.arriving ≡ (F.rules flow.old).blocks }
    requires entries { length passage.old.entries ≡ (F.rules flow.old).blocks }
    ensures passes { (lacks : _) → Lacks F.tables (G.lacking given.now) lacks → ChecksInto F.cause (block_passed F.State.join F.State.below empty.now (F.rules flow.old) (G.entering given.now) G.unentered lacks block (solver_state passage.old (F.tables flow.old) (F.recorded flow.old))) result (solver_state passage.new (F.tables flow.new) (F.recorded flow.new)) }
    ensures same { F.rules flow.new ≡ F.rules flow.old }
    ensures borrows { F.borrows flow.new ≡ F.borrows flow.old }
    ensures arriving { OnOk result (length passage.new.arriving ≡ length passage.old.arriving) }
    ensures entries { OnOk result (length passage.new.entries ≡ length passage.old.entries) }
{
    let arrived = take_arrived(passage, empty, block)?;
    let Some((entered, more)) = given.enter(alloc, block, arrived)? else {
        let difference = given.unentered();
        return Err(Unsolved::Differs { block, difference });
    };
    let mut out = entered.try_clone()?;
    note_entry(passage, block, entered, more)?;
    match flow.step(block, &mut out) {
        Ok(()) => pass_out(&*flow, given, passage, block, out),
        Err(fault) => Err(refused(block, fault)),
    }
}

/// The turn of the block, if it is marked.
fn pass_turn<F: Flow, G: Given<F>>(
    alloc: Global,
    flow: &mut F,
    given: &G,
    empty: &F::State,
    marks: &[bool],
    passage: &mut Passage<F::State, G::Beyond>,
    block: u32,
) -> Result<(), Unsolved<F::Fault, G::Lack>>
    requires block { block < (F.rules flow.old).blocks }
    requires marks { length marks.now ≡ (F.rules flow.old).blocks }
    requires arriving { length passage.old.arriving ≡ (F.rules flow.old).blocks }
    requires entries { length passage.old.entries ≡ (F.rules flow.old).blocks }
    ensures passes { (lacks : _) → Lacks F.tables (G.lacking given.now) lacks → ChecksInto F.cause (turn_passed F.State.join F.State.below empty.now (F.rules flow.old) (G.entering given.now) G.unentered lacks marks.now block (solver_state passage.old (F.tables flow.old) (F.recorded flow.old))) result (solver_state passage.new (F.tables flow.new) (F.recorded flow.new)) }
    ensures same { F.rules flow.new ≡ F.rules flow.old }
    ensures borrows { F.borrows flow.new ≡ F.borrows flow.old }
    ensures arriving { OnOk result (length passage.new.arriving ≡ length passage.old.arriving) }
    ensures entries { OnOk result (length passage.new.entries ≡ length passage.old.entries) }
{
    if !marks[block as usize] {
        return Ok(());
    }
    pass_block(alloc, flow, given, empty, passage, block)
}

/// Each marked block steps once, in stored order, from the state that it is entered with. What is found is what
/// `blocks_passed` says, by whatever tells of its tables what a step of the flow lacks.
pub fn pass_all<F: Flow, G: Given<F>>(
    alloc: Global,
    flow: &mut F,
    given: &G,
    empty: &F::State,
    marks: &[bool],
    passage: &mut Passage<F::State, G::Beyond>,
) -> Result<(), Unsolved<F::Fault, G::Lack>>
    requires marks { length marks.now ≡ (F.rules flow.old).blocks }
    requires arriving { length passage.old.arriving ≡ (F.rules flow.old).blocks }
    requires entries { length passage.old.entries ≡ (F.rules flow.old).blocks }
    ensures passes { (lacks : _) → Lacks F.tables (G.lacking given.now) lacks → ChecksInto F.cause (blocks_passed F.State.join F.State.below empty.now (F.rules flow.old) (G.entering given.now) G.unentered lacks marks.now (up 0 (F.rules flow.old).blocks) (solver_state passage.old (F.tables flow.old) (F.recorded flow.old))) result (solver_state passage.new (F.tables flow.new) (F.recorded flow.new)) }
    ensures same { F.rules flow.new ≡ F.rules flow.old }
    ensures borrows { F.borrows flow.new ≡ F.borrows flow.old }
    ensures entries { OnOk result (length passage.new.entries ≡ length passage.old.entries) }
{
    let count = flow.blocks();
    for block in 0..count {
        pass_turn(alloc, flow, given, empty, marks, passage, block)?;
    }
    Ok(())
}
