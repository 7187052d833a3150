//! Which blocks of a flow are reached.
ghost use Rattle.std.specs.Prelude.{◌≡◌, ◌<◌, nat_lt, true, false, IfOk, OnOk, MatchOption, length, replicate, slice_index_or, slice_set, vec_len};
ghost use Rattle.std.specs.List.{list_all};
ghost use Rattle.alias_lattice.specs.Flows.{IsReached};
ghost use Rattle.alias_flow.specs.Machine.{up};
ghost use Rattle.alias_flow.specs.Solutions.{goes_forward};
ghost use Rattle.alias_flow.specs.check.Reached.{marked_all, marked_from, marked_round, marked_rounds, reached_marks};

use crate::Flow;
use std::alloc::{AllocError, Global};

/// Marks the blocks, and answers whether one of them was not marked before.
fn mark_all(marks: &mut [bool], blocks: &[u32]) -> bool
    ensures marks { marks.new ≡ marked_all marks.old blocks.now }
    ensures same { result ≡ false → marks.new ≡ marks.old }
{
    let mut grew = false;
    for block in blocks {
        let at = *block as usize;
        if at < marks.len() && !marks[at] {
            marks[at] = true;
            grew = true;
        }
    }
    grew
}

/// Where the block is marked, marks those that its edges lead to, and answers whether one of them was not marked before.
fn mark_from<F: Flow>(marks: &mut [bool], flow: &F, block: u32) -> Result<bool, AllocError>
    requires block { block < (F.rules flow.now).blocks }
    requires length { length marks.old ≡ (F.rules flow.now).blocks }
    ensures marks { OnOk result (marks.new ≡ marked_from (F.rules flow.now).flow.edges marks.old block) }
    ensures same { IfOk result (λ grew. grew ≡ false → marks.new ≡ marks.old) }
{
    if !marks[block as usize] {
        return Ok(false);
    }
    let edges = flow.edges(block)?;
    Ok(mark_all(marks, edges.as_slice()))
}

/// Goes over the blocks once, in stored order.
#[tactic(auto, using(crate::proofs::check::Rounds::up_next))]
fn mark_round<F: Flow>(marks: &mut [bool], flow: &F, count: u32) -> Result<bool, AllocError>
    requires count { count ≡ (F.rules flow.now).blocks }
    requires length { length marks.old ≡ (F.rules flow.now).blocks }
    ensures marks { OnOk result (marks.new ≡ marked_round (F.rules flow.now).flow.edges marks.old (up 0 count)) }
    ensures same { IfOk result (λ grew. grew ≡ false → marks.new ≡ marks.old) }
{
    let mut grew = false;
    for block in 0..count {
        if mark_from(marks, flow, block)? {
            grew = true;
        }
    }
    Ok(grew)
}

/// Goes over the blocks as often as there are blocks, or until a round marks nothing.
fn mark_rounds<F: Flow>(marks: &mut [bool], flow: &F, count: u32) -> Result<(), AllocError>
    requires count { count ≡ (F.rules flow.now).blocks }
    requires length { length marks.old ≡ (F.rules flow.now).blocks }
    ensures { OnOk result (marks.new ≡ marked_rounds (F.rules flow.now).flow.edges count count marks.old) }
{
    'rounds: for _ in 0..count {
        if !mark_round(marks, flow, count)? {
            return Ok(());
        }
    }
    Ok(())
}

/// Marks for so many blocks, of which the entry is marked.
fn entry_marked(alloc: Global, count: u32, entry: u32) -> Result<Vec<bool>, AllocError>
    requires { entry < count }
    ensures marks { IfOk result (λ marks. marks.items ≡ slice_set (replicate count false) entry true) }
    ensures count { IfOk result (λ marks. vec_len marks ≡ count) }
{
    let mut marks = Vec::new(alloc);
    for _ in 0..count {
        marks.push(false)?;
    }
    marks[entry as usize] = true;
    Ok(marks)
}

/// The marks that are left once nothing more is marked.
fn marks_left<F: Flow>(alloc: Global, flow: &F) -> Result<Vec<bool>, AllocError>
    ensures marks { IfOk result (λ marks. marks.items ≡ reached_marks (F.rules flow.now)) }
    ensures count { IfOk result (λ marks. vec_len marks ≡ (F.rules flow.now).blocks) }
{
    let count = flow.blocks();
    let mut marks = entry_marked(alloc, count, flow.entry())?;
    mark_rounds(marks.as_mut_slice(), flow, count)?;
    Ok(marks)
}

/// Whether each block of the flow is reached, in stored order. The one error is out of memory.
pub fn reached_blocks<F: Flow>(alloc: Global, flow: &F) -> Result<Vec<bool>, AllocError>
    ensures marks { IfOk result (λ marks. marks.items ≡ reached_marks (F.rules flow.now)) }
    ensures reached { IfOk result (λ marks. (b : _) → IsReached (F.rules flow.now).flow b → slice_index_or marks.items b false ≡ true) }
    ensures only_reached { IfOk result (λ marks. (b : _) → slice_index_or marks.items b false ≡ true → IsReached (F.rules flow.now).flow b) }
    ensures count { IfOk result (λ marks. vec_len marks ≡ (F.rules flow.now).blocks) }
{
    let marks = marks_left(alloc, flow)?;
    Ok(marks)
}

fn all_ahead(block: u32, edges: &[u32]) -> bool
    ensures { result ≡ list_all (λ e. nat_lt block e) edges.now }
{
    edges.iter().all(|to| *to > block)
}

/// Whether each edge of the block goes to a later block; if so, and the block is marked, marks those that they lead to.
fn mark_ahead<F: Flow>(marks: &mut [bool], flow: &F, block: u32) -> Result<bool, AllocError>
    requires block { block < (F.rules flow.now).blocks }
    requires length { length marks.old ≡ (F.rules flow.now).blocks }
    ensures ahead { IfOk result (λ ahead. ahead ≡ list_all (λ e. nat_lt block e) ((F.rules flow.now).flow.edges block)) }
    ensures marks { IfOk result (λ ahead. ahead ≡ true → marks.new ≡ marked_from (F.rules flow.now).flow.edges marks.old block) }
{
    let edges = flow.edges(block)?;
    let ahead = all_ahead(block, edges.as_slice());
    if ahead && marks[block as usize] {
        let _grew = mark_all(marks, edges.as_slice());
    }
    Ok(ahead)
}

/// Goes over the blocks once, in stored order, while their edges go to later blocks, and answers whether all do.
#[tactic(auto, using(crate::proofs::check::Rounds::up_next))]
fn mark_all_ahead<F: Flow>(marks: &mut [bool], flow: &F, count: u32) -> Result<bool, AllocError>
    requires count { count ≡ (F.rules flow.now).blocks }
    requires length { length marks.old ≡ (F.rules flow.now).blocks }
    ensures ahead { IfOk result (λ ahead. ahead ≡ goes_forward (F.rules flow.now)) }
    ensures marks { IfOk result (λ ahead. ahead ≡ true → marks.new ≡ marked_round (F.rules flow.now).flow.edges marks.old (up 0 count)) }
{
    for block in 0..count {
        if !mark_ahead(marks, flow, block)? {
            return Ok(false);
        }
    }
    Ok(true)
}

/// Whether each edge of each block goes to a later block, with the marks that one round leaves where all do.
fn marks_ahead<F: Flow>(alloc: Global, flow: &F) -> Result<(bool, Vec<bool>), AllocError>
    ensures ahead { IfOk result (λ found. found.0 ≡ goes_forward (F.rules flow.now)) }
    ensures marks { IfOk result (λ found. found.0 ≡ true → found.1.items ≡ marked_round (F.rules flow.now).flow.edges (slice_set (replicate (F.rules flow.now).blocks false) (F.rules flow.now).flow.entry true) (up 0 (F.rules flow.now).blocks)) }
    ensures count { IfOk result (λ found. vec_len found.1 ≡ (F.rules flow.now).blocks) }
{
    let count = flow.blocks();
    let mut marks = entry_marked(alloc, count, flow.entry())?;
    let ahead = mark_all_ahead(marks.as_mut_slice(), flow, count)?;
    Ok((ahead, marks))
}

/// Where each edge of each block goes to a later block, whether each block of the flow is reached, in stored order, which
/// one look at each edge tells; and `None` where an edge goes back. The one error is out of memory.
#[tactic(auto, using(crate::proofs::check::ForwardMarks::forward_marked))]
pub fn reached_ahead<F: Flow>(alloc: Global, flow: &F) -> Result<Option<Vec<bool>>, AllocError>
    ensures marks { IfOk result (λ reached. MatchOption reached (goes_forward (F.rules flow.now) ≡ false) (λ marks. (goes_forward (F.rules flow.now) ≡ true) × (marks.items ≡ reached_marks (F.rules flow.now)) × (vec_len marks ≡ (F.rules flow.now).blocks))) }
{
    let (ahead, marks) = marks_ahead(alloc, flow)?;
    if ahead { Ok(Some(marks)) } else { Ok(None) }
}
