//! The work list of `solve`.
ghost use Rattle.std.specs.Prelude.{◌≡◌, ◌<◌, ℕ, IfOk, OnOk, List, Option, None, replicate, slice_index_or, length, false, [], vec_len};
ghost use Rattle.std.specs.List.{list_any, AllByRecursion};
ghost use Rattle.alias_flow.specs.WorkLists.{work_list_send, work_list_sends, work_list_visited};
ghost use Rattle.alias_flow.specs.WorkListViews.{work_list_of};

use crate::flow::Solution;
use crate::nothing::nothing_yet;
use crate::sending::{send_copy, send_moved};
use alias_base::List;
use alias_lattice::Lattice;
use std::alloc::{AllocError, Global};

/// The work at hand: the blocks that were visited, the join of what was sent to each, and which are dirty.
#[derive(Drop)]
pub(crate) struct WorkList<S> {
    visits: Vec<u32>,
    joined_input: Vec<Option<S>>,
    dirty: Vec<bool>,
}

impl<S: Lattice + Drop> WorkList<S> {
    /// Nothing is visited, sent or dirty.
    pub(crate) fn start(alloc: Global, count: u32) -> Result<WorkList<S>, AllocError>
        ensures visits { IfOk result (λ work_list. work_list.visits.items ≡ []) }
        ensures joined_input { IfOk result (λ work_list. work_list.joined_input.items ≡ replicate count None) }
        ensures dirty { IfOk result (λ work_list. work_list.dirty.items ≡ replicate count false) }
        ensures lengths { IfOk result (λ work_list. (vec_len work_list.joined_input ≡ count) × (vec_len work_list.dirty ≡ count)) }
    {
        Ok(WorkList {
            visits: Vec::new(alloc),
            joined_input: nothing_yet(alloc, count)?,
            dirty: vec![in alloc; false; count as usize]?,
        })
    }

    /// Some block is dirty.
    pub(crate) fn any_dirty(&self) -> bool
        ensures { result ≡ list_any (λ x. x) self.now.dirty.items }
    {
        self.dirty.iter().any(|dirty| *dirty)
    }

    /// The block is dirty.
    pub(crate) fn is_dirty(&self, block: u32) -> bool
        requires { block < vec_len self.now.dirty }
        ensures { result ≡ slice_index_or self.now.dirty.items block false }
    {
        self.dirty[block as usize]
    }

    /// A copy of what was sent to the block, if anything was.
    pub(crate) fn input_of(&self, block: u32) -> Result<Option<S>, AllocError>
        requires { block < vec_len self.now.joined_input }
        ensures { IfOk result (λ state. state ≡ slice_index_or self.now.joined_input.items block None) }
    {
        match &self.joined_input[block as usize] {
            Some(state) => Ok(Some(state.try_clone()?)),
            None => Ok(None),
        }
    }

    /// How many visits there were.
    pub(crate) fn visits(&self) -> u64
        ensures { result ≡ length self.now.visits.items }
    {
        self.visits.len() as u64
    }

    /// What was found, once nothing is dirty.
    pub(crate) fn into_solution(self) -> Solution<S>
        ensures visits { result.visits ≡ self.visits.items }
        ensures entries { result.entries ≡ self.joined_input.items }
    {
        Solution {
            visits: List::from_vec(self.visits),
            entries: List::from_vec(self.joined_input),
        }
    }

    /// Notes a visit of the block.
    pub(crate) fn note_visit(&mut self, block: u32) -> Result<(), AllocError>
        requires { block < vec_len self.old.dirty }
        ensures last_input { OnOk result (work_list_of self.new ≡ work_list_visited S.join S.below (work_list_of self.old) block) }
        ensures lengths { OnOk result ((vec_len self.new.joined_input ≡ vec_len self.old.joined_input) × (vec_len self.new.dirty ≡ vec_len self.old.dirty)) }
    {
        self.visits.push(block)?;
        self.dirty[block as usize] = false;
        Ok(())
    }

    /// Sends a copy of the state to the block, which is dirty if what was sent to it grew.
    fn send_copy(&mut self, state: &S, to: u32) -> Result<(), AllocError>
        requires joined_input { to < vec_len self.old.joined_input }
        requires dirty { to < vec_len self.old.dirty }
        ensures joined_input { OnOk result (work_list_of self.new ≡ work_list_send S.join S.below state.now (work_list_of self.old) to) }
        ensures lengths { OnOk result ((vec_len self.new.joined_input ≡ vec_len self.old.joined_input) × (vec_len self.new.dirty ≡ vec_len self.old.dirty)) }
    {
        if send_copy(self.joined_input.as_mut_slice(), state, to)? {
            self.dirty[to as usize] = true;
        }
        Ok(())
    }

    /// Sends the state itself to the block, which is dirty if what was sent to it grew.
    pub(crate) fn send_state(&mut self, state: S, to: u32) -> Result<(), AllocError>
        requires joined_input { to < vec_len self.old.joined_input }
        requires dirty { to < vec_len self.old.dirty }
        ensures joined_input { OnOk result (work_list_of self.new ≡ work_list_send S.join S.below state (work_list_of self.old) to) }
        ensures lengths { OnOk result ((vec_len self.new.joined_input ≡ vec_len self.old.joined_input) × (vec_len self.new.dirty ≡ vec_len self.old.dirty)) }
    {
        if send_moved(self.joined_input.as_mut_slice(), state, to)? {
            self.dirty[to as usize] = true;
        }
        Ok(())
    }

    /// Sends the state along the edges: itself along the last one, and before that what joins it or copies it.
    pub(crate) fn send_along(&mut self, state: S, edges: &[u32]) -> Result<(), AllocError>
        requires joined_input { AllByRecursion (λ e. e < vec_len self.old.joined_input) edges.now }
        requires dirty { AllByRecursion (λ e. e < vec_len self.old.dirty) edges.now }
        ensures joined_input { OnOk result (work_list_of self.new ≡ work_list_sends S.join S.below state (work_list_of self.old) edges.now) }
        ensures lengths { OnOk result ((vec_len self.new.joined_input ≡ vec_len self.old.joined_input) × (vec_len self.new.dirty ≡ vec_len self.old.dirty)) }
    {
        let [before @ .., last] = edges else {
            return Ok(());
        };
        for to in before {
            self.send_copy(&state, *to)?;
        }
        self.send_state(state, *last)
    }
}
