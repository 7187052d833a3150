//! States on their way to blocks.
ghost use Rattle.std.specs.Prelude.{◌≡◌, ◌<◌, ℕ, IfOk, OnOk, List, Option, None, slice_index_or, length};
ghost use Rattle.std.specs.List.{AllByRecursion};
ghost use Rattle.alias_flow.specs.Machine.{send, send_all};
ghost use Rattle.alias_flow.specs.WorkLists.{grows};

use alias_lattice::Lattice;
use std::alloc::AllocError;

/// Sends a copy of the state to the block, and answers whether what was sent to it grew.
pub fn send_copy<S: Lattice + Drop>(
    joined_input: &mut [Option<S>],
    state: &S,
    to: u32,
) -> Result<bool, AllocError>
    requires { to < length joined_input.old }
    ensures joined_input { OnOk result (joined_input.new ≡ send S.join state.now joined_input.old to) }
    ensures grew { IfOk result (λ grew. grew ≡ grows S.join S.below (slice_index_or joined_input.old to None) state.now) }
{
    match &mut joined_input[to as usize] {
        Some(old) => old.join_from(state),
        none => {
            *none = Some(state.try_clone()?);
            Ok(true)
        }
    }
}

/// Sends the state itself to the block, and answers whether what was sent to it grew.
pub(crate) fn send_moved<S: Lattice + Drop>(
    joined_input: &mut [Option<S>],
    state: S,
    to: u32,
) -> Result<bool, AllocError>
    requires { to < length joined_input.old }
    ensures joined_input { OnOk result (joined_input.new ≡ send S.join state joined_input.old to) }
    ensures grew { IfOk result (λ grew. grew ≡ grows S.join S.below (slice_index_or joined_input.old to None) state) }
{
    match &mut joined_input[to as usize] {
        Some(old) => old.join_from(&state),
        none => {
            *none = Some(state);
            Ok(true)
        }
    }
}

/// Sends the state itself to the block.
pub fn send_state<S: Lattice + Drop>(
    joined_input: &mut [Option<S>],
    state: S,
    to: u32,
) -> Result<(), AllocError>
    requires { to < length joined_input.old }
    ensures { OnOk result (joined_input.new ≡ send S.join state joined_input.old to) }
{
    send_moved(joined_input, state, to)?;
    Ok(())
}
