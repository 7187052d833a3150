//! What is given of the blocks of a flow.
ghost use Rattle.std.specs.Prelude.{◌≡◌, ℕ, Option, IfOk};
ghost use Rattle.alias_passage.specs.Givens.{Raises};

use alias_flow::Flow;
use std::alloc::{AllocError, Global};

/// What is given of the blocks of a flow: with which states they are entered where others arrive, and what their steps may
/// make.
pub trait Given<F: Flow> {
    /// What an entry state has beyond what arrived.
    type Beyond: Drop;

    /// Why what is given of a block isn't followed.
    type Lack: Drop;

    /// The state that a block is entered with where a state arrives, with what it has beyond that; `None` where what is given
    /// of the block names what isn't there.
    ghost entering: { Self → ℕ → F.State → Option (F.State × Self.Beyond) };

    /// What is said where a block has no such state.
    ghost unentered: { Self.Lack };

    /// What the last step of a flow lacks, if anything.
    ghost lacking: { Self → F → Option Self.Lack };

    /// The state that the block is entered with where this state arrives. The one error is out of memory.
    fn enter(
        &self,
        alloc: Global,
        block: u32,
        arrived: F::State,
    ) -> Result<Option<(F::State, Self::Beyond)>, AllocError>
        ensures { IfOk result (λ entered. entered ≡ entering self.now block arrived) };

    /// What is said where a block has no such state.
    fn unentered(&self) -> Self::Lack
        ensures { result ≡ unentered };

    /// What the last step of the flow lacks, if anything.
    fn lack(&self, flow: &F) -> Option<Self::Lack>
        ensures { result ≡ lacking self.now flow.now };
}
