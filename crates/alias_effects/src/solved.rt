//! What the effects pass hands out of one function.

use alias_base::{BlockId, FunctionId, List};
use alias_hir::effect::AliasingEffects;
use alias_lattice::InferenceState;
use alias_step::block::{InstructionEffects, TerminalEffects};
use alias_tables::Temporaries;

/// The state that a block is entered with.
#[derive(Drop)]
pub struct BlockEntry {
    pub block: BlockId,
    pub state: InferenceState,
}

/// The solution of one function. Lists by block or instruction stand in stored order, and hold only what
/// was reached and recorded.
#[derive(Drop)]
pub struct Solved {
    /// `None` for the root.
    pub function: Option<FunctionId>,
    /// The blocks in the order of their visits.
    pub visits: List<BlockId>,
    /// The entry states.
    pub entries: List<BlockEntry>,
    /// The interned effect of each key, in the order in which they came.
    pub first: AliasingEffects,
    /// The identifiers that the expansion of calls added, in the order in which they came.
    pub temporaries: Temporaries,
    pub effects: List<InstructionEffects>,
    pub terminal_effects: List<TerminalEffects>,
}
