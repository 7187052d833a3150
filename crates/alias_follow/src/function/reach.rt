//! Which blocks of a function are reached.
ghost use Rattle.std.specs.Prelude.{◌≡◌, IfOk, vec_len};
ghost use Rattle.alias_flow.specs.Solutions.{goes_forward};
ghost use Rattle.alias_flow.specs.check.Reached.{reached_marks};
ghost use Rattle.alias_step.specs.block.Contexts.{held};
ghost use Rattle.alias_effects.specs.Numbered.{numbered};

use alias_effects::EffectsFlow;
use alias_flow::check::{reached_ahead, reached_blocks};
use std::alloc::{AllocError, Global};

/// Which blocks of a function are reached.
#[derive(Drop)]
pub(crate) struct Reached {
    /// Whether each edge of each block goes to a later block.
    pub(crate) is_forward: bool,
    /// Whether each block is reached, in stored order.
    pub(crate) marks: Vec<bool>,
}

/// Which blocks of the flow's function are reached. Where no edge goes back, each edge is looked at once.
pub(crate) fn reach(alloc: Global, flow: &EffectsFlow<'_>) -> Result<Reached, AllocError>
    ensures forward { IfOk result (λ found. found.is_forward ≡ goes_forward (numbered (held flow.now.context))) }
    ensures marks { IfOk result (λ found. found.marks.items ≡ reached_marks (numbered (held flow.now.context))) }
    ensures count { IfOk result (λ found. vec_len found.marks ≡ (numbered (held flow.now.context)).blocks) }
{
    if let Some(marks) = reached_ahead(alloc, flow)? {
        return Ok(Reached {
            is_forward: true,
            marks,
        });
    }
    let marks = reached_blocks(alloc, flow)?;
    Ok(Reached {
        is_forward: false,
        marks,
    })
}
