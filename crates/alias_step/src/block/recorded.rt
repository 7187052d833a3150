//! What is recorded of a block.
ghost use Rattle.std.specs.Prelude.{◌≡◌, ◌++◌, IfOk, OnOk};
ghost use Rattle.alias_step.specs.block.Recorded.{no_effects, recorded_as, terminal_recorded_as};

use alias_base::{BlockId, InstructionId, List, TryClone};
use alias_hir::effect::AliasingEffects;
use std::alloc::{AllocError, Global};

/// What was recorded of an instruction: one effect or more.
#[derive(Drop)]
pub struct InstructionEffects {
    pub instruction: InstructionId,
    pub effects: AliasingEffects,
}

/// What was recorded of a block's terminal: one effect or more.
#[derive(Drop)]
pub struct TerminalEffects {
    pub block: BlockId,
    pub effects: AliasingEffects,
}

/// What is recorded of a block.
#[derive(Drop)]
pub struct BlockEffects {
    pub instructions: List<InstructionEffects>,
    /// At most one.
    pub terminal: List<TerminalEffects>,
}

impl TryClone for InstructionEffects {
    fn try_clone(&self, alloc: Global) -> Result<InstructionEffects, AllocError> {
        Ok(InstructionEffects {
            instruction: self.instruction,
            effects: self.effects.try_clone(alloc)?,
        })
    }
}

impl TryClone for TerminalEffects {
    fn try_clone(&self, alloc: Global) -> Result<TerminalEffects, AllocError> {
        Ok(TerminalEffects {
            block: self.block,
            effects: self.effects.try_clone(alloc)?,
        })
    }
}

/// Nothing. Takes no memory.
pub(crate) fn no_effects(alloc: Global) -> BlockEffects
    ensures { result ≡ no_effects }
{
    BlockEffects {
        instructions: List::new(alloc),
        terminal: List::new(alloc),
    }
}

/// Appends what was recorded of an instruction, if anything was.
pub(crate) fn push_recorded(
    effects: &mut List<InstructionEffects>,
    instruction: InstructionId,
    recorded: AliasingEffects,
) -> Result<(), AllocError>
    ensures { OnOk result (effects.new ≡ effects.old ++ recorded_as instruction recorded) }
{
    if recorded.len() == 0 {
        return Ok(());
    }
    effects.push(InstructionEffects {
        instruction,
        effects: recorded,
    })?;
    Ok(())
}

/// What was recorded of a terminal, if anything was.
pub(crate) fn terminal_recorded_as(
    alloc: Global,
    block: BlockId,
    effects: AliasingEffects,
) -> Result<List<TerminalEffects>, AllocError>
    ensures { IfOk result (λ recorded. recorded ≡ terminal_recorded_as block effects) }
{
    let mut recorded = List::new(alloc);
    if effects.len() > 0 {
        recorded.push(TerminalEffects { block, effects })?;
    }
    Ok(recorded)
}
