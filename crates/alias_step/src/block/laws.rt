//! What a flow of these steps begins with.

ghost use Rattle.alias_lattice.specs.ProperStates.{StateProper};
ghost use Rattle.alias_step.specs.block.Contexts.{held};
ghost use Rattle.alias_step.specs.block.Initial.{initial_state};

use crate::block::context::BlockContext;

/// The initial state is proper. Does nothing.
pub fn block_laws(context: &BlockContext<'_>)
    ensures initial { StateProper (initial_state (held context.now)) }
{
    // A law does nothing with what it is given: its clause is what it is for.
    let _context = context;
}
