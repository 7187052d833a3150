//! What isn't sure, as a flow over the positions of blocks.
ghost use Rattle.std.specs.Prelude.{◌≡◌, ◌<◌, ◌+◌, ◌^◌, [], ◌∷◌, true, IfOk, length, is_some, Option, vec_len};
ghost use Rattle.std.proofs.Common.{sym, ◌∙◌};
ghost use Rattle.std.specs.Borrow.{Bor};
ghost use Rattle.alias_base.specs.Find.{value_at};
ghost use Rattle.alias_hir.specs.declared.env.Environment.{Environment};
ghost use Rattle.alias_hir.specs.declared.hir.HirFunction.{HirFunction};
ghost use Rattle.alias_hir.specs.Positions.{positions_of, entry_position};
ghost use Rattle.alias_facts.specs.declared.facts.FunctionFacts.{FunctionFacts};
ghost use Rattle.alias_plain.specs.Held.{held};
ghost use Rattle.alias_plain.specs.laws.UnsureFlow.{unsure_flow, out_set};
ghost use Rattle.alias_plain.specs.laws.FlowLaws.{unsure_laws};

use crate::laws::Stop;
use crate::scope::Scope;
use crate::sure::{out_set, unsure_at_first};
use crate::unsure::UnsureWays;
use alias_flow::{Flow, StepFault};
use alias_hir::hir::BasicBlock;
use alias_hir::positions::{entry_position, positions_of};
use alias_hir::successors::terminal_successors;
use smallvec::SmallVec;
use std::alloc::{AllocError, Global};

/// The flow of a function, of whose visits nothing is recorded but that they were.
#[derive(Drop)]
pub(crate) struct UnsureFlow<'a> {
    pub(crate) alloc: Global,
    pub(crate) scope: Scope<'a>,
    pub(crate) recorded: Vec<Option<()>>,
    ghost entry_exists: { is_some (value_at scope.func.now.body.blocks scope.func.now.body.entry) ≡ true },
    ghost few: { length scope.func.now.body.blocks < 2 ^ 32 },
    ghost recorded_long: { vec_len recorded ≡ length scope.func.now.body.blocks },
}

impl<'a> Flow for UnsureFlow<'a> {
    type State = UnsureWays;

    type Fault = Stop;

    ghost Tables = { Unit {0} };

    ghost Recorded = { Unit {0} };

    ghost Cause = { Unit {0} };

    ghost cause = { λ e. tt };

    ghost rules = { λ p. unsure_flow (held p.scope) };

    ghost tables = { λ p. tt };

    ghost recorded = { λ p. p.recorded.items };

    ghost Borrows = { Bor Environment × Bor HirFunction × Bor FunctionFacts };

    ghost borrows = { λ p. (p.scope.env, p.scope.func, p.scope.facts) };

    ghost extends = { λ t u. Unit {0} };

    ghost laws = { λ p. unsure_laws (held p.scope) p.entry_exists p.recorded.items (sym p.recorded.ok.0 ∙ p.recorded_long) };

    fn blocks(&self) -> u32 {
        self.scope.func.body.blocks.len() as u32
    }

    fn entry(&self) -> u32 {
        entry_position(self.scope.func) as u32
    }

    fn initial(&self) -> Result<UnsureWays, AllocError> {
        UnsureWays::one(self.alloc, 0, unsure_at_first(self.alloc, &self.scope)?)
    }

    fn edges(&self, block: u32) -> Result<SmallVec<u32, 2, Global>, AllocError> {
        let blocks = &self.scope.func.body.blocks;
        let Some((_, from)) = blocks.get_index(block as usize) else {
            unreachable!()
        };
        let names = terminal_successors(self.alloc, &from.terminal)?;
        positions_of(self.alloc, blocks, names.as_slice())
    }

    fn step(&mut self, block: u32, state: &mut UnsureWays) -> Result<(), StepFault<Stop>> {
        let Some((_, at)) = self.scope.func.body.blocks.get_index(block as usize) else {
            unreachable!()
        };
        match left_by(self.alloc, &self.scope, block, at, state) {
            Ok(after) => {
                *state = after;
                self.recorded[block as usize] = Some(());
                Ok(())
            }
            Err(e) => Err(StepFault::Memory(e)),
        }
    }
}

/// The state that the block leaves.
fn left_by(
    alloc: Global,
    scope: &Scope<'_>,
    position: u32,
    block: &BasicBlock,
    state: &UnsureWays,
) -> Result<UnsureWays, AllocError>
    requires { position + 1 < 2 ^ 32 }
    ensures { IfOk result (λ after. after ≡ (position + 1, out_set (held scope.now) block.now state.now) ∷ []) }
{
    let set = out_set(alloc, scope, block, state)?;
    UnsureWays::one(alloc, position + 1, set)
}
