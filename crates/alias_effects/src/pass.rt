//! The effects pass as a flow over the positions of blocks.
ghost use Rattle.std.specs.List.{IsDistinct};
ghost use Rattle.std.specs.Map.{keys_of};
ghost use Rattle.std.specs.Prelude.{◌≡◌, ◌<◌, ◌^◌, true, None, IfOk, length, is_some, List, Option, option_map, replicate, slice_index_or, vec_len};
ghost use Rattle.std.proofs.Common.{sym, ◌∙◌};
ghost use Rattle.std.specs.Borrow.{Bor};
ghost use Rattle.alias_base.specs.Find.{same_block, value_at};
ghost use Rattle.alias_hir.specs.declared.env.Environment.{Environment};
ghost use Rattle.alias_hir.specs.declared.hir.HirFunction.{HirFunction};
ghost use Rattle.alias_hir.specs.Positions.{positions_of, entry_position};
ghost use Rattle.alias_facts.specs.declared.facts.FunctionFacts.{FunctionFacts};
ghost use Rattle.alias_facts.specs.Facts.{function_facts as facts_of};
ghost use Rattle.alias_rules.specs.Fitting.{function_fits};
ghost use Rattle.alias_tables.specs.GrowingLaws.{Extends};
ghost use Rattle.alias_tables.specs.Tables.{TableLists, Leaves, temporary};
ghost use Rattle.alias_tables.specs.write_back.WriteBack.{tables_of as tables_begun};
ghost use Rattle.alias_step.specs.declared.block.faults.BlockRefusal.{BlockRefusal};
ghost use Rattle.alias_step.specs.declared.block.recorded.BlockEffects.{BlockEffects};
ghost use Rattle.alias_step.specs.block.Contexts.{context_of, held};
ghost use Rattle.alias_effects.specs.Numbered.{numbered};
ghost use Rattle.alias_effects.specs.Faults.{step_fault};
ghost use Rattle.alias_effects.specs.Inference.{end_of};
ghost use Rattle.alias_effects.specs.Output.{solver_state_with};
ghost use Rattle.alias_effects.specs.PassLaws.{pass_laws};

use crate::output::{PassEnd, end_of};
use alias_base::List;
use alias_facts::FunctionFacts;
use alias_flow::{Flow, Solution, StepFault, nothing_yet};
use alias_hir::effect::{AliasingEffect, AliasingEffects};
use alias_hir::env::Environment;
use alias_hir::hir::HirFunction;
use alias_hir::interned::InternedReports;
use alias_hir::place::Place;
use alias_hir::positions::{entry_position, positions_of};
use alias_hir::successors::terminal_successors;
use alias_lattice::InferenceState;
use alias_step::block::{
    BlockContext, BlockEffects, BlockFault, BlockRefusal, infer_block, initial_state,
};
use alias_tables::write_back::tables_of;
use alias_tables::{ContextRead, EffectFault, TableParts, Tables, TempKey, Temporaries, Temporary};
use smallvec::SmallVec;
use std::alloc::{AllocError, Global};
use std::mem;

/// The effects pass over a function as a flow over the positions of its blocks, with its tables, and with what the last step of
/// each block recorded.
#[derive(Drop)]
pub struct EffectsFlow<'a> {
    pub(crate) alloc: Global,
    pub(crate) context: BlockContext<'a>,
    pub(crate) tables: Tables,
    pub(crate) recorded: Vec<Option<BlockEffects>>,
    ghost entry_exists: { is_some (value_at context.func.now.body.blocks context.func.now.body.entry) ≡ true },
    ghost few: { length context.func.now.body.blocks < 2 ^ 32 },
    ghost recorded_long: { vec_len recorded ≡ length context.func.now.body.blocks },
}

fn step_fault(fault: BlockFault) -> StepFault<BlockRefusal>
    ensures { result ≡ step_fault fault }
{
    match fault {
        BlockFault::Refused(refusal) => StepFault::Refused(refusal),
        BlockFault::Memory(e) => StepFault::Memory(e),
    }
}

/// What a flow leaves: what the last step of each block recorded, and what its tables hold.
#[derive(Drop)]
pub struct Recording {
    /// What the last step of each block recorded, in stored order; `None` where there was none.
    pub blocks: Vec<Option<BlockEffects>>,
    /// The interned effect of each key.
    pub first: AliasingEffects,
    pub temporaries: Temporaries,
    /// All reports that are interned.
    pub reports: InternedReports,
    /// The context places that are only read.
    pub reads: List<ContextRead>,
}

impl<'a> EffectsFlow<'a> {
    /// The flow of the function of which these facts are known. Nothing is stepped yet, and its tables have the reports of the
    /// environment alone. The one error is out of memory, which comes too where the function has 2^32 blocks or more.
    pub fn new(
        alloc: Global,
        func: &'a HirFunction,
        env: &'a Environment,
        facts: &'a FunctionFacts,
        is_function_expression: bool,
    ) -> Result<EffectsFlow<'a>, AllocError>
        requires fits { function_fits func.now env.now ≡ true }
        requires facts { facts.now ≡ facts_of func.now env.now }
        ensures rules { IfOk result (λ flow. numbered (held flow.context) ≡ numbered (context_of env.now func.now is_function_expression)) }
        ensures env { IfOk result (λ flow. flow.context.env.now ≡ env.now) }
        ensures func { IfOk result (λ flow. flow.context.func.now ≡ func.now) }
        ensures tables { IfOk result (λ flow. flow.tables ≡ tables_begun env.now) }
        ensures recorded { IfOk result (λ flow. flow.recorded.items ≡ replicate (length func.now.body.blocks) None) }
        ensures distinct { IfOk result (λ _. IsDistinct same_block (keys_of func.now.body.blocks)) }
    {
        let count = func.body.blocks.len();
        if count > u32::MAX as usize {
            return Err(AllocError);
        }
        Ok(EffectsFlow {
            alloc,
            context: BlockContext {
                env,
                func,
                facts,
                is_function_expression,
            },
            tables: tables_of(alloc, env)?,
            recorded: nothing_yet(alloc, count as u32)?,
        })
    }

    /// The place of the key's temporary, which steps find afterwards. Where there is none, it gets the next number, and no span.
    pub fn temporary(&mut self, key: TempKey) -> Result<Place, EffectFault>
        ensures context { self.new.context ≡ self.old.context }
        ensures recorded { self.new.recorded.items ≡ self.old.recorded.items }
        ensures place { Leaves (temporary self.old.context.env.now key None self.old.tables) result self.new.tables }
    {
        let env = self.context.env;
        self.tables.temporary(env, key, None)
    }

    /// What the last step of the block recorded, if there was one.
    pub fn recorded(&self, block: u32) -> Option<&BlockEffects>
        ensures { option_map (λ effects. effects.now) result ≡ slice_index_or self.now.recorded.items block None }
    {
        match self.recorded.get(block as usize) {
            Some(Some(effects)) => Some(effects),
            _ => None,
        }
    }

    /// The interned effect of each key, in order.
    pub fn first(&self) -> &[AliasingEffect]
        ensures { result.now ≡ self.now.tables.first }
    {
        self.tables.first()
    }

    /// The temporaries, in order.
    pub fn temporaries(&self) -> &[Temporary]
        ensures { result.now ≡ self.now.tables.temporaries }
    {
        self.tables.temporaries()
    }

    /// What the flow leaves, by value. Takes no memory.
    pub fn into_recorded(self) -> Recording
        ensures blocks { result.blocks.items ≡ self.entry.recorded.items }
        ensures first { result.first ≡ self.entry.tables.first }
        ensures temporaries { result.temporaries ≡ self.entry.tables.temporaries }
        ensures reports { result.reports ≡ self.entry.tables.reports }
        ensures reads { result.reads ≡ self.entry.tables.reads }
    {
        let EffectsFlow {
            tables,
            recorded,
            ..
        } = self;
        let TableParts {
            first,
            temporaries,
            reports,
            reads,
        } = tables.into_parts();
        Recording {
            blocks: recorded,
            first,
            temporaries,
            reports,
            reads,
        }
    }

    /// What is handed out where these entry states, one for each block or none, solve the flow.
    pub fn into_end(self, solution: Solution<InferenceState>) -> Result<PassEnd, AllocError>
        requires { length solution.entries ≡ length self.context.func.now.body.blocks }
        ensures { IfOk result (λ e. e ≡ end_of self.entry.context.func.now (solver_state_with solution self.entry.tables self.entry.recorded.items)) }
    {
        let EffectsFlow {
            alloc,
            context,
            tables,
            recorded,
        } = self;
        end_of(alloc, context.func, solution, tables, recorded)
    }
}

impl<'a> Flow for EffectsFlow<'a> {
    type State = InferenceState;

    type Fault = BlockRefusal;

    ghost Tables = { TableLists };

    ghost Recorded = { BlockEffects };

    ghost Cause = { BlockRefusal };

    ghost cause = { λ e. e };

    ghost rules = { λ p. numbered (held p.context) };

    ghost tables = { λ p. p.tables };

    ghost recorded = { λ p. p.recorded.items };

    ghost Borrows = { Bor Environment × Bor HirFunction × Bor FunctionFacts };

    ghost borrows = { λ p. (p.context.env, p.context.func, p.context.facts) };

    ghost extends = { Extends };

    ghost laws = { λ p. pass_laws (held p.context) p.entry_exists p.recorded.items (sym p.recorded.ok.0 ∙ p.recorded_long) };

    fn blocks(&self) -> u32 {
        self.context.func.body.blocks.len() as u32
    }

    fn entry(&self) -> u32 {
        entry_position(self.context.func) as u32
    }

    fn initial(&self) -> Result<InferenceState, AllocError> {
        initial_state(self.alloc, &self.context)
    }

    fn edges(&self, block: u32) -> Result<SmallVec<u32, 2, Global>, AllocError> {
        let blocks = &self.context.func.body.blocks;
        let Some((_, from)) = blocks.get_index(block as usize) else {
            unreachable!()
        };
        let names = terminal_successors(self.alloc, &from.terminal)?;
        positions_of(self.alloc, blocks, names.as_slice())
    }

    fn step(
        &mut self,
        block: u32,
        state: &mut InferenceState,
    ) -> Result<(), StepFault<BlockRefusal>> {
        let Some((name, at)) = self.context.func.body.blocks.get_index(block as usize) else {
            unreachable!()
        };
        let entered = mem::replace(state, InferenceState::empty(self.alloc));
        match infer_block(&self.context, *name, at, &mut self.tables, entered) {
            Ok((after, effects)) => {
                *state = after;
                self.recorded[block as usize] = Some(effects);
                Ok(())
            }
            Err(fault) => Err(step_fault(fault)),
        }
    }
}
