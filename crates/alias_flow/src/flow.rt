//! What a flow is, what solves it, and why it has no solution.
ghost use Rattle.std.specs.Prelude.{◌≡◌, ◌<◌, ℕ, IfOk, List, Option};
ghost use Rattle.alias_flow.specs.Machine.{Rules, FlowLaws};
ghost use Rattle.alias_flow.specs.Steps.{StepGives};

use alias_base::List;
use alias_lattice::Lattice;
use smallvec::SmallVec;
use std::alloc::{AllocError, Global};

/// Why a step gave no state.
#[derive(Drop)]
pub enum StepFault<E> {
    /// The flow refuses the block.
    Refused(E),
    /// Out of memory, which can come at any step.
    Memory(AllocError),
}

/// Why a flow has no solution.
#[derive(Drop)]
pub enum SolveFault<E> {
    /// The flow refused a visit of the block.
    Step { block: u32, fault: E },
    /// Something was still dirty after 100 rounds, of so many visits.
    NotSettled { visits: u64 },
    /// Out of memory, which can come at any growth.
    Memory(AllocError),
}

impl<E> From<AllocError> for SolveFault<E> {
    ghost use Rattle.std.specs.Prelude.{◌≡◌};
    ghost use Rattle.alias_flow.specs.declared.flow.SolveFault.TheVariants.{Memory};

    ghost from_gives = { λ e r. r ≡ Memory e };

    fn from(e: AllocError) -> SolveFault<E> {
        SolveFault::Memory(e)
    }
}

impl<E> StepFault<E> {
    ghost use Rattle.std.specs.Prelude.{◌≡◌};
    ghost use Rattle.alias_flow.specs.Steps.{fault_at};

    /// The fault of a step as that of a visit of the block.
    pub(crate) fn at(self, block: u32) -> SolveFault<E>
        ensures { result ≡ fault_at block self }
    {
        match self {
            StepFault::Refused(fault) => SolveFault::Step { block, fault },
            StepFault::Memory(e) => SolveFault::Memory(e),
        }
    }
}

/// What solves a flow.
#[derive(Drop)]
pub struct Solution<S> {
    /// The blocks in the order of their visits.
    pub visits: List<u32>,
    /// The entry state of each block, in stored order; `None` where the block isn't reached.
    pub entries: List<Option<S>>,
}

/// A flow of states over blocks, which are known by their positions in stored order. It has tables, which
/// its steps append to, and records something of the last visit of each block.
///
/// # Convergence
///
/// What is sent to a block is joined, so that the input of its visits only rises. But a step needn't be monotone, as an
/// effect on a greater value may be another effect, and it may make new sites. So nothing bounds the rounds of a flow with
/// loops, and solving ends after 100 of them, as the React Compiler's pass does. That is met where news moves on by one
/// place a round: in a loop whose n phis hand on the value of the next one, the first phi learns of the last one's after n
/// rounds. Where all edges go to later blocks, all that arrives at a block has arrived when its turn comes, and one round
/// is enough.
pub trait Flow {
    /// What flows.
    type State: Lattice + Drop;

    /// Why a step is refused.
    type Fault: Drop;

    /// What its tables stand for.
    ghost Tables: { Type 0 };

    /// What it records of a visit.
    ghost Recorded: { Type 0 };

    /// What its faults stand for.
    ghost Cause: { Type 0 };

    /// What a fault stands for.
    ghost cause: { Self.Fault → Cause };

    /// What the flow does, apart from its tables and what it records.
    ghost rules: { Self → Rules Self.State Tables Recorded Cause };

    /// The tables so far.
    ghost tables: { Self → Tables };

    /// What is recorded of the last visit of each block.
    ghost recorded: { Self → List (Option Recorded) };

    /// Which references the flow holds.
    ghost Borrows: { Type 0 };

    /// The references that it holds.
    ghost borrows: { Self → Borrows };

    /// The second tables have the first ones at their beginning.
    ghost extends: { Tables → Tables → Type 0 };

    /// How many blocks there are.
    fn blocks(&self) -> u32
        ensures { result ≡ (rules self.now).blocks };

    /// The block where the flow begins.
    fn entry(&self) -> u32
        ensures { result ≡ (rules self.now).flow.entry };

    /// The state that the flow begins with. The one error is out of memory.
    fn initial(&self) -> Result<Self::State, AllocError>
        ensures { IfOk result (λ state. state ≡ (rules self.now).flow.initial) };

    /// The blocks that the edges of a block lead to, in their order. The one error is out of memory.
    fn edges(&self, block: u32) -> Result<SmallVec<u32, 2, Global>, AllocError>
        requires { block < (rules self.now).blocks }
        ensures { IfOk result (λ edges. edges.items ≡ (rules self.now).flow.edges block) };

    /// Steps the block: makes its out state of its entry state, appends to the tables, and records what is
    /// recorded of the block. An `Err` leaves what the flow does as it was.
    fn step(&mut self, block: u32, state: &mut Self::State) -> Result<(), StepFault<Self::Fault>>
        requires { block < (rules self.old).blocks }
        ensures same { rules self.new ≡ rules self.old }
        ensures borrows { borrows self.new ≡ borrows self.old }
        ensures outcome { StepGives cause ((rules self.old).flow.step (tables self.old) block state.old) result state.new (tables self.new) block (recorded self.old) (recorded self.new) };

    /// Edges lead to blocks, steps keep states proper and tables grow, and a step under tables that it left,
    /// or longer ones, gives the same and leaves them.
    ghost laws: { (flow : Self) → FlowLaws Self.State.proper extends (rules flow) (recorded flow) };
}
