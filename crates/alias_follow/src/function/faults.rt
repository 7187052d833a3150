//! Why what is given of a function isn't followed.
ghost use Rattle.std.specs.Prelude.{◌≡◌, false, IfOk};
ghost use Rattle.alias_cert.specs.function.Faults.{is_memory};
ghost use Rattle.alias_follow.specs.function.Faults.{lack_fault, pass_fault};

use crate::lines::Unfollowed;
use alias_base::{BlockId, BlockMap, FunctionId};
use alias_cert::function::function::step_fault;
use alias_cert::function::lines::block_at;
use alias_certificate::CheckFault;
use alias_flow::check::Unsolved;
use alias_hir::env::Environment;
use alias_hir::hir::{BasicBlock, HirFunction};
use alias_step::block::BlockRefusal;
use std::alloc::{AllocError, Global};

fn lack_fault(function: Option<FunctionId>, block: BlockId, lack: Unfollowed) -> CheckFault
    ensures { result ≡ lack_fault function block lack }
{
    match lack {
        Unfollowed::State => CheckFault::State { function, block },
        Unfollowed::MissingTemporary => CheckFault::MissingTemporary { function, block },
    }
}

/// What a pass finds.
pub(crate) type Fault = Unsolved<BlockRefusal, Unfollowed>;

/// What a pass found, as a fault of the function.
fn pass_fault(
    alloc: Global,
    function: Option<FunctionId>,
    env: &Environment,
    blocks: &BlockMap<BasicBlock>,
    fault: Fault,
) -> Result<CheckFault, AllocError>
    ensures { IfOk result (λ e. e ≡ pass_fault function env.now blocks.now fault) }
{
    match fault {
        // A pass begins with the initial state, and has joins alone: it finds neither this nor that an entry isn't one.
        Unsolved::Initial => Ok(CheckFault::Initial { function }),
        Unsolved::Step { block, fault } => {
            let block = block_at(blocks, block as usize);
            step_fault(alloc, function, env, block, fault)
        }
        Unsolved::Differs { block, difference } => {
            let block = block_at(blocks, block as usize);
            Ok(lack_fault(function, block, difference))
        }
        Unsolved::NotBelow { block, successor } => Ok(CheckFault::NotBelow {
            function,
            block: block_at(blocks, block as usize),
            successor: block_at(blocks, successor as usize),
        }),
        Unsolved::NotJoin { block } => Ok(CheckFault::NotJoin {
            function,
            block: block_at(blocks, block as usize),
        }),
        Unsolved::Memory(e) => Ok(CheckFault::Memory(e)),
    }
}

/// The same as it is answered.
pub(crate) fn fault_of(
    alloc: Global,
    function: Option<FunctionId>,
    func: &HirFunction,
    env: &Environment,
    fault: Fault,
) -> CheckFault
    ensures { is_memory result ≡ false → result ≡ pass_fault function env.now func.now.body.blocks fault }
{
    match pass_fault(alloc, function, env, &func.body.blocks, fault) {
        Ok(fault) => fault,
        Err(e) => CheckFault::Memory(e),
    }
}
