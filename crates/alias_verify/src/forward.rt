//! Whether all edges of a unit's functions go to later blocks.
ghost use Rattle.std.specs.Prelude.{◌≡◌, ◌↔◌, ◌&&◌, IsTrue};
ghost use Rattle.std.specs.List.{list_all};
ghost use Rattle.alias_hir.specs.Terminals.{successors, optional_block};
ghost use Rattle.alias_hir.specs.declared.terminal.SwitchCase.{SwitchCase};
ghost use Rattle.alias_unit_completeness.specs.Refusals.{IsForwardUnit};
ghost use Rattle.alias_verify.specs.Edges.{stands_behind, goes_on, goes_forward, unit_goes_forward};

use alias_base::{BlockId, BlockMap};
use alias_hir::env::Unit;
use alias_hir::hir::{BasicBlock, HirFunction};
use alias_hir::successors::{SuccessorFields, successor_fields};
use alias_hir::terminal::{SwitchCase, Terminal};

fn stands_behind(blocks: &BlockMap<BasicBlock>, at: usize, name: BlockId) -> bool
    ensures { result ≡ stands_behind blocks.now at name }
{
    match blocks.position(name) {
        Some(position) => at < position,
        None => true,
    }
}

fn optional_stands_behind(blocks: &BlockMap<BasicBlock>, at: usize, name: Option<BlockId>) -> bool
    ensures { result ≡ list_all (stands_behind blocks.now at) (optional_block name) }
{
    match name {
        Some(name) => stands_behind(blocks, at, name),
        None => true,
    }
}

fn cases_stand_behind(blocks: &BlockMap<BasicBlock>, at: usize, cases: &[SwitchCase]) -> bool
    ensures { result ≡ list_all (λ (c : SwitchCase). stands_behind blocks.now at c.block) cases.now }
{
    cases
        .iter()
        .all(|case| stands_behind(blocks, at, case.block))
}

fn fields_stand_behind(
    blocks: &BlockMap<BasicBlock>,
    at: usize,
    first: Option<BlockId>,
    second: Option<BlockId>,
) -> bool
    ensures { result ≡ (list_all (stands_behind blocks.now at) (optional_block first) && list_all (stands_behind blocks.now at) (optional_block second)) }
{
    optional_stands_behind(blocks, at, first) && optional_stands_behind(blocks, at, second)
}

#[tactic(auto, using(crate::proofs::Edges::all_of_parts))]
fn terminal_goes_on(blocks: &BlockMap<BasicBlock>, at: usize, terminal: &Terminal) -> bool
    ensures { result ≡ list_all (stands_behind blocks.now at) (successors terminal.now) }
{
    let SuccessorFields {
        first,
        second,
        cases,
    } = successor_fields(terminal);
    fields_stand_behind(blocks, at, first, second) && cases_stand_behind(blocks, at, cases)
}

/// Whether each edge of the block at this position goes to a later block.
fn goes_on(blocks: &BlockMap<BasicBlock>, at: usize) -> bool
    ensures { result ≡ goes_on blocks.now at }
{
    match blocks.get_index(at) {
        Some((_, block)) => terminal_goes_on(blocks, at, &block.terminal),
        None => true,
    }
}

#[tactic(auto, using(alias_flow::proofs::Rounds::up_more))]
fn goes_forward(func: &HirFunction) -> bool
    ensures { result ≡ goes_forward func.now }
{
    let blocks = &func.body.blocks;
    for at in 0..blocks.len() {
        if !goes_on(blocks, at) {
            return false;
        }
    }
    true
}

fn all_go_forward(functions: &[HirFunction]) -> bool
    ensures { result ≡ list_all goes_forward functions.now }
{
    functions.iter().all(|func| goes_forward(func))
}

fn unit_goes_forward(unit: &Unit) -> bool
    ensures { result ≡ unit_goes_forward unit.now }
{
    goes_forward(&unit.function) && all_go_forward(unit.env.functions.as_slice())
}

/// Whether each edge of each function of the unit goes to a later block. It takes no memory, and looks each edge up once.
pub fn is_forward_unit(unit: &Unit) -> bool
    ensures { IsTrue result ↔ IsForwardUnit unit.now }
{
    unit_goes_forward(unit)
}
