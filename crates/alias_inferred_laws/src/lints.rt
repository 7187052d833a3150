//! What a function records, whatever the effects of its places are.
ghost use Rattle.std.specs.Prelude.{◌≡◌};
ghost use Rattle.alias_graph.specs.recorded.BlockListings.{listed};
ghost use Rattle.alias_range_pass.specs.Laws.{but_places};

use alias_hir::hir::HirFunction;

/// Functions that differ in the effects of their places alone, as a function does before its range pass and after it,
/// record the same. Does nothing.
#[tactic(auto, using(crate::proofs::lints::Placing::listed_alike))]
pub fn records_alike(func: &HirFunction, placed: &HirFunction)
    requires { but_places placed.now ≡ but_places func.now }
    ensures { listed placed.now ≡ listed func.now }
{
    // A law does nothing with what it is given: its clause is what it is for.
    let _func = func;
    let _placed = placed;
}
