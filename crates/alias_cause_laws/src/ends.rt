//! Which ranges the range pass ends.

ghost use Rattle.std.specs.Prelude.{◌≡◌, ℕ, Bool, false, List, Ok};
ghost use Rattle.alias_graph.specs.recorded.BlockListings.{listed};
ghost use Rattle.alias_graph.specs.recorded.Recording.{graph_listed};
ghost use Rattle.alias_graph.specs.declared.recorded.listing.Listing.{Listing};
ghost use Rattle.alias_hir.specs.declared.env.Identifier.{Identifier};
ghost use Rattle.alias_range_pass.specs.Laws.{Causes};
ghost use Rattle.alias_graph.specs.Reach.{end_at};
ghost use Rattle.alias_cause_laws.specs.ends.EndLaws.{Tested};

use alias_hir::env::Environment;
use alias_hir::hir::HirFunction;

/// Where each end is that of before or has a cause, as the range pass leaves it, the end of an identifier is that of before, where a test
/// doesn't hold of it that holds of each identifier of the function's places, those of the contexts of functions that it creates among
/// them, and of each that its effects make. Does nothing.
pub fn ends_laws(env: &Environment, func: &HirFunction)
    ensures { (has : ℕ → Bool) (l : Listing) (old new : List Identifier) (k : ℕ) → Tested has env.now func.now → listed func.now ≡ Ok l → Causes (graph_listed l) l.mutations func.now.instructions old new → has k ≡ false → end_at new k ≡ end_at old k }
{
    // A law does nothing with what it is given: its clause is what it is for.
    let _env = env;
    let _func = func;
}
