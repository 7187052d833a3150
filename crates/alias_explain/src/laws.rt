//! What holds of the causes of ranges, over what the range pass leaves.
ghost use Rattle.std.specs.Prelude.{◌≡◌, Ok, None, List};
ghost use Rattle.alias_graph.specs.recorded.BlockListings.{listed};
ghost use Rattle.alias_graph.specs.recorded.Recording.{graph_listed};
ghost use Rattle.alias_graph.specs.declared.recorded.listing.Listing.{Listing};
ghost use Rattle.alias_explain.specs.Causes.{cause_of};
ghost use Rattle.alias_explain.specs.declared.cause.Cause.TheVariants.{NoCause};
ghost use Rattle.alias_rules.specs.function_rules.Rules.{instructions_listed};
ghost use Rattle.alias_hir.specs.declared.env.Identifier.{Identifier};
ghost use Rattle.alias_range_pass.specs.Laws.{Causes};
ghost use Rattle.alias_graph.specs.Reach.{end_at};

use alias_base::IdentifierId;
use alias_hir::hir::HirFunction;

/// Where each end is that of before or has a cause, as the range pass leaves it, and all instructions are listed, an
/// end that was unset has a cause: the instruction, or the mutation with its path, is found. Does nothing.
#[tactic(auto, using(crate::proofs::laws::Found::never_none))]
pub fn has_cause(func: &HirFunction, identifier: IdentifierId)
    requires { instructions_listed None func.now ≡ Ok tt }
    ensures { (l : Listing) (old new : List Identifier) → listed func.now ≡ Ok l → Causes (graph_listed l) l.mutations func.now.instructions old new → end_at old identifier.0 ≡ 0 → cause_of func.now identifier (end_at new identifier.0) ≡ Ok NoCause → ⊥ }
{
    // A law does nothing with what it is given: its clause is what it is for.
    let _func = func;
    let _identifier = identifier;
}
