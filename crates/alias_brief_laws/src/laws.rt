//! That following again from what is told comes to the same.

ghost use Rattle.std.specs.Prelude.{◌≡◌, Ok};
ghost use Rattle.alias_brief.specs.Fitting.{IsFittingText};
ghost use Rattle.alias_brief.specs.Verifying.{verified};
ghost use Rattle.alias_hir.specs.declared.env.Unit.{Unit as HirUnit};
ghost use Rattle.alias_rules.specs.Functions.{rules_hold};
ghost use Rattle.alias_brief_laws.specs.Accepted.{BriefsAreFollowed, BriefsAreAccepted, functions_in};
ghost use Rattle.alias_brief_laws.specs.Raising.{RaisesAgain};

use crate::states::states_known;
use alias_brief_text_laws::laws::briefs_read_back;
use alias_effects::Solved;

/// What a state that lines raised has beyond what arrived raises that to it again. Does nothing.
pub fn raises_again_law()
    ensures { RaisesAgain }
{}

/// What is told of what follows for a unit comes to just that again. Does nothing.
pub fn briefs_followed_law()
    ensures { BriefsAreFollowed }
{}

/// The text of what follows for a unit is accepted, where it reads as what it tells. Does nothing.
pub fn briefs_accepted_law()
    ensures { BriefsAreAccepted }
{}

/// A law: the text that `brief` prints of a unit that is well formed, from solutions of its functions, is accepted by
/// `verify`.
pub fn brief_accepted(text: &str, solved: &[Solved])
    ensures { (u : HirUnit) → rules_hold u ≡ Ok tt → IsFittingText solved.now u text.now → verified text.now u ≡ Ok (functions_in u) }
{
    states_known(solved);
    briefs_read_back();
}
