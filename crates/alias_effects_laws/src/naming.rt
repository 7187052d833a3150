//! What the effects pass names.

ghost use Rattle.std.specs.Prelude.{◌≡◌, ℕ, ◌≤◌, Bool, true, length, Ok};
ghost use Rattle.alias_visit.specs.Places.{places_in};
ghost use Rattle.alias_effects.specs.Inference.{pass_end};
ghost use Rattle.alias_effects.specs.declared.output.PassEnd.{PassEnd};
ghost use Rattle.alias_effects_laws.specs.naming.Owning.{OwnsAll};
ghost use Rattle.alias_effects_laws.specs.naming.PassLaws.{SolvedNames};

use alias_hir::env::Environment;
use alias_hir::hir::HirFunction;

/// What the effects pass records of a function's instructions and terminals names only what a test holds of, where it holds of each place that
/// stands in the function, among them the context places of the functions that it creates, and of each identifier behind the table. Does nothing.
#[tactic(auto, using(crate::specs::naming::PassLaws::tested_names))]
pub fn naming_laws(env: &Environment, func: &HirFunction)
    ensures { (has : ℕ → Bool) (b : Bool) (e : PassEnd) → ((n : ℕ) → length env.now.identifiers ≤ n → has n ≡ true) → OwnsAll env.now (λ n. has n ≡ true) (places_in env.now func.now) → pass_end env.now func.now b ≡ Ok e → SolvedNames env.now (λ n. has n ≡ true) e.solved }
{
    // A law does nothing with what it is given: its clause is what it is for.
    let _env = env;
    let _func = func;
}
