//! What an effects pass's entry states and temporaries name.

ghost use Rattle.std.specs.Prelude.{◌≡◌, Bool, true};
ghost use Rattle.alias_base.specs.declared.ids.FunctionId.{FunctionId};
ghost use Rattle.alias_flow.specs.Machine.{SolverState, VisitLog, Solved};
ghost use Rattle.alias_lattice.specs.States.{State};
ghost use Rattle.alias_rules.specs.Fitting.{function_fits};
ghost use Rattle.alias_tables.specs.Tables.{TableLists};
ghost use Rattle.alias_step.specs.block.Contexts.{context_of};
ghost use Rattle.alias_step.specs.declared.block.recorded.BlockEffects.{BlockEffects};
ghost use Rattle.alias_effects.specs.Numbered.{visits_end};
ghost use Rattle.alias_effects_laws.specs.entries.Named.{BlocksCreate, EntriesNamed};

use alias_hir::env::Environment;
use alias_hir::hir::HirFunction;

/// The entry states that the effects pass of a function ends with name identifiers of the table and of the pass's temporaries, and functions that
/// the function's blocks create: those that a test holds of, where it holds of each of these. The temporaries are counted on from the
/// identifiers, each with a key of its own that names what was there before it. Does nothing.
pub fn entry_laws(env: &Environment, func: &HirFunction)
    requires { function_fits func.now env.now ≡ true }
    ensures { (b : Bool) (has : FunctionId → Bool) (w : SolverState (VisitLog State) TableLists BlockEffects) → BlocksCreate (λ f. has f ≡ true) func.now → visits_end (context_of env.now func.now b) ≡ Solved w → EntriesNamed env.now (λ f. has f ≡ true) w }
{
    // A law does nothing with what it is given: its clause is what it is for.
    let _env = env;
    let _func = func;
}
