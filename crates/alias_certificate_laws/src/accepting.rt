//! That the check of entry states accepts those that solve the flow of a function.

ghost use Rattle.std.specs.Prelude.{◌≡◌, true, List, Option};
ghost use Rattle.alias_flow.specs.Machine.{SolverState, VisitLog, Solved};
ghost use Rattle.alias_step.specs.block.Contexts.{context_of};
ghost use Rattle.alias_effects.specs.Numbered.{visits_end};
ghost use Rattle.alias_lattice.specs.States.{State};
ghost use Rattle.alias_rules.specs.Fitting.{function_fits};
ghost use Rattle.alias_tables.specs.Tables.{TableLists};
ghost use Rattle.alias_step.specs.declared.block.recorded.BlockEffects.{BlockEffects};
ghost use Rattle.alias_certificate_laws.specs.accepting.Accepting.{SolvesUnder, IsAccepted, IsAcceptedAnyway};
ghost use Rattle.alias_certificate_laws.specs.accepting.Certifying.{IsSolution, NamesItsOwn, IsAcceptedAsSaid};

use alias_hir::env::Environment;
use alias_hir::hir::HirFunction;

/// Entry states that solve the flow of the function under tables are accepted by the check that begins with these tables, with each claim
/// of its steps that is so: it refuses nothing that it should accept. Does nothing.
pub fn solution_law(env: &Environment, func: &HirFunction, is_function_expression: bool)
    requires { function_fits func.now env.now ≡ true }
    ensures { (tables : TableLists) (entries : List (Option State)) → SolvesUnder env.now func.now is_function_expression tables entries → IsAccepted env.now func.now is_function_expression tables entries }
{
    // A law does nothing with what it is given: its clause is what it is for.
    let _env = env;
    let _func = func;
    let _is_function_expression = is_function_expression;
}

/// They are accepted as well by a check that begins with other tables, whatever interned effects and reports these have, where their
/// temporaries have the same keys and identifiers: each step gives the same state and, but for spans and the numbers of reports, the same effects.
/// It may be that no number is left for a report. Does nothing.
pub fn tables_law(env: &Environment, func: &HirFunction, is_function_expression: bool)
    requires { function_fits func.now env.now ≡ true }
    ensures { (tables : TableLists) (entries : List (Option State)) → SolvesUnder env.now func.now is_function_expression tables entries → IsAcceptedAnyway env.now func.now is_function_expression tables entries }
{
    let _env = env;
    let _func = func;
    let _is_function_expression = is_function_expression;
}

/// A certificate that says a solution of the function's flow, with what its blocks record, is accepted by the check of the function, which begins
/// with no interned effects and makes the temporaries anew; or no number is left for a report. The solution names what is there, and
/// its temporaries are counted on from the identifiers. Does nothing.
pub fn certificate_law(env: &Environment, func: &HirFunction, is_function_expression: bool)
    requires { function_fits func.now env.now ≡ true }
    ensures { (tables : TableLists) (entries : List (Option State)) (recorded : List (Option BlockEffects)) → IsSolution env.now func.now is_function_expression tables entries recorded → IsAcceptedAsSaid env.now func.now is_function_expression tables entries recorded }
{
    let _env = env;
    let _func = func;
    let _is_function_expression = is_function_expression;
}

/// What the effects pass of the function ends with is such a solution: the certificate that says it is accepted, also over environments whose functions are
/// seen alike and whose reports are other ones, or no number is left for a report, where the entry states name what is there and the
/// temporaries are counted on from the identifiers. Does nothing.
pub fn pass_law(env: &Environment, func: &HirFunction, is_function_expression: bool)
    requires { function_fits func.now env.now ≡ true }
    ensures { (w : SolverState (VisitLog State) TableLists BlockEffects) → visits_end (context_of env.now func.now is_function_expression) ≡ Solved w → NamesItsOwn env.now func.now is_function_expression w.tables w.progress.joined_input → IsAcceptedAsSaid env.now func.now is_function_expression w.tables w.progress.joined_input w.recorded }
{
    let _env = env;
    let _func = func;
    let _is_function_expression = is_function_expression;
}
