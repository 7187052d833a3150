//! What a solution tells of definite writes.

ghost use Rattle.alias_effects.specs.Solutions.{IsSolved};
ghost use Rattle.alias_effects_laws.specs.writes.Solutions.{TellsWrites};

use alias_effects::Solved;
use alias_hir::env::Environment;
use alias_hir::hir::HirFunction;

/// What an instruction of a reached block writes for certain, stepped from the block's entry state, stands as an error effect of
/// the instruction, `MutateFrozen` or `MutateGlobal` of the same identifier, where the value is frozen, may be frozen or is
/// a global, and is no ref. Does nothing.
pub fn tells_writes(
    env: &Environment,
    func: &HirFunction,
    is_function_expression: bool,
    solved: &Solved,
)
    requires { IsSolved env.now func.now is_function_expression solved.now }
    ensures { TellsWrites env.now func.now is_function_expression solved.now }
{
    // A law does nothing with what it is given: its clause is what it is for.
    let _env = env;
    let _func = func;
    let _is_function_expression = is_function_expression;
    let _solved = solved;
}
