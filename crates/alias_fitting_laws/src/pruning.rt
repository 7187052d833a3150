//! What holds where nested functions lose what they create.

ghost use Rattle.std.specs.Prelude.{◌≡◌, true, false, [], None, Some, slice_get};
ghost use Rattle.alias_base.specs.declared.ids.FunctionId.{FunctionId};
ghost use Rattle.alias_fitting_laws.specs.bare.Bare.{TablesFit};
ghost use Rattle.alias_rules.specs.function_rules.Rules.{is_among};
ghost use Rattle.alias_hir.specs.declared.hir.HirFunction.{HirFunction};
ghost use Rattle.alias_inner_passes.specs.Passes.{Keeps};
ghost use Rattle.alias_nesting_laws.specs.Slots.{with_function};
ghost use Rattle.alias_fitting_laws.specs.pruning.Pruning.{Prunes, FunctionPruned};
ghost use Rattle.alias_rules.specs.Fitting.{function_fits};
ghost use Rattle.alias_rules.specs.Nesting.{created_in};

use alias_hir::env::Environment;

/// A function that the inference takes is taken again over an environment whose functions lost some of what they create, where
/// the tables keep their rules. A pass of the caller leaves a function and an environment of this kind. Does nothing.
pub fn pruning_laws(env: &Environment, more: &Environment)
    ensures fits { Prunes env.now more.now → TablesFit more.now → (g : HirFunction) → function_fits g env.now ≡ true → function_fits g more.now ≡ true }
    ensures passes { (f g : HirFunction) → Keeps f env.now g more.now → FunctionPruned f env.now g more.now }
{
    // A law does nothing with what it is given: its clause is what it is for.
    let _env = env;
    let _more = more;
}

/// A function that doesn't create itself was taken out of its slot, where one without summary and context stood meanwhile, and is
/// put back as its analysis has left it. Then each slot holds its own function again. Does nothing.
pub fn put_back_laws(env: &Environment, after: &Environment)
    ensures { (id : FunctionId) (f g stand_in : HirFunction) → slice_get env.now.functions id.0 ≡ Some f → stand_in.aliasing_effects ≡ None → stand_in.context ≡ [] → is_among (created_in f) id.0 ≡ false → FunctionPruned f (with_function id stand_in env.now) g after.now → Prunes env.now (with_function id g after.now) }
{
    let _env = env;
    let _after = after;
}
