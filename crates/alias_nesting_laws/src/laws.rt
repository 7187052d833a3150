//! What holds of functions that another one creates.

ghost use Rattle.std.specs.Prelude.{◌≡◌, true, ◌<◌, length, slice_get, Some, None};
ghost use Rattle.alias_base.specs.declared.ids.FunctionId.{FunctionId};
ghost use Rattle.alias_hir.specs.declared.hir.HirFunction.{HirFunction};
ghost use Rattle.alias_rules.specs.function_rules.Rules.{is_among};
ghost use Rattle.alias_rules.specs.Fitting.{function_fits};
ghost use Rattle.alias_rules.specs.Nesting.{created_in};
ghost use Rattle.alias_nesting_laws.specs.Slots.{with_function};

use alias_hir::env::Environment;

/// A function that the inference takes creates only functions that are in their slots, and the inference takes each of these
/// too, once it is out of its slot, where a function without a summary stands meanwhile. Does nothing.
pub fn nesting_laws(env: &Environment)
    ensures created_exists { (holder : HirFunction) (id : FunctionId) → function_fits holder env.now ≡ true → is_among (created_in holder) id.0 ≡ true → id.0 < length env.now.functions }
    ensures taken_out_fits { (holder f stand_in : HirFunction) (id : FunctionId) → function_fits holder env.now ≡ true → is_among (created_in holder) id.0 ≡ true → slice_get env.now.functions id.0 ≡ Some f → stand_in.aliasing_effects ≡ None → function_fits f (with_function id stand_in env.now) ≡ true }
{
    // A law does nothing with what it is given: its clause is what it is for.
    let _env = env;
}
