//! What no rule looks at, and what analysing nested functions leaves true of a function.

ghost use Rattle.std.specs.Prelude.{◌≡◌, true, Option, Ok};
ghost use Rattle.alias_base.specs.declared.ids.FunctionId.{FunctionId};
ghost use Rattle.alias_hir.specs.declared.hir.HirFunction.{HirFunction};
ghost use Rattle.alias_rules.specs.function_rules.Rules.{tables_fit, types_fit, signatures_fit};
ghost use Rattle.alias_rules.specs.Fitting.{function_fits, reports_no_invariant};
ghost use Rattle.alias_rules.specs.Functions.{rule_holds};
ghost use Rattle.alias_rules.specs.declared.rules.Rule.{Rule};
ghost use Rattle.alias_fitting_laws.specs.bare.Bare.{bare, but_place_effects, but_ranges_and_contexts};
ghost use Rattle.alias_fitting_laws.specs.bare.EvolvedLaws.{Evolves};

use alias_hir::env::Environment;

/// Functions that differ in what is inferred alone keep, or break, each rule alike; and one that differs from a function
/// that the inference takes in the effects of its places alone is taken. Does nothing.
pub fn bare_laws(env: &Environment)
    ensures rules { (r : Rule) (o : Option FunctionId) (f g : HirFunction) → bare f ≡ bare g → rule_holds r env.now o g ≡ rule_holds r env.now o f }
    ensures fits { (f g : HirFunction) → but_place_effects f ≡ but_place_effects g → function_fits f env.now ≡ true → function_fits g env.now ≡ true }
{
    // A law does nothing with what it is given: its clause is what it is for.
    let _env = env;
}

/// A function that the inference takes is taken again over what analysing nested functions makes of its environment, where
/// the tables keep their rules and no report says that an invariant was broken; and where nothing but ranges, scopes and effects of
/// context places changed, that is what the analysis may make of it. Does nothing.
pub fn evolved_laws(env: &Environment, more: &Environment)
    ensures ranges { but_ranges_and_contexts more.now ≡ but_ranges_and_contexts env.now → Evolves env.now more.now }
    ensures fits { Evolves env.now more.now → tables_fit more.now ≡ Ok tt → types_fit more.now ≡ Ok tt → signatures_fit more.now ≡ Ok tt → reports_no_invariant more.now ≡ true → (g : HirFunction) → function_fits g env.now ≡ true → function_fits g more.now ≡ true }
{
    let _env = env;
    let _more = more;
}
