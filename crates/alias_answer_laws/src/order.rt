//! The order of the analysis, and how deep it goes.

ghost use Rattle.std.specs.Prelude.{◌≡◌, ℕ, ◌<◌, ◌≤◌, true, List, ◌++◌, ◌∷◌, [], length, map, Some, None, Ok};
ghost use Rattle.alias_hir.specs.declared.env.Environment.{Environment};
ghost use Rattle.alias_hir.specs.declared.env.Unit.{Unit as HirUnit};
ghost use Rattle.alias_hir.specs.declared.hir.HirFunction.{HirFunction};
ghost use Rattle.alias_rules.specs.function_rules.Rules.{is_among};
ghost use Rattle.alias_rules.specs.Fitting.{function_fits};
ghost use Rattle.alias_rules.specs.Functions.{rules_hold};
ghost use Rattle.alias_rules.specs.Nesting.{times, created_at};
ghost use Rattle.alias_validate.specs.Levels.{is_within};
ghost use Rattle.alias_nested.specs.Units.{UnitAnalysis, unit_analysed};
ghost use Rattle.alias_nested.specs.Order.{numbers, functions_of};
ghost use Rattle.alias_answer_laws.specs.order.Order.{nested_innermost_first};

/// What is inferred of a unit that is well formed has a solution for each function in the order of the unit, and then one for
/// the root. In that order each nested function of the unit is there once, nothing else is, and a function comes after those
/// that it creates. Does nothing.
pub fn order_laws()
    ensures solved { (u : HirUnit) (a : UnitAnalysis) → rules_hold u ≡ Ok tt → unit_analysed u ≡ Ok a → functions_of a.inferred.solved ≡ map Some (nested_innermost_first u) ++ None ∷ [] }
    ensures once { (u : HirUnit) (k : ℕ) → rules_hold u ≡ Ok tt → k < length u.env.functions → times (numbers (nested_innermost_first u)) k ≡ 1 }
    ensures only { (u : HirUnit) (k : ℕ) → rules_hold u ≡ Ok tt → length u.env.functions ≤ k → times (numbers (nested_innermost_first u)) k ≡ 0 }
    ensures innermost { (u : HirUnit) (xs ys : List ℕ) (k j : ℕ) → rules_hold u ≡ Ok tt → numbers (nested_innermost_first u) ≡ xs ++ k ∷ ys → is_among (created_at u.env k) j ≡ true → is_among xs j ≡ true }
{}

/// A function that is well formed with those below it, which is what `check_function` asks, is nested on at most 64 levels with them, so the first
/// validation, which walks 64 levels, walks all of them. Does nothing.
pub fn level_laws()
    ensures levels { (f : HirFunction) (env : Environment) → function_fits f env ≡ true → is_within 64 env f ≡ true }
{}
