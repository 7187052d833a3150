//! What holds of the unit that is made from a seed.

ghost use Rattle.std.specs.Prelude.{◌≡◌, ◌≤◌, Ok};
ghost use Rattle.alias_made.specs.Units.{made_unit};
ghost use Rattle.alias_rules.specs.Functions.{rules_hold};

/// The unit of a seed keeps all rules, so that `check_unit` accepts it. Does nothing.
pub fn made_unit_is_well_formed(seed: u64, size: u32)
    requires some { 1 ≤ size }
    requires limit { size ≤ 1000 }
    ensures { rules_hold (made_unit seed size) ≡ Ok tt }
{
    // A law does nothing with what it is given: its clause is what it is for.
    let _seed = seed;
    let _size = size;
}
