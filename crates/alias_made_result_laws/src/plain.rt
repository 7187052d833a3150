//! What holds of the inference of a unit that is made from a seed.

ghost use Rattle.std.specs.Prelude.{◌≡◌, ◌≤◌};
ghost use Rattle.alias_made.specs.Units.{made_unit};
ghost use Rattle.alias_plainness.specs.Plainness.{IsPlainUnit};
ghost use Rattle.alias_unit_completeness.specs.Refusals.{IsForwardUnit};

/// The unit of a seed is plain, and all edges of its function go to later blocks, so that its inference is refused
/// for want of numbers alone. Does nothing.
pub fn made_unit_is_plain(seed: u64, size: u32)
    ensures plain { IsPlainUnit (made_unit seed size) }
    ensures forward { IsForwardUnit (made_unit seed size) }
{
    // A law does nothing with what it is given: its clause is what it is for.
    let _seed = seed;
    let _size = size;
}
