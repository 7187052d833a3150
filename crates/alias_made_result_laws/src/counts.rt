//! What holds of the numbers that the inference of a made unit takes.

ghost use Rattle.std.specs.Prelude.{◌≡◌, ◌≢◌, ◌≤◌, Ok, Err};
ghost use Rattle.alias_hir.specs.declared.error.Counter.{Counter};
ghost use Rattle.alias_hir.specs.declared.error.InferError.TheVariants.{TooMany};
ghost use Rattle.alias_made.specs.Units.{made_unit};
ghost use Rattle.alias_nested.specs.Units.{UnitAnalysis, unit_analysed};

/// No counter comes to its last value for the unit of a seed, whose size is at most 1,000: so many identifiers,
/// reports and positions there are. Since nothing else refuses its inference, that has a result. Does nothing.
pub fn made_unit_is_inferred(seed: u64, size: u32)
    ensures counted { size ≤ 1000 → (which : Counter) → unit_analysed (made_unit seed size) ≢ Err (TooMany which) }
    ensures inferred { 1 ≤ size → size ≤ 1000 → (a : UnitAnalysis) × (unit_analysed (made_unit seed size) ≡ Ok a) }
{
    let _seed = seed;
    let _size = size;
}
