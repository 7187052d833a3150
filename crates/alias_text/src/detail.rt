//! How much of a result is printed.

/// How much of what was inferred is printed.
#[derive(Clone, Copy, Debug, PartialEq, Eq)]
pub enum Detail {
    /// Effects, summaries, mutable ranges and reports.
    Infer,
    /// Besides these all that the result can be checked by: visits, entry states, interned effects and temporaries.
    Certify,
    /// How many there are of each alone.
    Counts,
}
