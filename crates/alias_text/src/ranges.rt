//! Mutable ranges, as lines.
ghost use Rattle.std.specs.Prelude.{◌≡◌, ◌++◌, OnOk};
ghost use Rattle.alias_text.specs.Ranges.{has_range, range_line, range_text, ranges_text};

use crate::effects::push_spaced;
use alias_base::Text;
use alias_hir::env::{Identifier, MutableRange};
use std::alloc::AllocError;

/// Appends the line of the range of the identifier with this number.
fn push_range_line(out: &mut Text, number: usize, range: MutableRange) -> Result<(), AllocError>
    ensures { OnOk result (out.new ≡ out.old ++ range_line number range) }
{
    out.push_str("range")?;
    push_spaced(out, number as u64)?;
    push_spaced(out, u64::from(range.start.0))?;
    push_spaced(out, u64::from(range.end.0))?;
    out.push_str("\n")
}

/// Whether the range is another than 0..0.
pub(crate) fn has_range(range: MutableRange) -> bool
    ensures { result ≡ has_range range }
{
    !(range.start.0 == 0 && range.end.0 == 0)
}

/// Appends the line of the range of the identifier with this number: nothing where it is 0..0.
fn push_range(out: &mut Text, number: usize, range: MutableRange) -> Result<(), AllocError>
    ensures { OnOk result (out.new ≡ out.old ++ range_text number range) }
{
    if has_range(range) {
        push_range_line(out, number, range)
    } else {
        Ok(())
    }
}

/// Appends a line for the range of each of the identifiers in order, but for those of 0..0. An `Err` is out of
/// memory: `out` may then hold a part of it.
pub fn push_ranges(out: &mut Text, identifiers: &[Identifier]) -> Result<(), AllocError>
    ensures { OnOk result (out.new ≡ out.old ++ ranges_text identifiers.now) }
{
    for (index, identifier) in identifiers.iter().enumerate() {
        push_range(out, index, identifier.mutable_range)?;
    }
    Ok(())
}
