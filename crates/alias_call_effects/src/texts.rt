//! Texts that reports are made of.

ghost use Rattle.std.specs.Prelude.{◌≡◌, IfOk};
ghost use Rattle.alias_hir.specs.Printed.{printed_type};
ghost use Rattle.alias_apply.specs.Reports.{write_reason};

use alias_apply::reports::write_reason;
use alias_base::Text;
use alias_hir::printed::push_type;
use alias_hir::types::Ty;
use alias_lattice::AbstractValue;
use std::alloc::{AllocError, Global};

/// Why a value isn't to be written: the text for the first of its reasons that has one.
pub fn get_write_error_reason(value: &AbstractValue) -> &'static str
    ensures { result.now ≡ write_reason value.now.reason }
{
    write_reason(&value.reason)
}

/// A type as it stands behind an identifier in a report: nothing where nothing is said of it.
pub fn format_type_for_print(alloc: Global, ty: &Ty) -> Result<Text, AllocError>
    ensures { IfOk result (λ t. t ≡ printed_type ty.now) }
{
    let mut text = Text::new(alloc);
    push_type(&mut text, ty)?;
    Ok(text)
}
