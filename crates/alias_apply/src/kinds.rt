//! Questions on kinds of values.

ghost use Rattle.std.specs.Prelude.{◌≡◌};
ghost use Rattle.alias_apply.specs.Kinds.{is_constant, is_frozen, may_be_frozen, is_writable, is_read_only, captures, may_alias, value_with};

use alias_hir::effect::{ValueKind, ValueReason};
use alias_lattice::{AbstractValue, ReasonSet};

pub fn is_constant(kind: ValueKind) -> bool
    ensures { result ≡ is_constant kind }
{
    matches!(kind, ValueKind::Primitive | ValueKind::Global)
}

pub fn is_frozen(kind: ValueKind) -> bool
    ensures { result ≡ is_frozen kind }
{
    matches!(kind, ValueKind::Frozen)
}

pub fn may_be_frozen(kind: ValueKind) -> bool
    ensures { result ≡ may_be_frozen kind }
{
    matches!(kind, ValueKind::Frozen | ValueKind::MaybeFrozen)
}

pub fn is_writable(kind: ValueKind) -> bool
    ensures { result ≡ is_writable kind }
{
    matches!(kind, ValueKind::Mutable | ValueKind::Context)
}

pub fn is_read_only(kind: ValueKind) -> bool
    ensures { result ≡ is_read_only kind }
{
    matches!(
        kind,
        ValueKind::Primitive | ValueKind::Frozen | ValueKind::Global
    )
}

pub fn captures(from: ValueKind, into: ValueKind) -> bool
    ensures { result ≡ captures from into }
{
    match from {
        ValueKind::Mutable => matches!(into, ValueKind::Mutable | ValueKind::MaybeFrozen),
        _ => false,
    }
}

pub fn may_alias(from: ValueKind, into: ValueKind) -> bool
    ensures { result ≡ may_alias from into }
{
    match from {
        ValueKind::Context => matches!(
            into,
            ValueKind::Context | ValueKind::Mutable | ValueKind::MaybeFrozen
        ),
        ValueKind::Mutable => matches!(into, ValueKind::Context),
        _ => false,
    }
}

pub fn value_with(kind: ValueKind, reason: ValueReason) -> AbstractValue
    ensures { result ≡ value_with kind reason }
{
    AbstractValue {
        kind,
        reason: ReasonSet::single(reason),
    }
}
