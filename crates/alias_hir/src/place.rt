//! Places: identifiers as a function uses them.

use alias_base::IdentifierId;

/// A range of the source text, in the units of whoever made the unit.
#[derive(Clone, Copy, Debug, PartialEq, Eq)]
pub struct Span {
    pub start: u32,
    pub end: u32,
}

/// What an instruction does with an operand. `Unknown` until it is inferred.
#[derive(Clone, Copy, Debug, Default, PartialEq, Eq)]
pub enum Effect {
    #[default]
    Unknown,
    Freeze,
    Read,
    Capture,
    ConditionallyMutateIterator,
    ConditionallyMutate,
    Mutate,
    Store,
}

/// A use of an identifier. Of a place the rules read the identifier and the span.
#[derive(Clone, Copy, Debug, Default, PartialEq, Eq)]
pub struct Place {
    pub identifier: IdentifierId,
    pub effect: Effect,
    pub reactive: bool,
    pub span: Option<Span>,
}

/// A place whose items stand for it, as `...p`.
#[derive(Clone, Copy, Debug, PartialEq, Eq)]
pub struct SpreadPattern {
    pub place: Place,
}

/// An argument of a call.
#[derive(Clone, Copy, Debug, PartialEq, Eq)]
pub enum PlaceOrSpread {
    Place(Place),
    Spread(SpreadPattern),
}

/// An argument of an effect that stands for a call. A hole is an argument that is left out.
#[derive(Clone, Copy, Debug, PartialEq, Eq)]
pub enum PlaceOrSpreadOrHole {
    Place(Place),
    Spread(SpreadPattern),
    Hole,
}
