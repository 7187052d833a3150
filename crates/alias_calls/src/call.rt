//! Where a call stands.

use alias_base::{IdentifierId, List, Text};
use alias_hir::place::{Place, PlaceOrSpreadOrHole, Span};
use alias_hir::signature::AliasingSignatureConfig;

/// Where a call stands: what is called, where its result goes, and its span.
#[derive(Clone, Copy, Debug, PartialEq, Eq)]
pub struct CallSite {
    pub receiver: Place,
    pub into: Place,
    pub span: Option<Span>,
}

/// A call by the aliasing part of a signature, with names that have places of their own in it: those of the part's
/// temporaries, and for a host those of context places. The place of a name stands where the name does; of two with one
/// name the first is meant.
#[derive(Clone, Copy)]
pub struct ConfigCall<'a> {
    pub config: &'a AliasingSignatureConfig,
    pub site: CallSite,
    pub args: &'a [PlaceOrSpreadOrHole],
    pub names: &'a [Text],
    pub places: &'a [Place],
}

/// What stands for the names of a function's summary in a call: `into` for what it returns, arguments for
/// parameters, and context places for themselves.
#[derive(Clone, Copy)]
pub struct SummaryCall<'a> {
    pub names: &'a SummaryNames,
    pub into: Place,
    pub args: &'a [PlaceOrSpreadOrHole],
    pub context: &'a [Place],
}

/// The names of a function's summary: its plain parameters, what stands for further arguments, and what it
/// returns.
#[derive(Drop)]
pub struct SummaryNames {
    pub params: List<IdentifierId>,
    pub rest: Option<IdentifierId>,
    pub returns: IdentifierId,
}
