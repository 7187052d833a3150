//! How far the step of an instruction has come.

ghost use Rattle.std.specs.Prelude.{◌≡◌, OnOk};
ghost use Rattle.alias_lattice.specs.States.{lookup as lookup_of, given};
ghost use Rattle.alias_apply.specs.Progress.{with_state, record_of, looked_up, noted, made, Follows};

use crate::made::MadeIdentifiers;
use alias_base::IdentifierId;
use alias_hir::effect::{AliasingEffect, AliasingEffects};
use alias_hir::place::{Place, Span};
use alias_lattice::{AbstractValue, InferenceState, MissingLookup, Site};
use alias_tables::{EffectFault, Refusal, Tables};
use std::alloc::AllocError;

/// How far the steps of an instruction's effects have come. What they add to are tables beside it.
#[derive(Drop)]
pub struct StepProgress {
    pub state: InferenceState,
    /// The identifiers that the instruction has made.
    pub made: MadeIdentifiers,
    /// What was recorded of the instruction.
    pub recorded: AliasingEffects,
    /// The first lookup of the block at an identifier without a value.
    pub missing: Option<MissingLookup>,
}

/// Appends the effect to what was recorded.
pub fn record(step: &mut StepProgress, effect: AliasingEffect) -> Result<(), AllocError>
    ensures { OnOk result (step.new ≡ record_of effect step.old) }
{
    step.recorded.push(effect)?;
    Ok(())
}

/// Notes that the instruction makes the identifier, which it may do once.
pub fn make(
    step: &mut StepProgress,
    tables: &Tables,
    identifier: IdentifierId,
) -> Result<(), EffectFault>
    ensures { Follows (made identifier step.old tables.now) result step.new tables.now }
{
    // The clause speaks of the tables; the body doesn't need them.
    let _tables = tables;
    if step.made.contains(identifier) {
        return Err(EffectFault::Refused(Refusal::Reinitialized { identifier }));
    }
    step.made.push(identifier)?;
    Ok(())
}

/// The value of the place. A look at one without a value isn't noted.
pub fn value_at(step: &StepProgress, place: &Place) -> AbstractValue
    ensures { result ≡ lookup_of step.now.state place.now.identifier }
{
    step.state
        .kind_with_span(place.identifier, place.span)
        .value
}

/// Notes a look at an identifier without a value, if it is the first.
pub fn note_missing(step: &mut StepProgress, missing: Option<MissingLookup>)
    ensures { step.new ≡ noted missing step.old }
{
    if step.missing.is_none() {
        step.missing = missing;
    }
}

/// The value of the identifier. A look at one without a value is noted, if it is the first.
pub fn lookup(
    step: &mut StepProgress,
    identifier: IdentifierId,
    span: Option<Span>,
) -> AbstractValue
    ensures value { result ≡ lookup_of step.old.state identifier }
    ensures noted { step.new ≡ looked_up identifier span step.old }
{
    let lookup = step.state.kind_with_span(identifier, span);
    note_missing(step, lookup.missing);
    lookup.value
}

/// The place's one site is this one, with this value.
pub fn give(
    step: &mut StepProgress,
    place: &Place,
    site: Site,
    value: AbstractValue,
) -> Result<(), AllocError>
    ensures { OnOk result (step.new ≡ with_state (given place.now.identifier site value step.old.state) step.old) }
{
    step.state.give(place.identifier, site, value)
}
