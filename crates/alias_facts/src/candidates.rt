//! The spreads of patterns that nothing has written so far.
ghost use Rattle.std.specs.Prelude.{◌≡◌, [], OnOk, IfOk};
ghost use Rattle.std.specs.List.{fold};
ghost use Rattle.alias_facts.specs.Candidates.{with_frozen, with_spread, is_frozen, spread_of, without_spread, after_use, after_param, frozen_params, first_candidates, after_property, with_self, selves};

use crate::numbers::{NumberMap, NumberSet};
use alias_base::IdentifierId;
use alias_hir::hir::{FunctionType, HirFunction, ParamPattern};
use alias_hir::place::Place;
use alias_hir::value::ObjectPropertyOrSpread;
use std::alloc::{AllocError, Global};

/// The values that are known to be frozen, and for each identifier that stands for a spread of a pattern that spread.
pub struct Candidates {
    pub frozen: NumberSet,
    pub spreads: NumberMap<u32>,
}

impl Drop for Candidates {
    fn drop(self) {
        let Candidates {
            frozen: _,
            spreads: _,
        } = self;
    }
}

/// Notes that the value is frozen.
pub fn note_frozen(candidates: &mut Candidates, identifier: IdentifierId) -> Result<(), AllocError>
    ensures { OnOk result (candidates.new ≡ with_frozen candidates.old identifier) }
{
    candidates.frozen.insert(identifier.0)
}

/// Notes that the identifier stands for the spread.
pub fn note_spread(
    candidates: &mut Candidates,
    identifier: IdentifierId,
    spread: u32,
) -> Result<(), AllocError>
    ensures { OnOk result (candidates.new ≡ with_spread candidates.old identifier spread) }
{
    candidates.spreads.set(identifier.0, spread)
}

/// Whether the value is known to be frozen.
pub fn is_frozen(candidates: &Candidates, identifier: IdentifierId) -> bool
    ensures { result ≡ is_frozen candidates.now identifier }
{
    candidates.frozen.contains(identifier.0)
}

/// The spread that the identifier stands for.
pub fn spread_of(candidates: &Candidates, identifier: IdentifierId) -> Option<u32>
    ensures { result ≡ spread_of candidates.now identifier }
{
    candidates.spreads.get(identifier.0)
}

/// Notes that the place is used in a way that may write it.
#[tactic(auto, unfolding(crate::specs::Candidates::after_use))]
pub fn note_use(candidates: &mut Candidates, place: &Place)
    ensures { candidates.new ≡ after_use candidates.old place.now }
{
    if let Some(spread) = spread_of(candidates, place.identifier) {
        candidates.spreads.remove(spread);
    }
}

/// Notes that the places are used in a way that may write them.
pub fn note_uses(candidates: &mut Candidates, places: &[Place])
    ensures { candidates.new ≡ fold after_use candidates.old places.now }
{
    for place in places {
        note_use(candidates, place);
    }
}

fn note_param(candidates: &mut Candidates, param: &ParamPattern) -> Result<(), AllocError>
    ensures { OnOk result (candidates.new ≡ after_param candidates.old param.now) }
{
    match param {
        ParamPattern::Place(place) => note_frozen(candidates, place.identifier),
        ParamPattern::Spread(_) => Ok(()),
    }
}

/// The parameters that are frozen: of a component the first alone.
fn frozen_params(fn_type: FunctionType, params: &[ParamPattern]) -> &[ParamPattern]
    ensures { result.now ≡ frozen_params fn_type params.now }
{
    match fn_type {
        FunctionType::Component => &params[..params.len().min(1)],
        FunctionType::Hook => params,
        FunctionType::Other => params,
    }
}

fn note_params(candidates: &mut Candidates, params: &[ParamPattern]) -> Result<(), AllocError>
    ensures { OnOk result (candidates.new ≡ fold after_param candidates.old params.now) }
{
    for param in params {
        note_param(candidates, param)?;
    }
    Ok(())
}

/// The candidates before the first instruction: the parameters are frozen, and nothing stands for a spread.
pub fn first_candidates(alloc: Global, func: &HirFunction) -> Result<Candidates, AllocError>
    ensures { IfOk result (λ c. c ≡ first_candidates func.now) }
{
    let mut candidates = Candidates {
        frozen: NumberSet::new(alloc),
        spreads: NumberMap::new(alloc),
    };
    note_params(
        &mut candidates,
        frozen_params(func.fn_type, func.params.as_slice()),
    )?;
    Ok(candidates)
}

fn note_property(
    candidates: &mut Candidates,
    property: &ObjectPropertyOrSpread,
) -> Result<(), AllocError>
    ensures { OnOk result (candidates.new ≡ after_property candidates.old property.now) }
{
    match property {
        ObjectPropertyOrSpread::Property(_) => Ok(()),
        ObjectPropertyOrSpread::Spread(s) => {
            note_spread(candidates, s.place.identifier, s.place.identifier.0)
        }
    }
}

/// Notes the spreads of an object pattern, each of which stands for itself.
pub fn note_properties(
    candidates: &mut Candidates,
    properties: &[ObjectPropertyOrSpread],
) -> Result<(), AllocError>
    ensures { OnOk result (candidates.new ≡ fold after_property candidates.old properties.now) }
{
    for property in properties {
        note_property(candidates, property)?;
    }
    Ok(())
}

/// The identifiers that stand for themselves.
pub fn selves(alloc: Global, candidates: &Candidates) -> Result<NumberSet, AllocError>
    ensures { IfOk result (λ s. s ≡ selves candidates.now) }
{
    let mut selves = NumberSet::new(alloc);
    for (identifier, spread) in candidates.spreads.iter() {
        if *identifier == *spread {
            selves.insert(*identifier)?;
        }
    }
    Ok(selves)
}
