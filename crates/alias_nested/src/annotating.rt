//! What is set of a nested function once its summary is known.
ghost use Rattle.std.specs.Prelude.{◌≡◌, map};
ghost use Rattle.std.specs.List.{list_any};
ghost use Rattle.alias_nested.specs.Annotating.{takes, is_capture, is_captured, context_annotated, summarized, reset};

use alias_base::{EvaluationOrder, IdentifierId, List};
use alias_hir::effect::{AliasingEffect, AliasingEffects};
use alias_hir::env::{Environment, Identifier, MutableRange};
use alias_hir::hir::HirFunction;
use alias_hir::place::{Effect, Place};

/// Whether the effect captures or mutates the identifier.
fn takes(effect: &AliasingEffect, identifier: IdentifierId) -> bool
    ensures { result ≡ takes identifier effect.now }
{
    match effect {
        AliasingEffect::Assign { from, .. }
        | AliasingEffect::Alias { from, .. }
        | AliasingEffect::Capture { from, .. }
        | AliasingEffect::CreateFrom { from, .. }
        | AliasingEffect::MaybeAlias { from, .. } => from.identifier.0 == identifier.0,
        AliasingEffect::Mutate { value, .. }
        | AliasingEffect::MutateConditionally { value }
        | AliasingEffect::MutateTransitive { value }
        | AliasingEffect::MutateTransitiveConditionally { value } => {
            value.identifier.0 == identifier.0
        }
        AliasingEffect::Apply { .. }
        | AliasingEffect::ImmutableCapture { .. }
        | AliasingEffect::Create { .. }
        | AliasingEffect::Freeze { .. }
        | AliasingEffect::Impure { .. }
        | AliasingEffect::MutateFrozen { .. }
        | AliasingEffect::MutateGlobal { .. }
        | AliasingEffect::Render { .. }
        | AliasingEffect::CreateFunction { .. } => false,
    }
}

fn is_capture(effect: Effect) -> bool
    ensures { result ≡ is_capture effect }
{
    match effect {
        Effect::Capture => true,
        Effect::Unknown
        | Effect::Freeze
        | Effect::Read
        | Effect::ConditionallyMutateIterator
        | Effect::ConditionallyMutate
        | Effect::Mutate
        | Effect::Store => false,
    }
}

/// Whether some effect of the summary captures or mutates the identifier.
fn is_taken(summary: &[AliasingEffect], identifier: IdentifierId) -> bool
    ensures { result ≡ list_any (takes identifier) summary.now }
{
    summary.iter().any(|effect| takes(effect, identifier))
}

fn is_captured(summary: &[AliasingEffect], place: Place) -> bool
    ensures { result ≡ is_captured summary.now place }
{
    is_taken(summary, place.identifier) || is_capture(place.effect)
}

fn context_annotated(summary: &[AliasingEffect], place: Place) -> Place
    ensures { result ≡ context_annotated summary.now place }
{
    Place {
        effect: if is_captured(summary, place) {
            Effect::Capture
        } else {
            Effect::Read
        },
        ..place
    }
}

#[tactic(auto, using(std::proofs::lemmas::List::Edits::map_over_more))]
fn annotate_context(summary: &[AliasingEffect], context: &mut [Place])
    ensures { context.new ≡ map (context_annotated summary.now) context.old }
{
    for place in context.iter_mut() {
        *place = context_annotated(summary, *place);
    }
}

/// Stores the summary, and sets the effects of context places: `Capture` where the summary captures or mutates the
/// identifier, or where it was that already, and else `Read`.
pub(crate) fn summarize(func: &mut HirFunction, summary: AliasingEffects)
    ensures { func.new ≡ summarized summary func.old }
{
    annotate_context(summary.as_slice(), func.context.as_mut_slice());
    func.aliasing_effects = Some(summary);
}

/// Takes ranges and scopes of the places' identifiers away.
pub(crate) fn reset_context(context: &[Place], identifiers: &mut List<Identifier>)
    ensures { identifiers.new ≡ reset context.now identifiers.old }
{
    for place in context {
        if let Some(identifier) = identifiers.get_mut(place.identifier.0 as usize) {
            identifier.mutable_range = MutableRange {
                start: EvaluationOrder::UNSET,
                end: EvaluationOrder::UNSET,
            };
            identifier.scope = None;
        }
    }
}
