//! The effects of a call by the aliasing part of its signature.

ghost use Rattle.std.specs.Prelude.{◌≡◌, List as Elements, option_map};
ghost use Rattle.alias_tables.specs.declared.temporaries.Temporary.{Temporary};
ghost use Rattle.alias_calls.specs.Calls.{held_config};
ghost use Rattle.alias_call_effects.specs.Answers.{Answers, site_of};
ghost use Rattle.alias_call_effects.specs.Configs.{effects_called, lacks_rest, config_called};
ghost use Rattle.alias_call_effects.specs.Kept.{kept, HasGrown};
ghost use Rattle.alias_call_effects.specs.Parts.{both_named, contexts_named, part_call};

use crate::error::SignatureError;
use crate::named::{NamedPlaces, push_contexts, push_temporaries};
use alias_calls::arguments::has_further;
use alias_calls::{CallSite, ConfigCall, config_effects};
use alias_hir::effect::AliasingEffects;
use alias_hir::env::Environment;
use alias_hir::interned::InternedReports;
use alias_hir::place::{Place, PlaceOrSpreadOrHole, Span};
use alias_hir::signature::AliasingSignatureConfig;
use alias_tables::{TableParts, Tables, Temporaries};
use std::alloc::Global;
use std::mem;

/// Where a call stands.
pub(crate) fn site_of(lvalue: &Place, receiver: &Place, span: Option<&Span>) -> CallSite
    ensures { result ≡ site_of lvalue.now receiver.now (option_map (λ s. s.now) span.entry) }
{
    CallSite {
        receiver: *receiver,
        into: *lvalue,
        span: match span {
            Some(span) => Some(*span),
            None => None,
        },
    }
}

/// The list that the effects of the part give over the environment, if they give one. Its reports are those of tables
/// meanwhile.
#[tactic(auto, using(crate::specs::GrowthLaws::grown_by_reports))]
fn effects_called(
    alloc: Global,
    env: &mut Environment,
    call: &ConfigCall<'_>,
) -> Result<Option<AliasingEffects>, SignatureError>
    ensures answer { Answers (effects_called (held_config call.now) env.old) result env.new }
    ensures grown { (ts : Elements Temporary) → HasGrown (kept env.old ts) (kept env.new ts) }
{
    let reports = mem::replace(&mut env.interned, InternedReports::new(alloc));
    let mut tables = Tables::new(alloc, reports);
    let answer = config_effects(env, &mut tables, call);
    let TableParts { reports, .. } = tables.into_parts();
    env.interned = reports;
    Ok(answer?)
}

/// The same where context places stand behind what is named already.
fn list_called(
    alloc: Global,
    env: &mut Environment,
    config: &AliasingSignatureConfig,
    site: CallSite,
    args: &[PlaceOrSpreadOrHole],
    context: &[Place],
    before: NamedPlaces,
) -> Result<Option<AliasingEffects>, SignatureError>
    ensures answer { Answers (effects_called (part_call config.now site args.now (both_named before (contexts_named env.old context.now))) env.old) result env.new }
    ensures grown { (ts : Elements Temporary) → HasGrown (kept env.old ts) (kept env.new ts) }
{
    let mut named = before;
    push_contexts(alloc, env, context, &mut named)?;
    let call = ConfigCall {
        config,
        site,
        args,
        names: named.names.as_slice(),
        places: named.places.as_slice(),
    };
    effects_called(alloc, env, &call)
}

/// Whether an argument needs a rest, and there is none.
fn lacks_rest(config: &AliasingSignatureConfig, args: &[PlaceOrSpreadOrHole]) -> bool
    ensures { result ≡ lacks_rest config.now args.now }
{
    has_further(config.params.as_slice(), args) && !config.rest.is_some()
}

/// The list of a call by the aliasing part of its signature. `None` where the part gives none: an argument needs a rest and
/// there is none, or a call that the part makes has no receiver, function or target.
///
/// A name of the part stands for its temporary; else, with an `@` before it, for the last of the context places whose
/// identifier has the name; else for what the arguments say. A temporary that isn't there yet is added to `temporaries`, and
/// the environment gets an identifier for it.
///
/// The errors, in the order of the effects: `SpreadArgument`, where a spread would be frozen that isn't an array, a set or
/// a map; `TooMany`, where no number is left for an identifier or a report. On every answer environment and temporaries
/// have at most grown at their ends.
pub fn compute_effects_for_aliasing_signature_config(
    alloc: Global,
    env: &mut Environment,
    config: &AliasingSignatureConfig,
    lvalue: &Place,
    receiver: &Place,
    args: &[PlaceOrSpreadOrHole],
    context: &[Place],
    span: Option<&Span>,
    temporaries: &mut Temporaries,
) -> Result<Option<AliasingEffects>, SignatureError>
    ensures answer { Answers (config_called config.now (site_of lvalue.now receiver.now (option_map (λ s. s.now) span.entry)) args.now context.now (kept env.old temporaries.old)) result (kept env.new temporaries.new) }
    ensures grown { HasGrown (kept env.old temporaries.old) (kept env.new temporaries.new) }
{
    if lacks_rest(config, args) {
        return Ok(None);
    }
    let site = site_of(lvalue, receiver, span);
    let mut named = NamedPlaces::new(alloc);
    let names = config.temporaries.as_slice();
    push_temporaries(alloc, env, temporaries, site, &mut named, names)?;
    list_called(alloc, env, config, site, args, context, named)
}
