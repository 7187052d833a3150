//! The signature of a function by its summary, and the effects of a call by it.

ghost use Rattle.std.specs.Prelude.{◌≡◌, ◌<◌, List as Elements, length, slice_get, IsSome, IfSome, IfOk};
ghost use Rattle.alias_base.specs.Answer.{Gives};
ghost use Rattle.alias_hir.specs.declared.effect.AliasingEffect.{AliasingEffect as Effect};
ghost use Rattle.alias_hir.specs.declared.hir.HirFunction.{HirFunction as Function};
ghost use Rattle.alias_calls.specs.Summaries.{last_spread};
ghost use Rattle.alias_call_effects.specs.Answers.{Answers, is_memory};
ghost use Rattle.alias_call_effects.specs.Kept.{kept, HasGrown};
ghost use Rattle.alias_call_effects.specs.Summaries.{HasSummary, rest_or_temporary, signature_with, signature_of, names_of, signature_expansion};

use crate::error::SignatureError;
use crate::temporaries::temporary_at;
use alias_base::{FunctionId, IdentifierId, List, TryClone};
use alias_calls::summaries::{last_spread, plain_params};
use alias_calls::{
    SummaryCall, SummaryNames, compute_effects_for_aliasing_signature as list_of_names,
};
use alias_hir::effect::AliasingEffects;
use alias_hir::env::Environment;
use alias_hir::hir::HirFunction;
use alias_hir::interned::InternedReports;
use alias_hir::place::{Place, PlaceOrSpreadOrHole, Span};
use alias_tables::{Tables, TempKey, Temporaries};
use std::alloc::{AllocError, Global};

/// What calls of a function do: the names that a call gives places, and the effects over them.
#[derive(Drop)]
pub struct AliasingSignature {
    pub params: List<IdentifierId>,
    /// What further arguments stand for.
    pub rest: Option<IdentifierId>,
    pub returns: IdentifierId,
    pub effects: AliasingEffects,
}

/// The names of the function's summary and its effects, with a rest only where a parameter takes further arguments.
fn signature_with(
    alloc: Global,
    function: &HirFunction,
    effects: &AliasingEffects,
) -> Result<AliasingSignature, AllocError>
    ensures { IfOk result (λ s. s ≡ signature_with function.now effects.now (last_spread function.now.params None)) }
{
    Ok(AliasingSignature {
        params: plain_params(alloc, function.params.as_slice())?,
        rest: last_spread(function.params.as_slice()),
        returns: function.returns.identifier,
        effects: effects.try_clone(alloc)?,
    })
}

/// What further arguments stand for: the spread parameter, or else a temporary.
fn rest_or_temporary(
    alloc: Global,
    env: &mut Environment,
    temporaries: &mut Temporaries,
    rest: Option<IdentifierId>,
    f: FunctionId,
    span: Option<Span>,
) -> Result<IdentifierId, SignatureError>
    ensures answer { Answers (rest_or_temporary rest f span (kept env.old temporaries.old)) result (kept env.new temporaries.new) }
    ensures grown { HasGrown (kept env.old temporaries.old) (kept env.new temporaries.new) }
{
    match rest {
        Some(rest) => Ok(rest),
        None => {
            let place = temporary_at(alloc, env, temporaries, TempKey::Rest(f), span)?;
            Ok(place.identifier)
        }
    }
}

/// The names of a function's summary, and its effects. Where no parameter takes further arguments, a temporary does: one
/// that isn't there yet is added to `temporaries`, and the environment gets an identifier for it.
///
/// `TooMany` comes exactly where a new temporary is needed and all numbers of identifiers or of types are taken. On every
/// answer environment and temporaries have at most grown at their ends.
pub fn build_signature_from_function_expression(
    alloc: Global,
    env: &mut Environment,
    func_id: FunctionId,
    temporaries: &mut Temporaries,
) -> Result<AliasingSignature, SignatureError>
    requires there { func_id.0 < length env.old.functions }
    requires summary { IfSome (slice_get env.old.functions func_id.0) (λ f. IsSome f.aliasing_effects) }
    ensures answer { (function : Function) (effects : Elements Effect) → HasSummary env.old func_id function effects → Answers (signature_of func_id function effects (kept env.old temporaries.old)) result (kept env.new temporaries.new) }
    ensures grown { HasGrown (kept env.old temporaries.old) (kept env.new temporaries.new) }
{
    let function = env.functions.item(func_id.0 as usize);
    let effects = function.aliasing_effects.as_ref().unwrap();
    let span = function.span;
    let mut signature = signature_with(alloc, function, effects)?;
    let rest = signature.rest;
    let rest = rest_or_temporary(alloc, env, temporaries, rest, func_id, span)?;
    signature.rest = Some(rest);
    Ok(signature)
}

fn names_of(alloc: Global, signature: &AliasingSignature) -> Result<SummaryNames, AllocError>
    ensures { IfOk result (λ n. n ≡ names_of signature.now) }
{
    Ok(SummaryNames {
        params: List::from_slice(alloc, signature.params.as_slice())?,
        rest: signature.rest,
        returns: signature.returns,
    })
}

/// The list of a call by a signature that was built of a function's summary. `None` where the signature gives none: an
/// argument is missing, one needs a rest and there is none, or an effect creates a function. Context places stand for
/// themselves.
///
/// `SpreadArgument` comes, in the order of the effects, where a spread would be frozen that isn't an array, a set or a map.
pub fn compute_effects_for_aliasing_signature(
    alloc: Global,
    env: &Environment,
    signature: &AliasingSignature,
    lvalue: &Place,
    args: &[PlaceOrSpreadOrHole],
    context: &[Place],
    _span: Option<&Span>,
) -> Result<Option<AliasingEffects>, SignatureError>
    ensures { Gives is_memory (signature_expansion signature.now lvalue.now args.now context.now env.now) result }
{
    let tables = Tables::new(alloc, InternedReports::new(alloc));
    let names = names_of(alloc, signature)?;
    let call = SummaryCall {
        names: &names,
        into: *lvalue,
        args,
        context,
    };
    Ok(list_of_names(env, &tables, &call, signature.effects.as_slice())?)
}
