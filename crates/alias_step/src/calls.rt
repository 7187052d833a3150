//! The step of each effect, and the three ways of a call: by the summary of the function that is called, by the
//! signature of its type, or by default.

ghost use Rattle.std.specs.Prelude.{◌≡◌, option_map};
ghost use Rattle.alias_apply.specs.Apply.{intern_and_apply_plain};
ghost use Rattle.alias_apply.specs.Contexts.{held};
ghost use Rattle.alias_apply.specs.Progress.{Follows};
ghost use Rattle.alias_step.specs.Operands.{held_call};
ghost use Rattle.alias_step.specs.Calls.{with_missing, apply_by_summary, apply_inner_call_by, apply_inner_call, apply_inner_effect, apply_inner_effects, apply_by_legacy, apply_by_config, incompatible, apply_compatible, apply_by_signature, apply_call_by, apply_call, apply_effect, apply_effects};

use crate::call::Call;
use crate::defaults::apply_by_default;
use crate::expansions::{
    called_function, expansion_of_called, expansion_of_config, signature_of_type,
};
use alias_apply::reports::incompatible_report;
use alias_apply::{
    StepContext, StepProgress, intern_and_apply_all_plain, intern_and_apply_plain,
    intern_and_apply_simple,
};
use alias_base::{Text, TypeId};
use alias_calls::{CallSite, compute_effects_for_legacy_signature};
use alias_hir::effect::{AliasingEffect, AliasingEffects};
use alias_hir::signature::FunctionSignature;
use alias_lattice::MissingLookup;
use alias_tables::{EffectFault, Refusal, Tables};

/// The first missing lookup of a list is one of the step.
fn note_missing(step: &mut StepProgress, missing: Option<MissingLookup>)
    ensures { step.new ≡ with_missing missing step.old }
{
    if step.missing.is_none() {
        step.missing = missing;
    }
}

/// The function may be written, and then the list of its summary is stepped.
fn apply_by_summary(
    context: &StepContext<'_>,
    step: &mut StepProgress,
    tables: &mut Tables,
    call: &Call<'_>,
    list: AliasingEffects,
) -> Result<(), EffectFault>
    ensures { Follows (apply_by_summary (held context.now) (held_call call.now) list step.old tables.old) result step.new tables.new }
{
    intern_and_apply_simple(
        context,
        step,
        tables,
        AliasingEffect::MutateTransitiveConditionally {
            value: call.function,
        },
    )?;
    intern_and_apply_all_plain(context, step, tables, list)
}

fn apply_inner_call_by(
    context: &StepContext<'_>,
    step: &mut StepProgress,
    tables: &mut Tables,
    list: Option<AliasingEffects>,
    call: &Call<'_>,
) -> Result<(), EffectFault>
    ensures { Follows (apply_inner_call_by (held context.now) list (held_call call.now) step.old tables.old) result step.new tables.new }
{
    match list {
        Some(list) => apply_by_summary(context, step, tables, call, list),
        None => apply_by_default(context, step, tables, call),
    }
}

/// A call in the list of an aliasing part, which has no signature.
fn apply_inner_call(
    context: &StepContext<'_>,
    step: &mut StepProgress,
    tables: &mut Tables,
    call: &Call<'_>,
) -> Result<(), EffectFault>
    ensures { Follows (apply_inner_call (held context.now) (held_call call.now) step.old tables.old) result step.new tables.new }
{
    let called = called_function(&step.state, call.function);
    let list = expansion_of_called(context.env, tables, call, called)?;
    apply_inner_call_by(context, step, tables, list, call)
}

/// The step of an effect in the list of an aliasing part.
fn apply_inner_effect(
    context: &StepContext<'_>,
    step: &mut StepProgress,
    tables: &mut Tables,
    effect: AliasingEffect,
) -> Result<(), EffectFault>
    ensures { Follows (apply_inner_effect (held context.now) effect step.old tables.old) result step.new tables.new }
{
    match effect {
        AliasingEffect::Apply {
            receiver,
            function,
            mutates_function,
            args,
            into,
            span,
            ..
        } => apply_inner_call(
            context,
            step,
            tables,
            &Call {
                site: CallSite {
                    receiver,
                    into,
                    span,
                },
                function,
                mutates_function,
                args: args.as_slice(),
            },
        ),
        effect => intern_and_apply_plain(context, step, tables, effect),
    }
}

fn apply_inner_effects(
    context: &StepContext<'_>,
    step: &mut StepProgress,
    tables: &mut Tables,
    effects: AliasingEffects,
) -> Result<(), EffectFault>
    ensures { Follows (apply_inner_effects (held context.now) effects step.old tables.old) result step.new tables.new }
{
    for effect in effects.into_vec() {
        apply_inner_effect(context, step, tables, effect)?;
    }
    Ok(())
}

fn apply_by_legacy(
    context: &StepContext<'_>,
    step: &mut StepProgress,
    tables: &mut Tables,
    signature: &FunctionSignature,
    call: &Call<'_>,
) -> Result<(), EffectFault>
    ensures { Follows (apply_by_legacy (held context.now) signature.now (held_call call.now) step.old tables.old) result step.new tables.new }
{
    let legacy = compute_effects_for_legacy_signature(
        context.env,
        tables,
        &step.state,
        signature,
        call.site,
        call.args,
    )?;
    note_missing(step, legacy.missing);
    intern_and_apply_all_plain(context, step, tables, legacy.effects)
}

fn apply_by_config(
    context: &StepContext<'_>,
    step: &mut StepProgress,
    tables: &mut Tables,
    list: Option<AliasingEffects>,
    signature: &FunctionSignature,
    call: &Call<'_>,
) -> Result<(), EffectFault>
    ensures { Follows (apply_by_config (held context.now) list signature.now (held_call call.now) step.old tables.old) result step.new tables.new }
{
    match list {
        Some(list) => apply_inner_effects(context, step, tables, list),
        None => apply_by_legacy(context, step, tables, signature, call),
    }
}

/// Why calls of the signature can't be memoized, where that is asked.
fn incompatible<'a>(context: &StepContext<'_>, signature: &'a FunctionSignature) -> Option<&'a Text>
    ensures { option_map (λ t. t.now) result ≡ incompatible (held context.now) signature.now }
{
    if context.env.config.enable_validations {
        signature.known_incompatible.as_ref()
    } else {
        None
    }
}

/// By the aliasing part, and where that gives no list by the rest of the signature. A call that can't be memoized is
/// refused.
fn apply_compatible(
    context: &StepContext<'_>,
    step: &mut StepProgress,
    tables: &mut Tables,
    incompatible: Option<&Text>,
    signature: &FunctionSignature,
    call: &Call<'_>,
) -> Result<(), EffectFault>
    ensures { Follows (apply_compatible (held context.now) (option_map (λ t. t.now) incompatible.entry) signature.now (held_call call.now) step.old tables.old) result step.new tables.new }
{
    match incompatible {
        Some(text) => Err(EffectFault::Refused(Refusal::IncompatibleLibrary {
            report: incompatible_report(tables.alloc(), call.site.receiver.span, text)?,
        })),
        None => {
            let list = expansion_of_config(context.env, tables, call, signature.aliasing.as_ref())?;
            apply_by_config(context, step, tables, list, signature, call)
        }
    }
}

/// By the signature, or by default where there is none.
fn apply_by_signature(
    context: &StepContext<'_>,
    step: &mut StepProgress,
    tables: &mut Tables,
    signature: Option<&FunctionSignature>,
    call: &Call<'_>,
) -> Result<(), EffectFault>
    ensures { Follows (apply_by_signature (held context.now) (option_map (λ s. s.now) signature.entry) (held_call call.now) step.old tables.old) result step.new tables.new }
{
    match signature {
        Some(signature) => {
            let incompatible = incompatible(context, signature);
            apply_compatible(context, step, tables, incompatible, signature, call)
        }
        None => apply_by_default(context, step, tables, call),
    }
}

fn apply_call_by(
    context: &StepContext<'_>,
    step: &mut StepProgress,
    tables: &mut Tables,
    list: Option<AliasingEffects>,
    signature: Option<TypeId>,
    call: &Call<'_>,
) -> Result<(), EffectFault>
    ensures { Follows (apply_call_by (held context.now) list signature (held_call call.now) step.old tables.old) result step.new tables.new }
{
    match list {
        Some(list) => apply_by_summary(context, step, tables, call, list),
        None => {
            let signature = signature_of_type(context.env, signature);
            apply_by_signature(context, step, tables, signature, call)
        }
    }
}

/// A call of an instruction: by the summary of the one function that is called, by the signature of its type, or by
/// default.
fn apply_call(
    context: &StepContext<'_>,
    step: &mut StepProgress,
    tables: &mut Tables,
    signature: Option<TypeId>,
    call: &Call<'_>,
) -> Result<(), EffectFault>
    ensures { Follows (apply_call (held context.now) signature (held_call call.now) step.old tables.old) result step.new tables.new }
{
    let called = called_function(&step.state, call.function);
    let list = expansion_of_called(context.env, tables, call, called)?;
    apply_call_by(context, step, tables, list, signature, call)
}

/// The step of an effect of an instruction. Where it is refused, the progress and the tables may have come some way;
/// out of memory is the one other fault, and can come at any growth.
pub fn apply_effect(
    context: &StepContext<'_>,
    step: &mut StepProgress,
    tables: &mut Tables,
    effect: AliasingEffect,
) -> Result<(), EffectFault>
    ensures { Follows (apply_effect (held context.now) effect step.old tables.old) result step.new tables.new }
{
    match effect {
        AliasingEffect::Apply {
            receiver,
            function,
            mutates_function,
            args,
            into,
            signature,
            span,
        } => apply_call(
            context,
            step,
            tables,
            signature,
            &Call {
                site: CallSite {
                    receiver,
                    into,
                    span,
                },
                function,
                mutates_function,
                args: args.as_slice(),
            },
        ),
        effect => intern_and_apply_plain(context, step, tables, effect),
    }
}

/// The steps of the effects of a list, in order. No effect is copied.
pub fn apply_effects(
    context: &StepContext<'_>,
    step: &mut StepProgress,
    tables: &mut Tables,
    effects: AliasingEffects,
) -> Result<(), EffectFault>
    ensures { Follows (apply_effects (held context.now) effects step.old tables.old) result step.new tables.new }
{
    for effect in effects.into_vec() {
        apply_effect(context, step, tables, effect)?;
    }
    Ok(())
}
