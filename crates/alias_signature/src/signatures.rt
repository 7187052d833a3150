//! The signature of an instruction, by its kind.
ghost use Rattle.std.specs.Prelude.{◌≡◌, ◌++◌, ◌⊎◌, OnOk, OnErr, IfOk};
ghost use Rattle.alias_base.specs.Answer.{Gives};
ghost use Rattle.alias_hir.specs.Errors.{is_hir_memory};
ghost use Rattle.alias_signature.specs.Globals.{instruction_report};
ghost use Rattle.alias_signature.specs.Known.{known, held};
ghost use Rattle.std.specs.List.{AllByRecursion};
ghost use Rattle.alias_signature.specs.SignatureLaws.{SpeaksOf};
ghost use Rattle.alias_signature.specs.Signatures.{signature_of_value, signature_of, error_of_report, with_report, env_after_signature, compute_signature_for_instruction};

use crate::arrays::push_array_expression;
use crate::calls::{Call, push_await, push_call};
use crate::contexts::{push_declare_context, push_load_context, push_store_context};
use crate::functions::push_function;
use crate::globals::{instruction_report, push_load_global, push_store_global};
use crate::iterators::{push_get_iterator, push_iterator_next};
use crate::jsx::{push_jsx, push_renders};
use crate::known::Known;
use crate::literals::push_primitive;
use crate::loads::{push_load_local, push_property_load};
use crate::memoization::push_memoize;
use crate::objects::push_object_expression;
use crate::patterns::push_destructure;
use crate::stores::{
    push_declare_local, push_delete, push_property_store, push_store_local, push_update,
    store_reason,
};
use alias_base::List;
use alias_facts::FunctionFacts;
use alias_hir::effect::AliasingEffects;
use alias_hir::env::Environment;
use alias_hir::error::HirError;
use alias_hir::hir::Instruction;
use alias_hir::place::{Place, Span};
use alias_hir::report::ReportId;
use alias_hir::value::InstructionValue;
use std::alloc::{AllocError, Global};

fn push_signature_of_value(
    alloc: Global,
    effects: &mut AliasingEffects,
    known: &Known<'_>,
    lvalue: &Place,
    span: Option<Span>,
    value: &InstructionValue,
) -> Result<(), AllocError>
    ensures { OnOk result (effects.new ≡ effects.old ++ signature_of_value (held known.now) lvalue.now span value.now) }
{
    match value {
        InstructionValue::ArrayExpression { elements } => {
            push_array_expression(effects, known.env, lvalue, elements.as_slice())
        }
        InstructionValue::ObjectExpression { properties } => {
            push_object_expression(effects, lvalue, properties.as_slice())
        }
        InstructionValue::Await { value } => push_await(effects, lvalue, value),
        InstructionValue::NewExpression { callee, args } => {
            let call = Call {
                receiver: callee,
                function: callee,
                mutates_function: false,
                args: args.as_slice(),
                span,
            };
            push_call(alloc, effects, known.env, lvalue, &call)
        }
        InstructionValue::CallExpression { callee, args } => {
            let call = Call {
                receiver: callee,
                function: callee,
                mutates_function: true,
                args: args.as_slice(),
                span,
            };
            push_call(alloc, effects, known.env, lvalue, &call)
        }
        InstructionValue::MethodCall {
            receiver,
            property,
            args,
        } => {
            let call = Call {
                receiver,
                function: property,
                mutates_function: false,
                args: args.as_slice(),
                span,
            };
            push_call(alloc, effects, known.env, lvalue, &call)
        }
        InstructionValue::PropertyDelete { object } => push_delete(effects, lvalue, object),
        InstructionValue::ComputedDelete { object, .. } => push_delete(effects, lvalue, object),
        InstructionValue::PropertyLoad { object } => {
            push_property_load(effects, known.env, lvalue, object)
        }
        InstructionValue::ComputedLoad { object, .. } => {
            push_property_load(effects, known.env, lvalue, object)
        }
        InstructionValue::PropertyStore {
            object,
            property,
            value,
        } => {
            let reason = store_reason(known.env, object, property);
            push_property_store(effects, lvalue, object, value, reason)
        }
        InstructionValue::ComputedStore { object, value, .. } => {
            push_property_store(effects, lvalue, object, value, None)
        }
        InstructionValue::FunctionExpression { lowered_func } => {
            push_function(alloc, effects, known.env, lvalue, lowered_func)
        }
        InstructionValue::ObjectMethod { lowered_func } => {
            push_function(alloc, effects, known.env, lvalue, lowered_func)
        }
        InstructionValue::GetIterator { collection } => {
            push_get_iterator(effects, known.env, lvalue, collection)
        }
        InstructionValue::IteratorNext {
            iterator,
            collection,
        } => push_iterator_next(effects, lvalue, iterator, collection),
        InstructionValue::JsxExpression {
            tag,
            props,
            children,
        } => {
            push_jsx(alloc, effects, known.env, lvalue, value)?;
            push_renders(
                effects,
                known.env,
                tag,
                props.as_slice(),
                children.as_slice(),
            )
        }
        InstructionValue::JsxFragment { .. } => push_jsx(alloc, effects, known.env, lvalue, value),
        InstructionValue::DeclareLocal { lvalue: variable } => {
            push_declare_local(effects, lvalue, variable)
        }
        InstructionValue::Destructure {
            lvalue: variables,
            value,
        } => push_destructure(
            effects,
            known.env,
            &known.facts.spreads,
            lvalue,
            &variables.pattern,
            value,
        ),
        InstructionValue::LoadContext { place } => push_load_context(effects, lvalue, place),
        InstructionValue::DeclareContext { lvalue: variable } => {
            push_declare_context(effects, known.env, &known.facts.hoisted, lvalue, variable)
        }
        InstructionValue::StoreContext {
            lvalue: variable,
            value,
        } => push_store_context(
            effects,
            known.env,
            &known.facts.hoisted,
            lvalue,
            variable,
            value,
        ),
        InstructionValue::LoadLocal { place } => push_load_local(effects, lvalue, place),
        InstructionValue::StoreLocal {
            lvalue: variable,
            value,
        } => push_store_local(effects, lvalue, variable, value),
        InstructionValue::PostfixUpdate {
            lvalue: variable,
            ..
        } => push_update(effects, lvalue, variable),
        InstructionValue::PrefixUpdate {
            lvalue: variable,
            ..
        } => push_update(effects, lvalue, variable),
        InstructionValue::StoreGlobal { value, .. } => {
            push_store_global(effects, known.error, lvalue, value)
        }
        InstructionValue::TypeCastExpression { value } => push_load_local(effects, lvalue, value),
        InstructionValue::LoadGlobal => push_load_global(effects, lvalue),
        InstructionValue::StartMemoize { .. } => {
            push_memoize(alloc, effects, known.env, lvalue, value)
        }
        InstructionValue::FinishMemoize { .. } => {
            push_memoize(alloc, effects, known.env, lvalue, value)
        }
        InstructionValue::NextPropertyOf { .. } => push_primitive(effects, lvalue),
        InstructionValue::TaggedTemplateExpression { .. } => push_primitive(effects, lvalue),
        InstructionValue::BinaryExpression { .. } => push_primitive(effects, lvalue),
        InstructionValue::TemplateLiteral { .. } => push_primitive(effects, lvalue),
        InstructionValue::UnaryExpression { .. } => push_primitive(effects, lvalue),
        InstructionValue::Debugger => push_primitive(effects, lvalue),
        InstructionValue::JSXText => push_primitive(effects, lvalue),
        InstructionValue::MetaProperty => push_primitive(effects, lvalue),
        InstructionValue::Primitive => push_primitive(effects, lvalue),
        InstructionValue::RegExpLiteral => push_primitive(effects, lvalue),
    }
}

/// The signature of an instruction whose report is interned, if it has one: the effects that it has whatever the state
/// is, in order. They speak of the places of the instruction, and of the context of the function that it creates, alone.
/// The one error is out of memory.
#[tactic(auto, using(crate::specs::SignatureLaws::signature_speaks_of))]
pub fn signature_of(
    alloc: Global,
    known: &Known<'_>,
    instruction: &Instruction,
) -> Result<AliasingEffects, AllocError>
    ensures exact { IfOk result (λ effects. effects ≡ signature_of (held known.now) instruction.now) }
    ensures speaks { IfOk result (λ effects. AllByRecursion (SpeaksOf (held known.now) instruction.now) effects) }
{
    let mut effects = List::new(alloc);
    push_signature_of_value(
        alloc,
        &mut effects,
        known,
        &instruction.lvalue,
        instruction.span,
        &instruction.value,
    )?;
    Ok(effects)
}

/// Interns what is reported of the instruction, if something is. After an `Err` nothing has changed.
fn intern_reported(
    alloc: Global,
    env: &mut Environment,
    instruction: &Instruction,
) -> Result<Option<ReportId>, HirError>
    ensures error { Gives is_hir_memory (error_of_report env.old.interned (instruction_report instruction.now.value instruction.now.span)) result }
    ensures ok { OnOk result (env.new ≡ env_after_signature env.old instruction.now) }
    ensures err { OnErr result (env.new ≡ env.old) }
{
    match instruction_report(alloc, &instruction.value, instruction.span)? {
        Some((identifier, report)) => {
            let error = env.intern_aliasing_report(identifier, report)?;
            Ok(Some(error))
        }
        None => Ok(None),
    }
}

fn signature_with(
    alloc: Global,
    env: &Environment,
    facts: &FunctionFacts,
    error: Option<ReportId>,
    instruction: &Instruction,
) -> Result<AliasingEffects, AllocError>
    ensures { IfOk result (λ effects. effects ≡ signature_of (known env.now facts.now error) instruction.now) }
{
    let known = Known { env, facts, error };
    signature_of(alloc, &known, instruction)
}

/// The signature of an instruction: the effects that it has whatever the state is, in order. docs/MODEL.md has a row for
/// each kind. A write of a global variable is reported: its report is interned first, and is one of the effects'.
/// `TooMany` comes exactly where no number is left for that report. After an `Err` the environment is as it was, or has
/// that report more: memory was wanting after it was interned.
pub fn compute_signature_for_instruction(
    alloc: Global,
    env: &mut Environment,
    instruction: &Instruction,
    facts: &FunctionFacts,
) -> Result<AliasingEffects, HirError>
    ensures effects { Gives is_hir_memory (compute_signature_for_instruction env.old facts.now instruction.now) result }
    ensures ok { OnOk result (env.new ≡ env_after_signature env.old instruction.now) }
    ensures err { OnErr result ((env.new ≡ env.old) ⊎ (env.new ≡ env_after_signature env.old instruction.now)) }
{
    let error = intern_reported(alloc, env, instruction)?;
    let effects = signature_with(alloc, env, facts, error, instruction)?;
    Ok(effects)
}
