//! What a block's terminal does after the instructions. The one error is out of memory.

ghost use Rattle.std.specs.Prelude.{◌≡◌, OnOk, option_map};
ghost use Rattle.alias_step.specs.block.Actions.{record_interned, catch_call, is_call, catch_instruction, catch_calls, handler_binding, catch_into, return_value, terminal_action};
ghost use Rattle.alias_step.specs.block.Contexts.{held};

use crate::block::context::BlockContext;
use alias_apply::StepProgress;
use alias_apply::kinds::is_writable;
use alias_apply::progress::record;
use alias_base::{BlockId, InstructionId};
use alias_facts::Handlers;
use alias_hir::effect::{AliasingEffect, ValueReason};
use alias_hir::hir::{BasicBlock, HirFunction, Instruction};
use alias_hir::place::Place;
use alias_hir::terminal::Terminal;
use alias_hir::value::InstructionValue;
use alias_tables::Tables;
use std::alloc::AllocError;

/// Interns the effect, and records it.
fn record_interned(
    step: &mut StepProgress,
    tables: &mut Tables,
    effect: AliasingEffect,
) -> Result<(), AllocError>
    ensures { OnOk result (record_interned effect step.old tables.old ≡ Ok (step.new, tables.new)) }
{
    let first = tables.intern(effect)?;
    record(step, first)
}

/// What a call gives may be what it throws: the binding takes in its sites, and where it may be written, it is an alias
/// of it.
fn catch_call(
    step: &mut StepProgress,
    tables: &mut Tables,
    binding: Place,
    lvalue: Place,
) -> Result<(), AllocError>
    ensures { OnOk result (catch_call binding lvalue step.old tables.old ≡ Ok (step.new, tables.new)) }
{
    step.state
        .append_alias(binding.identifier, lvalue.identifier)?;
    let value = step.state.kind_with_span(lvalue.identifier, None).value;
    if is_writable(value.kind) {
        return record_interned(
            step,
            tables,
            AliasingEffect::Alias {
                from: lvalue,
                into: binding,
            },
        );
    }
    Ok(())
}

/// Whether it is a call of a function or a method. A construction isn't one.
fn is_call(value: &InstructionValue) -> bool
    ensures { result ≡ is_call value.now }
{
    match value {
        InstructionValue::CallExpression { .. } | InstructionValue::MethodCall { .. } => true,
        InstructionValue::ArrayExpression { .. }
        | InstructionValue::ObjectExpression { .. }
        | InstructionValue::Await { .. }
        | InstructionValue::NewExpression { .. }
        | InstructionValue::PropertyDelete { .. }
        | InstructionValue::ComputedDelete { .. }
        | InstructionValue::PropertyLoad { .. }
        | InstructionValue::ComputedLoad { .. }
        | InstructionValue::PropertyStore { .. }
        | InstructionValue::ComputedStore { .. }
        | InstructionValue::FunctionExpression { .. }
        | InstructionValue::ObjectMethod { .. }
        | InstructionValue::GetIterator { .. }
        | InstructionValue::IteratorNext { .. }
        | InstructionValue::NextPropertyOf { .. }
        | InstructionValue::JsxExpression { .. }
        | InstructionValue::JsxFragment { .. }
        | InstructionValue::DeclareLocal { .. }
        | InstructionValue::Destructure { .. }
        | InstructionValue::LoadContext { .. }
        | InstructionValue::DeclareContext { .. }
        | InstructionValue::StoreContext { .. }
        | InstructionValue::LoadLocal { .. }
        | InstructionValue::StoreLocal { .. }
        | InstructionValue::PostfixUpdate { .. }
        | InstructionValue::PrefixUpdate { .. }
        | InstructionValue::StoreGlobal { .. }
        | InstructionValue::TypeCastExpression { .. }
        | InstructionValue::LoadGlobal
        | InstructionValue::StartMemoize { .. }
        | InstructionValue::FinishMemoize { .. }
        | InstructionValue::TaggedTemplateExpression { .. }
        | InstructionValue::BinaryExpression { .. }
        | InstructionValue::TemplateLiteral { .. }
        | InstructionValue::UnaryExpression { .. }
        | InstructionValue::Debugger
        | InstructionValue::JSXText
        | InstructionValue::MetaProperty
        | InstructionValue::Primitive
        | InstructionValue::RegExpLiteral => false,
    }
}

fn catch_instruction(
    step: &mut StepProgress,
    tables: &mut Tables,
    binding: Place,
    instruction: Option<&Instruction>,
) -> Result<(), AllocError>
    ensures { OnOk result (catch_instruction binding (option_map (λ i. i.now) instruction.entry) step.old tables.old ≡ Ok (step.new, tables.new)) }
{
    match instruction {
        Some(instruction) if is_call(&instruction.value) => catch_call(
            step,
            tables,
            binding,
            instruction.lvalue,
        ),
        _ => Ok(()),
    }
}

/// The binding catches what the calls of the block throw, in order.
fn catch_calls(
    func: &HirFunction,
    step: &mut StepProgress,
    tables: &mut Tables,
    binding: Place,
    ids: &[InstructionId],
) -> Result<(), AllocError>
    ensures { OnOk result (catch_calls func.now.instructions binding ids.now step.old tables.old ≡ Ok (step.new, tables.new)) }
{
    for id in ids {
        let instruction = func.instructions.get(id.0 as usize);
        catch_instruction(step, tables, binding, instruction)?;
    }
    Ok(())
}

fn handler_binding(handlers: &Handlers, handler: Option<BlockId>) -> Option<Place>
    ensures { result ≡ handler_binding handlers.now handler }
{
    match handler {
        Some(handler) => handlers.get(handler),
        None => None,
    }
}

/// A binding that isn't defined catches nothing.
fn catch_into(
    func: &HirFunction,
    step: &mut StepProgress,
    tables: &mut Tables,
    binding: Option<Place>,
    ids: &[InstructionId],
) -> Result<(), AllocError>
    ensures { OnOk result (catch_into func.now.instructions binding ids.now step.old tables.old ≡ Ok (step.new, tables.new)) }
{
    match binding {
        Some(binding) if step.state.is_defined(binding.identifier) => catch_calls(
            func, step, tables, binding, ids,
        ),
        _ => Ok(()),
    }
}

/// What is returned from a component or hook is frozen.
fn return_value(
    is_function_expression: bool,
    step: &mut StepProgress,
    tables: &mut Tables,
    value: Place,
) -> Result<(), AllocError>
    ensures { OnOk result (return_value is_function_expression value step.old tables.old ≡ Ok (step.new, tables.new)) }
{
    if is_function_expression {
        return Ok(());
    }
    record_interned(
        step,
        tables,
        AliasingEffect::Freeze {
            value,
            reason: ValueReason::JsxCaptured,
        },
    )
}

/// What the block's terminal does after the instructions.
pub(crate) fn terminal_action(
    context: &BlockContext<'_>,
    block: &BasicBlock,
    step: &mut StepProgress,
    tables: &mut Tables,
) -> Result<(), AllocError>
    ensures { OnOk result (terminal_action (held context.now) block.now.instructions block.now.terminal step.old tables.old ≡ Ok (step.new, tables.new)) }
{
    match &block.terminal {
        Terminal::MaybeThrow { handler, .. } => catch_into(
            context.func,
            step,
            tables,
            handler_binding(&context.facts.handlers, *handler),
            block.instructions.as_slice(),
        ),
        Terminal::Return { value, .. } => return_value(
            context.is_function_expression,
            step,
            tables,
            *value,
        ),
        // These do nothing. Each is named, so that a new terminal doesn't go without an action.
        Terminal::Goto { .. }
        | Terminal::If { .. }
        | Terminal::Branch { .. }
        | Terminal::Switch { .. }
        | Terminal::For { .. }
        | Terminal::ForOf { .. }
        | Terminal::ForIn { .. }
        | Terminal::DoWhile { .. }
        | Terminal::While { .. }
        | Terminal::Logical { .. }
        | Terminal::Ternary { .. }
        | Terminal::Optional { .. }
        | Terminal::Throw { .. }
        | Terminal::Unreachable { .. }
        | Terminal::Try { .. }
        | Terminal::Label { .. }
        | Terminal::Sequence { .. }
        | Terminal::Scope { .. }
        | Terminal::PrunedScope { .. } => Ok(()),
    }
}
