//! What tests make their units of: places, identifiers of which nothing is known, functions without blocks, and blocks.
#![tactic(auto)]

ghost use Rattle.std.specs.Prelude.{◌≡◌, ◌+◌, length, IfOk, OnOk};

use alias_base::{BlockId, BlockMap, EvaluationOrder, IdentifierId, InstructionId, List};
use alias_hir::env::Environment;
use alias_hir::hir::{BasicBlock, FunctionType, Hir, HirFunction, Instruction};
use alias_hir::lookup::fresh_identifier;
use alias_hir::place::{Effect, Place};
use alias_hir::terminal::Terminal;
use alias_hir::types::Ty;
use alias_hir::value::InstructionValue;
use std::alloc::{AllocError, Global};

/// A place of the identifier, of which nothing else is said.
pub fn place(number: u32) -> Place
    ensures { result.identifier.0 ≡ number }
{
    Place {
        identifier: IdentifierId(number),
        effect: Effect::Unknown,
        reactive: false,
        span: None,
    }
}

/// Appends so many identifiers, numbered from 0 on, of one type, of which nothing is known.
fn add_identifiers(env: &mut Environment, count: u32) -> Result<(), AllocError>
    ensures { OnOk result (length env.new.identifiers ≡ length env.old.identifiers + count) }
{
    env.types.push(Ty::Var)?;
    for number in 0..count {
        env.identifiers.push(fresh_identifier(None, number, 0))?;
    }
    Ok(())
}

/// An environment with so many identifiers of one type, of which nothing is known, and with nothing else.
pub fn environment(alloc: Global, count: u32) -> Result<Environment, AllocError>
    ensures { IfOk result (λ env. length env.identifiers ≡ count) }
{
    let mut env = Environment::new(alloc);
    add_identifiers(&mut env, count)?;
    Ok(env)
}

/// A function with no parameters and no blocks, that returns 0.
pub fn function(alloc: Global, fn_type: FunctionType) -> HirFunction {
    HirFunction {
        fn_type,
        params: List::new(alloc),
        context: List::new(alloc),
        context_values: List::new(alloc),
        returns: place(0),
        body: Hir {
            entry: BlockId(0),
            blocks: BlockMap::new(alloc),
        },
        instructions: List::new(alloc),
        is_async: false,
        span: None,
        aliasing_effects: None,
    }
}

/// An instruction at the order 1, with that result.
fn instruction(target: u32, value: InstructionValue) -> Instruction {
    Instruction {
        id: EvaluationOrder(1),
        lvalue: place(target),
        value,
        span: None,
        effects: None,
    }
}

/// Adds the instruction of the next number, with that result.
pub fn add_instruction(
    func: &mut HirFunction,
    target: u32,
    value: InstructionValue,
) -> Result<(), AllocError> {
    func.instructions.push(instruction(target, value))?;
    Ok(())
}

/// `return place` at that order.
pub fn returning(number: u32, order: u32) -> Terminal {
    Terminal::Return {
        id: EvaluationOrder(order),
        value: place(number),
        effects: None,
    }
}

/// A block of the instructions of these numbers.
fn block(
    alloc: Global,
    instructions: &[InstructionId],
    terminal: Terminal,
) -> Result<BasicBlock, AllocError> {
    Ok(BasicBlock {
        phis: List::new(alloc),
        instructions: List::from_slice(alloc, instructions)?,
        terminal,
    })
}

/// Adds a block of that number, with the instructions of these numbers.
pub fn add_block(
    alloc: Global,
    func: &mut HirFunction,
    number: u32,
    instructions: &[InstructionId],
    terminal: Terminal,
) -> Result<(), AllocError> {
    let block = block(alloc, instructions, terminal)?;
    let _ = func.body.blocks.insert(BlockId(number), block)?;
    Ok(())
}
