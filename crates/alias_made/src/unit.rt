//! The unit that is made from a seed.

ghost use Rattle.std.specs.Prelude.{◌≡◌, ◌≤◌, None, IfOk};
ghost use Rattle.alias_made.specs.Units.{made_instructions, made_identifiers, made_environment, made_function, made_unit};
ghost use Rattle.alias_hir.specs.Tables.{fresh_identifier};

use crate::blocks::made_blocks;
use crate::draws::Draws;
use crate::instructions::{push_instructions, use_of};
use alias_base::{BlockId, List};
use alias_hir::env::{Config, Environment, Identifier, Unit};
use alias_hir::hir::{FunctionType, Hir, HirFunction, Instruction};
use alias_hir::lookup::fresh_identifier;
use alias_hir::types::Ty;
use std::alloc::{AllocError, Global};

fn made_instructions(alloc: Global, seed: u64, size: u32) -> Result<List<Instruction>, AllocError>
    requires { size ≤ 1000 }
    ensures { IfOk result (λ is. is ≡ made_instructions seed size) }
{
    let mut draws = Draws { state: seed };
    let mut instructions = List::new(alloc);
    for block in 0..size {
        let draw = draws.draw_block(block);
        push_instructions(alloc, &mut instructions, block, draw)?;
    }
    Ok(instructions)
}

fn made_identifiers(alloc: Global, size: u32) -> Result<List<Identifier>, AllocError>
    requires { size ≤ 1000 }
    ensures { IfOk result (λ is. is ≡ made_identifiers size) }
{
    let mut identifiers = List::new(alloc);
    for number in 0..3 * size + 1 {
        identifiers.push(fresh_identifier(None, number, 0))?;
    }
    Ok(identifiers)
}

fn made_environment(alloc: Global, size: u32) -> Result<Environment, AllocError>
    requires { size ≤ 1000 }
    ensures { IfOk result (λ env. env ≡ made_environment size) }
{
    let mut env = Environment::new(alloc);
    env.identifiers = made_identifiers(alloc, size)?;
    env.types.push(Ty::Var)?;
    env.config.enable_validations = true;
    Ok(env)
}

fn made_function(alloc: Global, seed: u64, size: u32) -> Result<HirFunction, AllocError>
    requires some { 1 ≤ size }
    requires limit { size ≤ 1000 }
    ensures { IfOk result (λ f. f ≡ made_function seed size) }
{
    Ok(HirFunction {
        fn_type: FunctionType::Other,
        params: List::new(alloc),
        context: List::new(alloc),
        context_values: List::new(alloc),
        returns: use_of(0),
        body: Hir {
            entry: BlockId(0),
            blocks: made_blocks(alloc, size)?,
        },
        instructions: made_instructions(alloc, seed, size)?,
        is_async: false,
        span: None,
        aliasing_effects: None,
    })
}

/// The unit of a seed: `size` blocks, and one that returns. Each block makes an object, draws an object that is there
/// and what to make of it, and stores what is made in it. The same seed and size make the same unit.
pub fn made_unit(alloc: Global, seed: u64, size: u32) -> Result<Unit, AllocError>
    requires some { 1 ≤ size }
    requires limit { size ≤ 1000 }
    ensures { IfOk result (λ u. u ≡ made_unit seed size) }
{
    Ok(Unit {
        function: made_function(alloc, seed, size)?,
        env: made_environment(alloc, size)?,
    })
}
