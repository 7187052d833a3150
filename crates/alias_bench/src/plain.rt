//! The plain way: effects without entry states, and their lines.

use crate::reach::reached;
use alias_base::{BlockId, Text};
use alias_effects::infer_mutation_aliasing_effects;
use alias_hir::env::Unit;
use alias_hir::error::InferError;
use alias_hir::hir::HirFunction;
use alias_rules::check::Checked;
use alias_text::functions::{push_block_head, push_block_lines, push_function_head};
use std::alloc::{AllocError, Global};

/// The root of the unit, with its effects on it.
fn with_effects(alloc: Global, unit: Checked) -> Result<HirFunction, InferError> {
    let Unit {
        mut function,
        mut env,
    } = unit.into_unit();
    match infer_mutation_aliasing_effects(alloc, &mut function, &mut env, false) {
        Ok(()) => Ok(function),
        Err(e) => Err(e),
    }
}

/// Appends the line of the root, and then the lines of these of its blocks.
fn push_blocks(out: &mut Text, func: &HirFunction, blocks: &[BlockId]) -> Result<(), AllocError> {
    push_function_head(out, None)?;
    for block in blocks {
        push_block_head(out, *block)?;
        push_block_lines(out, func, *block)?;
    }
    Ok(())
}

/// The text of a function with its effects on it: its reached blocks in stored order.
fn function_text(alloc: Global, func: &HirFunction) -> Result<Text, AllocError> {
    let blocks = reached(alloc, &func.body)?;
    let mut out = Text::new(alloc);
    push_blocks(&mut out, func, blocks.as_slice())?;
    Ok(out)
}

/// The text of the effects that `infer_mutation_aliasing_effects` records of the unit's root. No clause says so.
pub fn effects_text(alloc: Global, unit: Checked) -> Result<Text, InferError> {
    let func = with_effects(alloc, unit)?;
    let text = function_text(alloc, &func);
    Ok(text?)
}
