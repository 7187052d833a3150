//! Takes instructions, phis, blocks and functions.
use crate::entries::TakeEntry;
use crate::fault::TakeFault;
use crate::members::{close_object, open_object, take_list, take_member, take_optional};
use crate::tokens::FromTokens;
use alias_base::{BlockId, BlockMap, EvaluationOrder, InstructionId, List};
use alias_hir::hir::{BasicBlock, Hir, HirFunction, Instruction, Phi};
use json::Reader;
use std::alloc::Global;

impl FromTokens for Instruction {
    fn from_tokens(
        alloc: Global,
        reader: &mut Reader,
        depth: usize,
    ) -> Result<Instruction, TakeFault> {
        if depth == 0 {
            return Err(TakeFault::Unusual);
        }
        let inner = depth - 1;
        let mut next = open_object(reader)?;
        let id = take_member(alloc, reader, inner, &mut next, "id")?;
        let lvalue = take_member(alloc, reader, inner, &mut next, "lvalue")?;
        let value = take_member(alloc, reader, inner, &mut next, "value")?;
        let span = take_optional(alloc, reader, inner, &mut next, "span")?;
        close_object(next)?;
        Ok(Instruction {
            id: EvaluationOrder(id),
            lvalue,
            value,
            span,
            effects: None,
        })
    }
}

impl FromTokens for InstructionId {
    fn from_tokens(
        alloc: Global,
        reader: &mut Reader,
        depth: usize,
    ) -> Result<InstructionId, TakeFault> {
        let number = u32::from_tokens(alloc, reader, depth)?;
        Ok(InstructionId(number))
    }
}

impl FromTokens for Phi {
    fn from_tokens(alloc: Global, reader: &mut Reader, depth: usize) -> Result<Phi, TakeFault> {
        if depth == 0 {
            return Err(TakeFault::Unusual);
        }
        let inner = depth - 1;
        let mut next = open_object(reader)?;
        let place = take_member(alloc, reader, inner, &mut next, "place")?;
        let operands = take_member(alloc, reader, inner, &mut next, "operands")?;
        close_object(next)?;
        Ok(Phi { place, operands })
    }
}

impl TakeEntry for BasicBlock {
    fn take_entry(
        alloc: Global,
        reader: &mut Reader,
        found: &BlockMap<BasicBlock>,
        depth: usize,
    ) -> Result<(BlockId, BasicBlock), TakeFault> {
        if depth == 0 {
            return Err(TakeFault::Unusual);
        }
        let inner = depth - 1;
        let mut next = open_object(reader)?;
        let id = take_member(alloc, reader, inner, &mut next, "id")?;
        if found.get(id).is_some() {
            return Err(TakeFault::Unusual);
        }
        let phis = take_list(alloc, reader, inner, &mut next, "phis")?;
        let instructions = take_list(alloc, reader, inner, &mut next, "instructions")?;
        let terminal = take_member(alloc, reader, inner, &mut next, "terminal")?;
        close_object(next)?;
        let block = BasicBlock {
            phis,
            instructions,
            terminal,
        };
        Ok((id, block))
    }
}

impl FromTokens for HirFunction {
    fn from_tokens(
        alloc: Global,
        reader: &mut Reader,
        depth: usize,
    ) -> Result<HirFunction, TakeFault> {
        if depth == 0 {
            return Err(TakeFault::Unusual);
        }
        let inner = depth - 1;
        let mut next = open_object(reader)?;
        let fn_type = take_member(alloc, reader, inner, &mut next, "fn_type")?;
        let params = take_list(alloc, reader, inner, &mut next, "params")?;
        let context = take_list(alloc, reader, inner, &mut next, "context")?;
        let returns = take_member(alloc, reader, inner, &mut next, "returns")?;
        let entry = take_member(alloc, reader, inner, &mut next, "entry")?;
        let is_async = take_optional(alloc, reader, inner, &mut next, "is_async")?;
        let span = take_optional(alloc, reader, inner, &mut next, "span")?;
        let instructions = take_list(alloc, reader, inner, &mut next, "instructions")?;
        let blocks = take_member(alloc, reader, inner, &mut next, "blocks")?;
        close_object(next)?;
        Ok(HirFunction {
            fn_type,
            params,
            context,
            context_values: List::new(alloc),
            returns,
            body: Hir { entry, blocks },
            instructions,
            is_async: is_async.unwrap_or(false),
            span,
            aliasing_effects: None,
        })
    }
}
