//! Reads instructions, blocks and functions.
ghost use Rattle.std.specs.Prelude.{◌≡◌, Result};
ghost use Rattle.alias_json.specs.Tree.{view};
ghost use Rattle.alias_base.specs.Answer.{Gives};
ghost use Rattle.alias_json.specs.Pointer.{pointer};
ghost use Rattle.alias_json.specs.Fault.{is_memory};
ghost use Rattle.alias_read.specs.Functions.{instruction_at, instruction_id_at, operand_at, phi_at, block_at, function_keys, function_at};

use crate::entries::{FromEntry, new_block};
use crate::json::{FromJson, element, flag, list_of, optional, required};
use alias_base::{BlockId, BlockMap, EvaluationOrder, InstructionId, List};
use alias_hir::hir::{BasicBlock, Hir, HirFunction, Instruction, Phi};
use alias_hir::place::Place;
use alias_json::{Path, Tree, ValueFault, array_of, known_keys, object};
use std::alloc::Global;

impl FromJson for Instruction {
    ghost reads = { instruction_at };

    fn from_json(alloc: Global, path: &Path, value: &Tree) -> Result<Instruction, ValueFault> {
        object(alloc, path, value)?;
        let id = required(alloc, path, "id", value)?;
        let lvalue = required(alloc, path, "lvalue", value)?;
        let computed = required(alloc, path, "value", value)?;
        let span = optional(alloc, path, "span", value)?;
        known_keys(alloc, path, &["id", "lvalue", "value", "span"], value)?;
        Ok(Instruction {
            id: EvaluationOrder(id),
            lvalue,
            value: computed,
            span,
            effects: None,
        })
    }
}

impl FromJson for InstructionId {
    ghost reads = { instruction_id_at };

    fn from_json(alloc: Global, path: &Path, value: &Tree) -> Result<InstructionId, ValueFault> {
        Ok(InstructionId(u32::from_json(alloc, path, value)?))
    }
}

impl FromEntry for Place {
    ghost reads_entry = { operand_at };

    fn from_entry(
        alloc: Global,
        path: &Path,
        found: &BlockMap<Place>,
        value: &Tree,
    ) -> Result<(BlockId, Place), ValueFault> {
        array_of(alloc, path, 2, value)?;
        let block = element(alloc, path, 0, value)?;
        let here = Path::Index {
            above: path,
            index: 0,
        };
        new_block(alloc, &here, found, block)?;
        let place = element(alloc, path, 1, value)?;
        Ok((block, place))
    }
}

impl FromJson for Phi {
    ghost reads = { phi_at };

    fn from_json(alloc: Global, path: &Path, value: &Tree) -> Result<Phi, ValueFault> {
        object(alloc, path, value)?;
        let place = required(alloc, path, "place", value)?;
        let operands = required(alloc, path, "operands", value)?;
        known_keys(alloc, path, &["place", "operands"], value)?;
        Ok(Phi { place, operands })
    }
}

impl FromEntry for BasicBlock {
    ghost reads_entry = { block_at };

    fn from_entry(
        alloc: Global,
        path: &Path,
        found: &BlockMap<BasicBlock>,
        value: &Tree,
    ) -> Result<(BlockId, BasicBlock), ValueFault> {
        object(alloc, path, value)?;
        let id = required(alloc, path, "id", value)?;
        let here = Path::Key {
            above: path,
            key: "id",
        };
        new_block(alloc, &here, found, id)?;
        let phis = list_of(alloc, path, "phis", value)?;
        let instructions = list_of(alloc, path, "instructions", value)?;
        let terminal = required(alloc, path, "terminal", value)?;
        known_keys(
            alloc,
            path,
            &["id", "phis", "instructions", "terminal"],
            value,
        )?;
        let block = BasicBlock {
            phis,
            instructions,
            terminal,
        };
        Ok((id, block))
    }
}

fn function_keys(alloc: Global, path: &Path, value: &Tree) -> Result<(), ValueFault>
    ensures { Gives is_memory (function_keys (pointer path.now) (view value.now)) result }
{
    known_keys(
        alloc,
        path,
        &[
            "fn_type",
            "params",
            "context",
            "returns",
            "entry",
            "is_async",
            "span",
            "instructions",
            "blocks",
        ],
        value,
    )
}

impl FromJson for HirFunction {
    ghost reads = { function_at };

    fn from_json(alloc: Global, path: &Path, value: &Tree) -> Result<HirFunction, ValueFault> {
        object(alloc, path, value)?;
        let fn_type = required(alloc, path, "fn_type", value)?;
        let params = list_of(alloc, path, "params", value)?;
        let context = list_of(alloc, path, "context", value)?;
        let returns = required(alloc, path, "returns", value)?;
        let entry = required(alloc, path, "entry", value)?;
        let is_async = flag(alloc, path, "is_async", value)?;
        let span = optional(alloc, path, "span", value)?;
        let instructions = list_of(alloc, path, "instructions", value)?;
        let blocks = required(alloc, path, "blocks", value)?;
        function_keys(alloc, path, value)?;
        Ok(HirFunction {
            fn_type,
            params,
            context,
            context_values: List::new(alloc),
            returns,
            body: Hir { entry, blocks },
            instructions,
            is_async,
            span,
            aliasing_effects: None,
        })
    }
}
