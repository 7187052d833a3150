//! Reads terminals.
ghost use Rattle.std.specs.Prelude.{◌≡◌, Result};
ghost use Rattle.alias_json.specs.Tree.{view};
ghost use Rattle.alias_base.specs.Answer.{Gives};
ghost use Rattle.alias_json.specs.Pointer.{pointer};
ghost use Rattle.alias_json.specs.Fault.{is_memory};
ghost use Rattle.alias_read.specs.Terminals.{order_at, jump_key, jump_with, jump_at, branch_with, branch_at, case_at, switch_at, exit_with, exit_at, unreachable_at, try_at, maybe_throw_at, terminal_of_kind, terminal_at};

use crate::json::{FromJson, list_of, optional, required};
use crate::terminal_kinds::{BranchKind, ExitKind, JumpKind, TerminalKind};
use alias_base::{BlockId, EvaluationOrder};
use alias_hir::place::Place;
use alias_hir::terminal::{SwitchCase, Terminal};
use alias_json::{Path, Tree, ValueFault, known_keys, object};
use std::alloc::Global;

impl FromJson for EvaluationOrder {
    ghost reads = { order_at };

    fn from_json(alloc: Global, path: &Path, value: &Tree) -> Result<EvaluationOrder, ValueFault> {
        Ok(EvaluationOrder(u32::from_json(alloc, path, value)?))
    }
}

impl FromJson for Terminal {
    ghost reads = { terminal_at };

    fn from_json(alloc: Global, path: &Path, value: &Tree) -> Result<Terminal, ValueFault> {
        object(alloc, path, value)?;
        let kind = required(alloc, path, "kind", value)?;
        let id = required(alloc, path, "id", value)?;
        terminal_of_kind(alloc, kind, id, path, value)
    }
}

fn terminal_of_kind(
    alloc: Global,
    kind: TerminalKind,
    id: EvaluationOrder,
    path: &Path,
    value: &Tree,
) -> Result<Terminal, ValueFault>
    ensures { Gives is_memory (terminal_of_kind kind id (pointer path.now) (view value.now)) result }
{
    match kind {
        TerminalKind::Jump(kind) => jump_of(alloc, kind, id, path, value),
        TerminalKind::Branch(kind) => branch_of(alloc, kind, id, path, value),
        TerminalKind::Exit(kind) => exit_of(alloc, kind, id, path, value),
        TerminalKind::Switch => switch(alloc, id, path, value),
        TerminalKind::Unreachable => unreachable(alloc, id, path, value),
        TerminalKind::Try => try_(alloc, id, path, value),
        TerminalKind::MaybeThrow => maybe_throw(alloc, id, path, value),
    }
}

/// The key of the block that control goes on to.
pub fn jump_key(kind: JumpKind) -> &'static str
    ensures { result.now ≡ jump_key kind }
{
    match kind {
        JumpKind::For | JumpKind::ForOf | JumpKind::ForIn => "init",
        JumpKind::DoWhile => "loop_block",
        JumpKind::While | JumpKind::Logical | JumpKind::Ternary | JumpKind::Optional => "test",
        _ => "block",
    }
}

/// The terminal of a kind that goes on to a block.
pub fn jump_with(kind: JumpKind, id: EvaluationOrder, block: BlockId) -> Terminal
    ensures { result ≡ jump_with kind id block }
{
    match kind {
        JumpKind::Goto => Terminal::Goto { id, block },
        JumpKind::For => Terminal::For { id, init: block },
        JumpKind::ForOf => Terminal::ForOf { id, init: block },
        JumpKind::ForIn => Terminal::ForIn { id, init: block },
        JumpKind::DoWhile => Terminal::DoWhile {
            id,
            loop_block: block,
        },
        JumpKind::While => Terminal::While { id, test: block },
        JumpKind::Logical => Terminal::Logical { id, test: block },
        JumpKind::Ternary => Terminal::Ternary { id, test: block },
        JumpKind::Optional => Terminal::Optional { id, test: block },
        JumpKind::Label => Terminal::Label { id, block },
        JumpKind::Sequence => Terminal::Sequence { id, block },
        JumpKind::Scope => Terminal::Scope { id, block },
        JumpKind::PrunedScope => Terminal::PrunedScope { id, block },
    }
}

fn jump_of(
    alloc: Global,
    kind: JumpKind,
    id: EvaluationOrder,
    path: &Path,
    value: &Tree,
) -> Result<Terminal, ValueFault>
    ensures { Gives is_memory (jump_at kind id (pointer path.now) (view value.now)) result }
{
    let key = jump_key(kind);
    let block = required(alloc, path, key, value)?;
    known_keys(alloc, path, &["kind", "id", key], value)?;
    Ok(jump_with(kind, id, block))
}

/// The terminal of a kind that goes on to one of two blocks.
pub fn branch_with(
    kind: BranchKind,
    id: EvaluationOrder,
    test: Place,
    consequent: BlockId,
    alternate: BlockId,
) -> Terminal
    ensures { result ≡ branch_with kind id test consequent alternate }
{
    match kind {
        BranchKind::If => Terminal::If {
            id,
            test,
            consequent,
            alternate,
        },
        BranchKind::Branch => Terminal::Branch {
            id,
            test,
            consequent,
            alternate,
        },
    }
}

fn branch_of(
    alloc: Global,
    kind: BranchKind,
    id: EvaluationOrder,
    path: &Path,
    value: &Tree,
) -> Result<Terminal, ValueFault>
    ensures { Gives is_memory (branch_at kind id (pointer path.now) (view value.now)) result }
{
    let test = required(alloc, path, "test", value)?;
    let consequent = required(alloc, path, "consequent", value)?;
    let alternate = required(alloc, path, "alternate", value)?;
    known_keys(
        alloc,
        path,
        &["kind", "id", "test", "consequent", "alternate"],
        value,
    )?;
    Ok(branch_with(kind, id, test, consequent, alternate))
}

impl FromJson for SwitchCase {
    ghost reads = { case_at };

    fn from_json(alloc: Global, path: &Path, value: &Tree) -> Result<SwitchCase, ValueFault> {
        object(alloc, path, value)?;
        let test = optional(alloc, path, "test", value)?;
        let block = required(alloc, path, "block", value)?;
        known_keys(alloc, path, &["test", "block"], value)?;
        Ok(SwitchCase { test, block })
    }
}

fn switch(
    alloc: Global,
    id: EvaluationOrder,
    path: &Path,
    value: &Tree,
) -> Result<Terminal, ValueFault>
    ensures { Gives is_memory (switch_at id (pointer path.now) (view value.now)) result }
{
    let test = required(alloc, path, "test", value)?;
    let cases = list_of(alloc, path, "cases", value)?;
    known_keys(alloc, path, &["kind", "id", "test", "cases"], value)?;
    Ok(Terminal::Switch { id, test, cases })
}

/// The terminal of a kind that leaves the function.
pub fn exit_with(kind: ExitKind, id: EvaluationOrder, value: Place) -> Terminal
    ensures { result ≡ exit_with kind id value }
{
    match kind {
        ExitKind::Return => Terminal::Return {
            id,
            value,
            effects: None,
        },
        ExitKind::Throw => Terminal::Throw { id, value },
    }
}

fn exit_of(
    alloc: Global,
    kind: ExitKind,
    id: EvaluationOrder,
    path: &Path,
    value: &Tree,
) -> Result<Terminal, ValueFault>
    ensures { Gives is_memory (exit_at kind id (pointer path.now) (view value.now)) result }
{
    let place = required(alloc, path, "value", value)?;
    known_keys(alloc, path, &["kind", "id", "value"], value)?;
    Ok(exit_with(kind, id, place))
}

fn unreachable(
    alloc: Global,
    id: EvaluationOrder,
    path: &Path,
    value: &Tree,
) -> Result<Terminal, ValueFault>
    ensures { Gives is_memory (unreachable_at id (pointer path.now) (view value.now)) result }
{
    known_keys(alloc, path, &["kind", "id"], value)?;
    Ok(Terminal::Unreachable { id })
}

fn try_(
    alloc: Global,
    id: EvaluationOrder,
    path: &Path,
    value: &Tree,
) -> Result<Terminal, ValueFault>
    ensures { Gives is_memory (try_at id (pointer path.now) (view value.now)) result }
{
    let block = required(alloc, path, "block", value)?;
    let handler = required(alloc, path, "handler", value)?;
    let handler_binding = optional(alloc, path, "handler_binding", value)?;
    known_keys(
        alloc,
        path,
        &["kind", "id", "block", "handler", "handler_binding"],
        value,
    )?;
    Ok(Terminal::Try {
        id,
        block,
        handler,
        handler_binding,
    })
}

fn maybe_throw(
    alloc: Global,
    id: EvaluationOrder,
    path: &Path,
    value: &Tree,
) -> Result<Terminal, ValueFault>
    ensures { Gives is_memory (maybe_throw_at id (pointer path.now) (view value.now)) result }
{
    let continuation = required(alloc, path, "continuation", value)?;
    let handler = optional(alloc, path, "handler", value)?;
    known_keys(
        alloc,
        path,
        &["kind", "id", "continuation", "handler"],
        value,
    )?;
    Ok(Terminal::MaybeThrow {
        id,
        continuation,
        handler,
        effects: None,
    })
}
