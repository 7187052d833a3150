//! Takes the ends of blocks.
ghost use Rattle.std.specs.Prelude.{◌<◌, IfOk, option_map};
ghost use Rattle.alias_straight.specs.Members.{from_key};
ghost use Rattle.alias_straight.specs.Kinds.{TakesTerminal};
ghost use Rattle.alias_read.specs.declared.terminal_kinds.TerminalKind.TheVariants.{Jump, Branch, Exit, Switch, Unreachable, Try, MaybeThrow};

use crate::fault::TakeFault;
use crate::members::{close_object, open_object, take_list, take_member, take_optional};
use crate::tokens::FromTokens;
use alias_base::EvaluationOrder;
use alias_hir::place::Place;
use alias_hir::terminal::{SwitchCase, Terminal};
use alias_read::terminal_kinds::{BranchKind, ExitKind, JumpKind, TerminalKind};
use alias_read::terminals::{branch_with, exit_with, jump_key, jump_with};
use json::Reader;
use std::alloc::Global;

impl FromTokens for EvaluationOrder {
    fn from_tokens(
        alloc: Global,
        reader: &mut Reader,
        depth: usize,
    ) -> Result<EvaluationOrder, TakeFault> {
        let number = u32::from_tokens(alloc, reader, depth)?;
        Ok(EvaluationOrder(number))
    }
}

impl FromTokens for Terminal {
    fn from_tokens(
        alloc: Global,
        reader: &mut Reader,
        depth: usize,
    ) -> Result<Terminal, TakeFault> {
        if depth == 0 {
            return Err(TakeFault::Unusual);
        }
        let inner = depth - 1;
        let mut next = open_object(reader)?;
        let kind = take_member(alloc, reader, inner, &mut next, "kind")?;
        let id = take_member(alloc, reader, inner, &mut next, "id")?;
        let terminal = take_of_kind(alloc, kind, id, reader, depth, next)?;
        Ok(terminal)
    }
}

fn take_of_kind<'a>(
    alloc: Global,
    kind: TerminalKind,
    id: EvaluationOrder,
    reader: &mut Reader<'a>,
    depth: usize,
    next: Option<&'a str>,
) -> Result<Terminal, TakeFault>
    requires { 0 < depth }
    ensures { IfOk result (λ t. TakesTerminal kind id depth (from_key (option_map (λ k. k.now) next.entry) reader.old) t reader.new) }
{
    match kind {
        TerminalKind::Jump(kind) => take_jump(alloc, kind, id, reader, depth, next),
        TerminalKind::Branch(kind) => take_branch(alloc, kind, id, reader, depth, next),
        TerminalKind::Exit(kind) => take_exit(alloc, kind, id, reader, depth, next),
        TerminalKind::Switch => take_switch(alloc, id, reader, depth, next),
        TerminalKind::Unreachable => take_unreachable(id, reader, depth, next),
        TerminalKind::Try => take_try(alloc, id, reader, depth, next),
        TerminalKind::MaybeThrow => take_maybe_throw(alloc, id, reader, depth, next),
    }
}

/// Takes the block that control goes on to.
fn take_jump<'a>(
    alloc: Global,
    kind: JumpKind,
    id: EvaluationOrder,
    reader: &mut Reader<'a>,
    depth: usize,
    mut next: Option<&'a str>,
) -> Result<Terminal, TakeFault>
    requires { 0 < depth }
    ensures { IfOk result (λ t. TakesTerminal (Jump kind) id depth (from_key (option_map (λ k. k.now) next.entry) reader.old) t reader.new) }
{
    let block = take_member(alloc, reader, depth - 1, &mut next, jump_key(kind))?;
    close_object(next)?;
    Ok(jump_with(kind, id, block))
}

/// Takes the place that is tested, and the two blocks.
fn take_branch<'a>(
    alloc: Global,
    kind: BranchKind,
    id: EvaluationOrder,
    reader: &mut Reader<'a>,
    depth: usize,
    mut next: Option<&'a str>,
) -> Result<Terminal, TakeFault>
    requires { 0 < depth }
    ensures { IfOk result (λ t. TakesTerminal (Branch kind) id depth (from_key (option_map (λ k. k.now) next.entry) reader.old) t reader.new) }
{
    let test = take_member(alloc, reader, depth - 1, &mut next, "test")?;
    let consequent = take_member(alloc, reader, depth - 1, &mut next, "consequent")?;
    let alternate = take_member(alloc, reader, depth - 1, &mut next, "alternate")?;
    close_object(next)?;
    Ok(branch_with(kind, id, test, consequent, alternate))
}

/// Takes the place that leaves the function.
fn take_exit<'a>(
    alloc: Global,
    kind: ExitKind,
    id: EvaluationOrder,
    reader: &mut Reader<'a>,
    depth: usize,
    mut next: Option<&'a str>,
) -> Result<Terminal, TakeFault>
    requires { 0 < depth }
    ensures { IfOk result (λ t. TakesTerminal (Exit kind) id depth (from_key (option_map (λ k. k.now) next.entry) reader.old) t reader.new) }
{
    let value = take_member(alloc, reader, depth - 1, &mut next, "value")?;
    close_object(next)?;
    Ok(exit_with(kind, id, value))
}

/// Takes the place that is tested, and the cases.
fn take_switch<'a>(
    alloc: Global,
    id: EvaluationOrder,
    reader: &mut Reader<'a>,
    depth: usize,
    mut next: Option<&'a str>,
) -> Result<Terminal, TakeFault>
    requires { 0 < depth }
    ensures { IfOk result (λ t. TakesTerminal Switch id depth (from_key (option_map (λ k. k.now) next.entry) reader.old) t reader.new) }
{
    let test = take_member(alloc, reader, depth - 1, &mut next, "test")?;
    let cases = take_list(alloc, reader, depth - 1, &mut next, "cases")?;
    close_object(next)?;
    Ok(Terminal::Switch { id, test, cases })
}

/// Takes the end of a terminal that has no further key.
fn take_unreachable(
    id: EvaluationOrder,
    reader: &mut Reader,
    depth: usize,
    next: Option<&str>,
) -> Result<Terminal, TakeFault>
    ensures { IfOk result (λ t. TakesTerminal Unreachable id depth (from_key (option_map (λ k. k.now) next.entry) reader.old) t reader.new) }
{
    close_object(next)?;
    Ok(Terminal::Unreachable { id })
}

/// Takes the blocks of a `try`, and what its handler binds.
fn take_try<'a>(
    alloc: Global,
    id: EvaluationOrder,
    reader: &mut Reader<'a>,
    depth: usize,
    mut next: Option<&'a str>,
) -> Result<Terminal, TakeFault>
    requires { 0 < depth }
    ensures { IfOk result (λ t. TakesTerminal Try id depth (from_key (option_map (λ k. k.now) next.entry) reader.old) t reader.new) }
{
    let block = take_member(alloc, reader, depth - 1, &mut next, "block")?;
    let handler = take_member(alloc, reader, depth - 1, &mut next, "handler")?;
    let handler_binding = take_optional(alloc, reader, depth - 1, &mut next, "handler_binding")?;
    close_object(next)?;
    Ok(Terminal::Try {
        id,
        block,
        handler,
        handler_binding,
    })
}

/// Takes where control goes on, and the handler.
fn take_maybe_throw<'a>(
    alloc: Global,
    id: EvaluationOrder,
    reader: &mut Reader<'a>,
    depth: usize,
    mut next: Option<&'a str>,
) -> Result<Terminal, TakeFault>
    requires { 0 < depth }
    ensures { IfOk result (λ t. TakesTerminal MaybeThrow id depth (from_key (option_map (λ k. k.now) next.entry) reader.old) t reader.new) }
{
    let continuation = take_member(alloc, reader, depth - 1, &mut next, "continuation")?;
    let handler = take_optional(alloc, reader, depth - 1, &mut next, "handler")?;
    close_object(next)?;
    Ok(Terminal::MaybeThrow {
        id,
        continuation,
        handler,
        effects: None,
    })
}

impl FromTokens for SwitchCase {
    fn from_tokens(
        alloc: Global,
        reader: &mut Reader,
        depth: usize,
    ) -> Result<SwitchCase, TakeFault> {
        if depth == 0 {
            return Err(TakeFault::Unusual);
        }
        let inner = depth - 1;
        let mut next = open_object(reader)?;
        let test: Option<Option<Place>> = take_optional(alloc, reader, inner, &mut next, "test")?;
        let block = take_member(alloc, reader, inner, &mut next, "block")?;
        close_object(next)?;
        Ok(SwitchCase {
            test: test.unwrap_or(None),
            block,
        })
    }
}
