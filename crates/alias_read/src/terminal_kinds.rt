//! The kinds of terminals, by what fields they have, and their names.
ghost use Rattle.std.specs.Prelude.{◌≡◌};
ghost use Rattle.alias_json.specs.Names.{named, named_at};
ghost use Rattle.alias_read.specs.TerminalKinds.{terminal_names};

use crate::json::FromJson;
use alias_json::{Path, Tree, ValueFault, by_name, named};
use std::alloc::Global;

/// The kinds whose only field is the block that control goes on to.
#[derive(Clone, Copy)]
pub enum JumpKind {
    Goto,
    For,
    ForOf,
    ForIn,
    DoWhile,
    While,
    Logical,
    Ternary,
    Optional,
    Label,
    Sequence,
    Scope,
    PrunedScope,
}

/// The kinds that go on to one of two blocks by the value of a place.
#[derive(Clone, Copy)]
pub enum BranchKind {
    If,
    Branch,
}

/// The kinds that leave the function with a value.
#[derive(Clone, Copy)]
pub enum ExitKind {
    Return,
    Throw,
}

/// The kinds of terminals.
#[derive(Clone, Copy)]
pub enum TerminalKind {
    Jump(JumpKind),
    Branch(BranchKind),
    Exit(ExitKind),
    Switch,
    Unreachable,
    Try,
    MaybeThrow,
}

static TERMINALS: [(&str, TerminalKind); 21] = [
    ("Goto", TerminalKind::Jump(JumpKind::Goto)),
    ("If", TerminalKind::Branch(BranchKind::If)),
    ("Branch", TerminalKind::Branch(BranchKind::Branch)),
    ("Switch", TerminalKind::Switch),
    ("For", TerminalKind::Jump(JumpKind::For)),
    ("ForOf", TerminalKind::Jump(JumpKind::ForOf)),
    ("ForIn", TerminalKind::Jump(JumpKind::ForIn)),
    ("DoWhile", TerminalKind::Jump(JumpKind::DoWhile)),
    ("While", TerminalKind::Jump(JumpKind::While)),
    ("Logical", TerminalKind::Jump(JumpKind::Logical)),
    ("Ternary", TerminalKind::Jump(JumpKind::Ternary)),
    ("Optional", TerminalKind::Jump(JumpKind::Optional)),
    ("Return", TerminalKind::Exit(ExitKind::Return)),
    ("Throw", TerminalKind::Exit(ExitKind::Throw)),
    ("Unreachable", TerminalKind::Unreachable),
    ("Try", TerminalKind::Try),
    ("MaybeThrow", TerminalKind::MaybeThrow),
    ("Label", TerminalKind::Jump(JumpKind::Label)),
    ("Sequence", TerminalKind::Jump(JumpKind::Sequence)),
    ("Scope", TerminalKind::Jump(JumpKind::Scope)),
    ("PrunedScope", TerminalKind::Jump(JumpKind::PrunedScope)),
];

impl FromJson for TerminalKind {
    ghost reads = { named_at terminal_names };

    #[tactic(auto, unfolding(crate::specs::TerminalKinds::terminal_names))]
    fn from_json(alloc: Global, path: &Path, value: &Tree) -> Result<TerminalKind, ValueFault> {
        by_name(alloc, &TERMINALS, path, value)
    }
}

/// The kind of terminal that a name stands for.
#[tactic(auto, unfolding(crate::specs::TerminalKinds::terminal_names))]
pub fn terminal_kind(name: &str) -> Option<TerminalKind>
    ensures { result ≡ named terminal_names name.now }
{
    named(&TERMINALS, name)
}
