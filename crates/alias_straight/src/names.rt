//! Values that are spelled by a name.
use crate::fault::TakeFault;
use crate::tokens::{FromTokens, take_text};
use alias_hir::hir::FunctionType;
use alias_hir::value::InstructionKind;
use alias_read::names::{function_type, instruction_kind};
use alias_read::terminal_kinds::{TerminalKind, terminal_kind};
use alias_read::value_kinds::{InstructionValueKind, instruction_value_kind};
use json::Reader;
use std::alloc::Global;

impl FromTokens for InstructionKind {
    fn from_tokens(
        _alloc: Global,
        reader: &mut Reader,
        _depth: usize,
    ) -> Result<InstructionKind, TakeFault> {
        let name = take_text(reader)?;
        match instruction_kind(name) {
            Some(kind) => Ok(kind),
            None => Err(TakeFault::Unusual),
        }
    }
}

impl FromTokens for InstructionValueKind {
    fn from_tokens(
        _alloc: Global,
        reader: &mut Reader,
        _depth: usize,
    ) -> Result<InstructionValueKind, TakeFault> {
        let name = take_text(reader)?;
        match instruction_value_kind(name) {
            Some(kind) => Ok(kind),
            None => Err(TakeFault::Unusual),
        }
    }
}

impl FromTokens for FunctionType {
    fn from_tokens(
        _alloc: Global,
        reader: &mut Reader,
        _depth: usize,
    ) -> Result<FunctionType, TakeFault> {
        let name = take_text(reader)?;
        match function_type(name) {
            Some(kind) => Ok(kind),
            None => Err(TakeFault::Unusual),
        }
    }
}

impl FromTokens for TerminalKind {
    fn from_tokens(
        _alloc: Global,
        reader: &mut Reader,
        _depth: usize,
    ) -> Result<TerminalKind, TakeFault> {
        let name = take_text(reader)?;
        match terminal_kind(name) {
            Some(kind) => Ok(kind),
            None => Err(TakeFault::Unusual),
        }
    }
}
