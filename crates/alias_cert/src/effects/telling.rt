//! Whether recorded effects are those that a certificate tells.
ghost use Rattle.std.specs.Prelude.{◌≡◌, IfOk, option_map};
ghost use Rattle.alias_cert.specs.effects.Telling.{tells, texts_after, ends_after, claimed_after, all_claimed_after, is_all, is_claimed, is_summary_claimed};

use crate::effects::kept::is_same;
use alias_base::Text;
use alias_certificate::{CertBlock, CertEffect};
use alias_hir::effect::AliasingEffect;
use alias_step::block::{BlockEffects, InstructionEffects, TerminalEffects};
use alias_text::effects::print_effect;
use std::alloc::{AllocError, Global};

/// Whether the text tells the effect.
fn tells(alloc: Global, effect: &AliasingEffect, text: &Text) -> Result<bool, AllocError>
    ensures { IfOk result (λ same. same ≡ tells effect.now text.now) }
{
    let printed = print_effect(alloc, effect)?;
    Ok(is_same(printed.as_str().as_bytes(), text.as_str().as_bytes()))
}

/// What is left of the texts behind those that tell the effects; `None` where one doesn't.
fn texts_after<'a>(
    alloc: Global,
    effects: &[AliasingEffect],
    texts: &'a [Text],
) -> Result<Option<&'a [Text]>, AllocError>
    ensures { IfOk result (λ left. option_map (λ ts. ts.now) left ≡ texts_after effects.now texts.now) }
{
    let mut left = texts;
    for effect in effects {
        let [text, rest @ ..] = left else {
            return Ok(None);
        };
        if !tells(alloc, effect, text)? {
            return Ok(None);
        }
        left = rest;
    }
    Ok(Some(left))
}

/// The same of the effects of terminals.
fn ends_after<'a>(
    alloc: Global,
    recorded: &[TerminalEffects],
    texts: &'a [Text],
) -> Result<Option<&'a [Text]>, AllocError>
    ensures { IfOk result (λ left. option_map (λ ts. ts.now) left ≡ ends_after recorded.now texts.now) }
{
    let mut left = texts;
    for terminal in recorded {
        match texts_after(alloc, terminal.effects.as_slice(), left)? {
            Some(rest) => left = rest,
            None => return Ok(None),
        }
    }
    Ok(Some(left))
}

/// What is left of what is claimed behind the effects of the instruction; `None` where one isn't claimed.
fn claimed_after<'a>(
    alloc: Global,
    instruction: u32,
    effects: &[AliasingEffect],
    claimed: &'a [CertEffect],
) -> Result<Option<&'a [CertEffect]>, AllocError>
    ensures { IfOk result (λ left. option_map (λ cs. cs.now) left ≡ claimed_after instruction effects.now claimed.now) }
{
    let mut left = claimed;
    for effect in effects {
        let [first, rest @ ..] = left else {
            return Ok(None);
        };
        if first.instruction != instruction || !tells(alloc, effect, &first.text)? {
            return Ok(None);
        }
        left = rest;
    }
    Ok(Some(left))
}

/// The same of the effects of all instructions.
fn all_claimed_after<'a>(
    alloc: Global,
    recorded: &[InstructionEffects],
    claimed: &'a [CertEffect],
) -> Result<Option<&'a [CertEffect]>, AllocError>
    ensures { IfOk result (λ left. option_map (λ cs. cs.now) left ≡ all_claimed_after recorded.now claimed.now) }
{
    let mut left = claimed;
    for instruction in recorded {
        let effects = instruction.effects.as_slice();
        match claimed_after(alloc, instruction.instruction.0, effects, left)? {
            Some(rest) => left = rest,
            None => return Ok(None),
        }
    }
    Ok(Some(left))
}

/// Whether nothing is left.
fn is_all<T>(left: Option<&[T]>) -> bool
    ensures { result ≡ is_all (option_map (λ xs. xs.now) left.entry) }
{
    match left {
        Some([]) => true,
        _ => false,
    }
}

/// Whether what was recorded of a block is what is claimed of it, but for reasons of mutations and the numbers of reports. The
/// one error is out of memory.
pub fn is_claimed(
    alloc: Global,
    recorded: &BlockEffects,
    block: &CertBlock,
) -> Result<bool, AllocError>
    ensures { IfOk result (λ claimed. claimed ≡ is_claimed recorded.now block.now) }
{
    let instructions = recorded.instructions.as_slice();
    if !is_all(all_claimed_after(alloc, instructions, block.effects.as_slice())?) {
        return Ok(false);
    }
    let terminal = recorded.terminal.as_slice();
    Ok(is_all(ends_after(alloc, terminal, block.end.as_slice())?))
}

/// Whether a summary is what is claimed, but for the same. The one error is out of memory.
pub fn is_summary_claimed(
    alloc: Global,
    summary: &[AliasingEffect],
    texts: &[Text],
) -> Result<bool, AllocError>
    ensures { IfOk result (λ claimed. claimed ≡ is_summary_claimed summary.now texts.now) }
{
    Ok(is_all(texts_after(alloc, summary, texts)?))
}
