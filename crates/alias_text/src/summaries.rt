//! The summaries of functions, as lines.
ghost use Rattle.std.specs.Prelude.{◌≡◌, ◌++◌, OnOk};
ghost use Rattle.alias_text.specs.Summaries.{summary_of, summary_line, summary_lines};

use crate::effects::push_effect;
use alias_base::{FunctionId, Text};
use alias_hir::effect::AliasingEffect;
use alias_hir::env::Unit;
use std::alloc::AllocError;

/// The summary of the function of the unit with this number: of the root, which is the function at `None`, the given one.
fn summary_of<'a>(
    unit: &'a Unit,
    summary: &'a [AliasingEffect],
    function: Option<FunctionId>,
) -> &'a [AliasingEffect]
    ensures { result.now ≡ summary_of unit.now summary.now function }
{
    match function {
        None => summary,
        Some(id) => match unit.env.functions.get(id.0 as usize) {
            Some(func) => match &func.aliasing_effects {
                Some(effects) => effects.as_slice(),
                None => &[],
            },
            None => &[],
        },
    }
}

fn push_summary_line(out: &mut Text, effect: &AliasingEffect) -> Result<(), AllocError>
    ensures { OnOk result (out.new ≡ out.old ++ summary_line effect.now) }
{
    out.push_str("summary ")?;
    push_effect(out, effect)?;
    out.push_str("\n")
}

fn push_summary_lines(out: &mut Text, effects: &[AliasingEffect]) -> Result<(), AllocError>
    ensures { OnOk result (out.new ≡ out.old ++ summary_lines effects.now) }
{
    for effect in effects {
        push_summary_line(out, effect)?;
    }
    Ok(())
}

/// Appends a line for each effect of the summary of the function of the unit with this number. `summary` is that of
/// the root, which is the function at `None`. An `Err` is out of memory: `out` may then hold a part of it.
pub fn push_summary(
    out: &mut Text,
    unit: &Unit,
    summary: &[AliasingEffect],
    function: Option<FunctionId>,
) -> Result<(), AllocError>
    ensures { OnOk result (out.new ≡ out.old ++ summary_lines (summary_of unit.now summary.now function)) }
{
    push_summary_lines(out, summary_of(unit, summary, function))
}
