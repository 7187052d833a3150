//! Which nested functions have reports.
ghost use Rattle.std.specs.Prelude.{◌≡◌, IfOk};
ghost use Rattle.alias_lint.specs.lines.Summaries.{has_report, any_report};

use alias_base::List;
use alias_graph::push_reports;
use alias_hir::env::Environment;
use alias_hir::hir::HirFunction;
use std::alloc::{AllocError, Global};

/// Whether the summary of the function has a report.
fn has_report(alloc: Global, env: &Environment, func: &HirFunction) -> Result<bool, AllocError>
    ensures { IfOk result (λ b. b ≡ has_report env.now func.now) }
{
    match &func.aliasing_effects {
        None => Ok(false),
        Some(effects) => {
            let mut reports = List::new(alloc);
            push_reports(alloc, &mut reports, &env.interned, effects.as_slice())?;
            Ok(reports.len() != 0)
        }
    }
}

/// Whether the summary of a nested function has a report: only then do walks and renders find any.
pub(crate) fn any_report(alloc: Global, env: &Environment) -> Result<bool, AllocError>
    ensures { IfOk result (λ b. b ≡ any_report env.now) }
{
    for func in env.functions.as_slice() {
        if has_report(alloc, env, func)? {
            return Ok(true);
        }
    }
    Ok(false)
}
