//! The reports of the functions that a walk comes to.
ghost use Rattle.std.specs.Prelude.{◌≡◌, ◌++◌, [], true, cond, slice_get, OnOk, OnErr};
ghost use Rattle.alias_hir.specs.ReportNumbers.{report_at, effect_reports, summary};
ghost use Rattle.alias_graph.specs.Nodes.{node_at};
ghost use Rattle.alias_graph.specs.Reports.{value_reports, reported, stored_reported_at, with_reports, Front};

use crate::node_map::{NodeMap, SlotHint};
use crate::types::{Node, NodeValue};
use alias_base::{FunctionId, IdentifierId, List, TryClone};
use alias_hir::effect::{AliasingEffect, error_of};
use alias_hir::env::Environment;
use alias_hir::hir::HirFunction;
use alias_hir::interned::InternedReports;
use alias_hir::report::{Report, ReportId};
use std::alloc::{AllocError, Global};

/// Appends an interned report.
fn push_report(
    alloc: Global,
    errors: &mut List<Report>,
    interned: &InternedReports,
    error: Option<ReportId>,
) -> Result<(), AllocError>
    ensures ok { OnOk result (errors.new ≡ errors.old ++ report_at interned.now error) }
    ensures err { OnErr result (errors.new ≡ errors.old) }
{
    if let Some(error) = error
        && let Some(entry) = interned.get(error.instance as usize)
    {
        errors.push(entry.report.try_clone(alloc)?)?;
    }
    Ok(())
}

/// Appends the reports of the effects that have one. After an `Err` some of them may be there.
pub fn push_reports(
    alloc: Global,
    errors: &mut List<Report>,
    interned: &InternedReports,
    effects: &[AliasingEffect],
) -> Result<(), AllocError>
    ensures ok { OnOk result (errors.new ≡ errors.old ++ effect_reports interned.now effects.now) }
    ensures err { OnErr result (Front errors.old errors.new (effect_reports interned.now effects.now)) }
{
    for effect in effects {
        push_report(alloc, errors, interned, error_of(effect))?;
    }
    Ok(())
}

/// Appends the reports of a nested function's summary.
fn push_summary(
    alloc: Global,
    errors: &mut List<Report>,
    interned: &InternedReports,
    functions: &List<HirFunction>,
    function: FunctionId,
) -> Result<(), AllocError>
    ensures ok { OnOk result (errors.new ≡ errors.old ++ effect_reports interned.now (summary (slice_get functions.now function.0))) }
    ensures err { OnErr result (Front errors.old errors.new (effect_reports interned.now (summary (slice_get functions.now function.0)))) }
{
    match functions.get(function.0 as usize) {
        None => Ok(()),
        Some(function) => match &function.aliasing_effects {
            None => Ok(()),
            Some(effects) => push_reports(alloc, errors, interned, effects.as_slice()),
        },
    }
}

/// Appends the reports that a walk adds at a node: those of a function without a mark.
pub(crate) fn report_node(
    alloc: Global,
    node: &Node,
    env: &mut Environment,
) -> Result<(), AllocError>
    ensures ok { OnOk result (env.new ≡ with_reports (reported env.old node.now.value node.now.local node.now.transitive) env.old) }
    ensures err { OnErr result (env.new ≡ record env.old { errors = env.new.errors }) }
    ensures front { OnErr result (Front env.old.errors env.new.errors (reported env.old node.now.value node.now.local node.now.transitive)) }
{
    if node.local.is_some() || node.transitive.is_some() {
        return Ok(());
    }
    match node.value {
        NodeValue::Object | NodeValue::Phi => Ok(()),
        NodeValue::Function { function_id } => push_summary(
            alloc,
            &mut env.errors,
            &env.interned,
            &env.functions,
            function_id,
        ),
    }
}

/// Where errors are recorded, appends the reports that a walk adds at the node of an identifier.
pub(crate) fn report_node_at(
    alloc: Global,
    nodes: &NodeMap,
    id: IdentifierId,
    hint: SlotHint,
    should_record_errors: bool,
    env: &mut Environment,
) -> Result<(), AllocError>
    ensures ok { OnOk result (env.new ≡ with_reports (cond should_record_errors (stored_reported_at env.old (node_at nodes.now id)) []) env.old) }
    ensures recording { OnErr result (should_record_errors ≡ true) }
    ensures err { OnErr result (env.new ≡ record env.old { errors = env.new.errors }) }
    ensures front { OnErr result (Front env.old.errors env.new.errors (stored_reported_at env.old (node_at nodes.now id))) }
{
    if !should_record_errors {
        return Ok(());
    }
    match nodes.get_near(id, hint) {
        None => Ok(()),
        Some(node) => report_node(alloc, node, env),
    }
}
