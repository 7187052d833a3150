//! The reports of a unit, with the places in functions that they come from.
ghost use Rattle.std.specs.Prelude.{◌≡◌, ◌++◌, [], length, IfOk, OnOk};
ghost use Rattle.alias_base.specs.Answer.{Gives};
ghost use Rattle.alias_hir.specs.Errors.{is_memory};
ghost use Rattle.alias_graph.specs.recorded.Fitting.{FunctionFits, ListingFits};
ghost use Rattle.alias_graph.specs.recorded.Recording.{graph_listed};
ghost use Rattle.alias_lint.specs.Lints.{root_lints, lints_of};
ghost use Rattle.alias_lint.specs.LintLaws.{AreReports};
ghost use Rattle.alias_lint.specs.WalkLints.{found_lints, walked_lints, walk_lints};

use crate::Lint;
use crate::lines::block_table::block_table;
use crate::lines::frozen::push_frozen;
use crate::lines::pushing::push_all;
use crate::lines::reassigned::reassigned_lints;
use crate::lines::summaries::any_report;
use crate::lines::walks::{push_effect_lints, push_mutations, push_renders};
use alias_base::List;
use alias_graph::build;
use alias_graph::recorded::{Listing, list_function};
use alias_hir::env::{Environment, Unit};
use alias_hir::error::InferError;
use alias_hir::hir::HirFunction;
use std::alloc::{AllocError, Global};
use std::mem;

/// Appends the lints of walks and renders, in the part of the graph in which there are reports.
fn push_found(
    alloc: Global,
    func: &HirFunction,
    env: &mut Environment,
    listing: &Listing,
    lints: &mut List<Lint>,
) -> Result<(), AllocError>
    requires fits { ListingFits (length env.old.identifiers) listing.now }
    requires none { env.old.errors ≡ [] }
    ensures lints { OnOk result (lints.new ≡ lints.old ++ found_lints env.old func.now (graph_listed listing.now) listing.now) }
    ensures env { OnOk result (env.new ≡ env.old) }
{
    let blocks = block_table(alloc, func)?;
    let mut graph = build(alloc, listing.events.as_slice())?;
    graph.cut_off(&[], true, env)?;
    let mutations = listing.mutations.as_slice();
    push_mutations(alloc, func, &blocks, &mut graph, env, mutations, lints)?;
    push_renders(
        alloc,
        func,
        &blocks,
        &graph,
        env,
        listing.renders.as_slice(),
        lints,
    )
}

/// The same where there are any.
fn push_where_reported(
    alloc: Global,
    func: &HirFunction,
    env: &mut Environment,
    listing: &Listing,
    lints: &mut List<Lint>,
) -> Result<(), AllocError>
    requires fits { ListingFits (length env.old.identifiers) listing.now }
    requires none { env.old.errors ≡ [] }
    ensures lints { OnOk result (lints.new ≡ lints.old ++ found_lints env.old func.now (graph_listed listing.now) listing.now) }
    ensures env { OnOk result (env.new ≡ env.old) }
{
    if !any_report(alloc, env)? {
        return Ok(());
    }
    push_found(alloc, func, env, listing, lints)
}

/// Appends the lints of error effects, walks and renders.
fn push_recorded(
    alloc: Global,
    func: &HirFunction,
    env: &mut Environment,
    listing: &Listing,
    lints: &mut List<Lint>,
) -> Result<(), AllocError>
    requires fits { ListingFits (length env.old.identifiers) listing.now }
    requires none { env.old.errors ≡ [] }
    ensures lints { OnOk result (lints.new ≡ lints.old ++ walked_lints env.old func.now listing.now) }
    ensures env { OnOk result (env.new ≡ env.old) }
{
    push_effect_lints(alloc, env, func, lints)?;
    push_where_reported(alloc, func, env, listing, lints)
}

/// The same where validations are on.
fn push_walked(
    alloc: Global,
    func: &HirFunction,
    env: &mut Environment,
    listing: &Listing,
    lints: &mut List<Lint>,
) -> Result<(), AllocError>
    requires fits { ListingFits (length env.old.identifiers) listing.now }
    requires none { env.old.errors ≡ [] }
    ensures lints { OnOk result (lints.new ≡ lints.old ++ walk_lints env.old func.now listing.now) }
    ensures env { OnOk result (env.new ≡ env.old) }
{
    if env.config.enable_validations {
        push_recorded(alloc, func, env, listing, lints)?;
    }
    Ok(())
}

/// The lints of a root, in an environment without reports.
fn lint_root(
    alloc: Global,
    func: &HirFunction,
    env: &mut Environment,
) -> Result<List<Lint>, InferError>
    requires fits { FunctionFits (length env.old.identifiers) func.now }
    requires none { env.old.errors ≡ [] }
    ensures { Gives is_memory (root_lints func.now env.old) result }
{
    let mut lints = List::new(alloc);
    let listing = list_function(alloc, func)?;
    push_walked(alloc, func, env, &listing, &mut lints)?;
    let reassigned = reassigned_lints(alloc, env, func)?;
    push_all(&mut lints, reassigned)?;
    push_frozen(alloc, env, func, &mut lints)?;
    Ok(lints)
}

/// The lints of the root of a unit, whatever reports are recorded.
fn lint_unit(alloc: Global, unit: Unit) -> Result<List<Lint>, InferError>
    requires { FunctionFits (length unit.env.identifiers) unit.function }
    ensures { Gives is_memory (lints_of unit) result }
{
    let Unit { function, mut env } = unit;
    let _reports = mem::replace(&mut env.errors, List::new(alloc));
    lint_root(alloc, &function, &mut env)
}

/// The reports of the root of a unit that is inferred, in the order in which the inference records them, each with the
/// instruction or the end of a block that it comes from: an error effect, or the mutation or render whose walk came to the
/// function that has it, with the instruction that records it; a place that an async function reassigns, with the
/// instruction that creates the function; the place that is reassigned once rendering is over, with where its walk ended; and
/// a function that is frozen, with what has the operand.
///
/// `TooMany` comes exactly where no number is left for a position of the root's alias graph, and `EffectsNotInferred` where an
/// operand has no effect yet.
pub fn lint_lines(alloc: Global, unit: Unit) -> Result<List<Lint>, InferError>
    requires { FunctionFits (length unit.env.identifiers) unit.function }
    ensures lints { Gives is_memory (lints_of unit) result }
    ensures reports { IfOk result (λ lints. AreReports unit.function (record unit.env { errors = [] }) lints) }
{
    let lints = lint_unit(alloc, unit)?;
    Ok(lints)
}
