//! The reports of error effects, of the walks of mutations and of renders.
ghost use Rattle.std.specs.Prelude.{◌≡◌, ◌++◌, [], ◌<◌, fold, length, option_map, OnOk};
ghost use Rattle.alias_hir.specs.ReportNumbers.{effect_reports};
ghost use Rattle.alias_graph.specs.Nodes.{Within};
ghost use Rattle.alias_graph.specs.Renders.{rendered, render_reports};
ghost use Rattle.alias_graph.specs.Reports.{with_reports};
ghost use Rattle.alias_lint.specs.Sites.{in_root, lints_at};
ghost use Rattle.alias_lint.specs.lines.BlockTables.{IsBlockTable};
ghost use Rattle.alias_lint.specs.WalkLints.{effects_at, instruction_lints, block_lints, effect_lints, walk_reports, after_walk, mutation_lints, render_lint, render_lints};

use crate::lines::block_table::in_root;
use crate::lines::pushing::push_lints;
use crate::{Lint, Site};
use alias_base::{BlockId, InstructionId, List};
use alias_graph::recorded::{RecordedMutation, RecordedRender};
use alias_graph::{AliasGraph, Steps, push_reports};
use alias_hir::env::Environment;
use alias_hir::hir::{BasicBlock, HirFunction, Instruction};
use alias_hir::report::Report;
use std::alloc::{AllocError, Global};
use std::marker::Brand;
use std::mem;
use std::sync::ledger::{Blank, Ledger};

/// Appends the reports of the effects of an instruction.
fn push_effects(
    alloc: Global,
    env: &Environment,
    instruction: Option<&Instruction>,
    reports: &mut List<Report>,
) -> Result<(), AllocError>
    ensures { OnOk result (reports.new ≡ reports.old ++ effect_reports env.now.interned (effects_at (option_map (λ i. i.now) instruction.entry))) }
{
    match instruction {
        None => Ok(()),
        Some(instruction) => match &instruction.effects {
            None => Ok(()),
            Some(effects) => push_reports(alloc, reports, &env.interned, effects.as_slice()),
        },
    }
}

fn push_instruction(
    alloc: Global,
    env: &Environment,
    func: &HirFunction,
    block: BlockId,
    id: InstructionId,
    lints: &mut List<Lint>,
) -> Result<(), AllocError>
    ensures { OnOk result (lints.new ≡ lints.old ++ instruction_lints env.now func.now block id) }
{
    let mut reports = List::new(alloc);
    let instruction = func.instructions.get(id.0 as usize);
    push_effects(alloc, env, instruction, &mut reports)?;
    let site = Site {
        function: None,
        block,
        instruction: Some(id),
    };
    push_lints(lints, site, reports)
}

fn push_block(
    alloc: Global,
    env: &Environment,
    func: &HirFunction,
    id: BlockId,
    block: &BasicBlock,
    lints: &mut List<Lint>,
) -> Result<(), AllocError>
    ensures { OnOk result (lints.new ≡ lints.old ++ block_lints env.now func.now (id, block.now)) }
{
    for instruction in block.instructions.as_slice() {
        push_instruction(alloc, env, func, id, *instruction, lints)?;
    }
    Ok(())
}

/// Appends each error effect's report, at the instruction that records it.
pub(crate) fn push_effect_lints(
    alloc: Global,
    env: &Environment,
    func: &HirFunction,
    lints: &mut List<Lint>,
) -> Result<(), AllocError>
    ensures { OnOk result (lints.new ≡ lints.old ++ effect_lints env.now func.now) }
{
    for (id, block) in func.body.blocks.iter() {
        push_block(alloc, env, func, *id, block, lints)?;
    }
    Ok(())
}

/// The walk of a mutation, counted in a ledger that nothing else is counted in. No range changes.
#[tactic(auto, using(crate::proofs::lines::Ranges::only_reports, crate::proofs::lines::Ranges::still_within))]
fn walk_counted<L: Ledger>(
    graph: &mut AliasGraph,
    env: &mut Environment,
    mutation: &RecordedMutation,
    blank: Blank,
) -> Result<(), AllocError>
    requires within { Within (length env.old.identifiers) graph.old }
    requires name { blank.name ≡ L.name }
    requires parts { blank.parts ≡ L.parts }
    requires some { 0 < blank.parts }
    ensures graph { OnOk result (graph.new ≡ after_walk graph.old mutation.now) }
    ensures env { OnOk result (env.new ≡ with_reports (walk_reports env.old graph.old mutation.now) env.old) }
    ensures within { OnOk result (Within (length env.new.identifiers) graph.new) }
{
    let mut steps = Steps::<L>::start(blank);
    let record_errors = true;
    graph.mutate(
        mutation.index,
        mutation.place.identifier,
        None,
        mutation.transitive,
        mutation.kind,
        mutation.place.span,
        mutation.reason,
        env,
        record_errors,
        &mut steps,
    )?;
    Ok(())
}

/// Takes the reports out of the environment.
fn take_reports(alloc: Global, env: &mut Environment) -> List<Report>
    ensures reports { result ≡ env.old.errors }
    ensures taken { env.new ≡ record env.old { errors = [] } }
{
    mem::replace(&mut env.errors, List::new(alloc))
}

/// Appends what the walk of a mutation reports, at the instruction that recorded the mutation.
fn push_mutation(
    alloc: Global,
    func: &HirFunction,
    table: &[Option<BlockId>],
    graph: &mut AliasGraph,
    env: &mut Environment,
    mutation: &RecordedMutation,
    lints: &mut List<Lint>,
) -> Result<(), AllocError>
    requires blocks { IsBlockTable func.now table.now }
    requires within { Within (length env.old.identifiers) graph.old }
    requires none { env.old.errors ≡ [] }
    ensures graph { OnOk result (graph.new ≡ after_walk graph.old mutation.now) }
    ensures lints { OnOk result (lints.new ≡ lints.old ++ lints_at (in_root func.now mutation.now.instruction) (walk_reports env.old graph.old mutation.now)) }
    ensures env { OnOk result (env.new ≡ env.old) }
    ensures within { OnOk result (Within (length env.new.identifiers) graph.new) }
{
    walk_counted::<Brand>(graph, env, mutation, Blank::new(1))?;
    let reports = take_reports(alloc, env);
    push_lints(lints, in_root(func, table, mutation.instruction), reports)
}

/// Appends what the walk of each mutation reports.
pub(crate) fn push_mutations(
    alloc: Global,
    func: &HirFunction,
    table: &[Option<BlockId>],
    graph: &mut AliasGraph,
    env: &mut Environment,
    mutations: &[RecordedMutation],
    lints: &mut List<Lint>,
) -> Result<(), AllocError>
    requires blocks { IsBlockTable func.now table.now }
    requires within { Within (length env.old.identifiers) graph.old }
    requires none { env.old.errors ≡ [] }
    ensures graph { OnOk result (graph.new ≡ fold after_walk graph.old mutations.now) }
    ensures lints { OnOk result (lints.new ≡ lints.old ++ mutation_lints env.old func.now graph.old mutations.now) }
    ensures env { OnOk result (env.new ≡ env.old) }
{
    for mutation in mutations {
        push_mutation(alloc, func, table, graph, env, mutation, lints)?;
    }
    Ok(())
}

/// Appends what a render reports, at the instruction that recorded it.
fn push_render(
    alloc: Global,
    func: &HirFunction,
    table: &[Option<BlockId>],
    graph: &AliasGraph,
    env: &mut Environment,
    render: &RecordedRender,
    lints: &mut List<Lint>,
) -> Result<(), AllocError>
    requires blocks { IsBlockTable func.now table.now }
    requires none { env.old.errors ≡ [] }
    ensures lints { OnOk result (lints.new ≡ lints.old ++ render_lint env.old func.now graph.now render.now) }
    ensures env { OnOk result (env.new ≡ env.old) }
{
    graph.render(render.index, render.place.identifier, env)?;
    let reports = take_reports(alloc, env);
    push_lints(lints, in_root(func, table, render.instruction), reports)
}

/// Appends what each render reports.
pub(crate) fn push_renders(
    alloc: Global,
    func: &HirFunction,
    table: &[Option<BlockId>],
    graph: &AliasGraph,
    env: &mut Environment,
    renders: &[RecordedRender],
    lints: &mut List<Lint>,
) -> Result<(), AllocError>
    requires blocks { IsBlockTable func.now table.now }
    requires none { env.old.errors ≡ [] }
    ensures lints { OnOk result (lints.new ≡ lints.old ++ render_lints env.old func.now graph.now renders.now) }
    ensures env { OnOk result (env.new ≡ env.old) }
{
    for render in renders {
        push_render(alloc, func, table, graph, env, render, lints)?;
    }
    Ok(())
}
