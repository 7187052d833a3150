//! The instructions of reached blocks, gone through until one breaks a condition.
ghost use Rattle.std.specs.Prelude.{◌≡◌, true, Some, None, is_some, option_map, slice_get, slice_index_or};
ghost use Rattle.alias_base.specs.Find.{value_at};
ghost use Rattle.alias_signature.specs.Globals.{instruction_report as report_of};
ghost use Rattle.alias_plainness.specs.Calls.{called_by};
ghost use Rattle.alias_plain.specs.Ends.{Scans, IsStopped};
ghost use Rattle.alias_plain.specs.Calls.{held_call};
ghost use Rattle.alias_plain.specs.laws.Scopes.{scope_of};
ghost use Rattle.alias_plain.specs.Held.{held};
ghost use Rattle.alias_plain.specs.laws.Scans.{count_reported, count_part, count_row, count_call, failing_of, stops_at, check, check_at, scan_instructions, scan_block, scan_from, scan_function};

use crate::conditions::{HeldCall, called, first_failing, row_of};
use crate::flow::UnsureFlow;
use crate::laws::Stop;
use crate::scope::Scope;
use crate::sure::{entered, list_in, through};
use crate::unsure::{UnsureSet, UnsureWays};
use alias_base::InstructionId;
use alias_calls::compute_effects_for_aliasing_signature_config;
use alias_facts::function_facts;
use alias_flow::{SolveFault, nothing_yet, solve};
use alias_hir::effect::AliasingEffect;
use alias_hir::env::Environment;
use alias_hir::hir::{BasicBlock, HirFunction, Instruction};
use alias_hir::interned::InternedReports;
use alias_hir::signature::{AliasingSignatureConfig, FunctionSignature};
use alias_signature::instruction_report;
use alias_tables::{EffectFault, Refusal, Tables};
use std::alloc::{AllocError, Global};

// ---- numbers that lists need

fn count_reported(alloc: Global, instruction: &Instruction, tables: &mut Tables) -> Result<(), Stop>
    ensures { Scans (count_reported (report_of instruction.now.value instruction.now.span) tables.old) result tables.new }
{
    match instruction_report(alloc, &instruction.value, instruction.span)? {
        Some((identifier, report)) => match tables.intern_report(identifier, report) {
            Ok(_) => Ok(()),
            Err(fault) => stopped(alloc, fault, tables),
        },
        None => Ok(()),
    }
}

/// The end at a fault. Where no number is wanting, the tables are empty from here on.
fn stopped(alloc: Global, fault: EffectFault, tables: &mut Tables) -> Result<(), Stop>
    ensures { IsStopped fault result tables.new }
{
    match fault {
        EffectFault::Memory(e) => Err(Stop::Memory(e)),
        EffectFault::Refused(Refusal::TooMany(which)) => Err(Stop::TooMany(which)),
        EffectFault::Refused(_) => {
            *tables = Tables::new(alloc, InternedReports::new(alloc));
            Ok(())
        }
    }
}

fn count_part(
    alloc: Global,
    env: &Environment,
    call: &HeldCall<'_>,
    part: &AliasingSignatureConfig,
    tables: &mut Tables,
) -> Result<(), Stop>
    ensures { Scans (count_part env.now (held_call call.now) (Some part.now) tables.old) result tables.new }
{
    match compute_effects_for_aliasing_signature_config(env, tables, part, call.site, call.args) {
        Ok(_) => Ok(()),
        Err(fault) => stopped(alloc, fault, tables),
    }
}

fn count_row(
    alloc: Global,
    env: &Environment,
    call: &HeldCall<'_>,
    row: &FunctionSignature,
    tables: &mut Tables,
) -> Result<(), Stop>
    ensures { Scans (count_row env.now (held_call call.now) (Some row.now) tables.old) result tables.new }
{
    match &row.aliasing {
        Some(part) => count_part(alloc, env, call, part, tables),
        None => Ok(()),
    }
}

fn count_call(
    alloc: Global,
    env: &Environment,
    list: &[AliasingEffect],
    tables: &mut Tables,
) -> Result<(), Stop>
    ensures { Scans (count_call env.now (called_by list.now) tables.old) result tables.new }
{
    match called(list) {
        Some(call) => match row_of(env, &call) {
            Some(row) => count_row(alloc, env, &call, row, tables),
            None => Ok(()),
        },
        None => Ok(()),
    }
}

// ---- instructions

fn check_list(
    alloc: Global,
    env: &Environment,
    unsure: &UnsureSet,
    id: InstructionId,
    instruction: &Instruction,
    list: &[AliasingEffect],
    tables: &Tables,
) -> Result<(), Stop>
    ensures { Scans (stops_at id (failing_of env.now unsure.now instruction.now list.now) tables.now) result tables.now }
{
    // The clause speaks of the tables; the body doesn't need them.
    let _tables = tables;
    match first_failing(alloc, env, unsure, instruction, list)? {
        Some(rule) => Err(Stop::Broken {
            instruction: id,
            rule,
        }),
        None => Ok(()),
    }
}

fn check(
    alloc: Global,
    scope: &Scope<'_>,
    unsure: &UnsureSet,
    id: InstructionId,
    instruction: &Instruction,
    tables: &mut Tables,
) -> Result<(), Stop>
    ensures { Scans (check (held scope.now) unsure.now id instruction.now tables.old) result tables.new }
{
    let list = list_in(alloc, scope, instruction)?;
    count_reported(alloc, instruction, tables)?;
    count_call(alloc, scope.env, list.as_slice(), tables)?;
    check_list(
        alloc,
        scope.env,
        unsure,
        id,
        instruction,
        list.as_slice(),
        tables,
    )
}

fn check_at(
    alloc: Global,
    scope: &Scope<'_>,
    unsure: &UnsureSet,
    id: InstructionId,
    tables: &mut Tables,
) -> Result<(), Stop>
    ensures { Scans (check_at (held scope.now) unsure.now id (slice_get scope.now.func.now.instructions id.0) tables.old) result tables.new }
{
    match scope.func.instructions.get(id.0 as usize) {
        Some(instruction) => check(alloc, scope, unsure, id, instruction, tables),
        None => Ok(()),
    }
}

// ---- blocks

fn scan_instructions(
    alloc: Global,
    scope: &Scope<'_>,
    ids: &[InstructionId],
    before: UnsureSet,
    tables: &mut Tables,
) -> Result<(), Stop>
    ensures { Scans (scan_instructions (held scope.now) ids.now before tables.old) result tables.new }
{
    let mut unsure = before;
    for id in ids {
        check_at(alloc, scope, &unsure, *id, tables)?;
        through(alloc, scope, *id, &mut unsure)?;
    }
    Ok(())
}

fn scan_block(
    alloc: Global,
    scope: &Scope<'_>,
    block: &BasicBlock,
    state: Option<&UnsureWays>,
    tables: &mut Tables,
) -> Result<(), Stop>
    ensures { Scans (scan_block (held scope.now) block.now (option_map (λ x. x.now) state.entry) tables.old) result tables.new }
{
    match state {
        Some(state) => {
            let before = entered(
                alloc,
                &scope.func.body.blocks,
                block.phis.as_slice(),
                state.sets(),
            )?;
            scan_instructions(alloc, scope, block.instructions.as_slice(), before, tables)
        }
        None => Ok(()),
    }
}

fn state_at<S>(entries: &[Option<S>], position: usize) -> Option<&S>
    ensures { option_map (λ x. x.now) result ≡ slice_index_or entries.now position None }
{
    match entries.get(position) {
        Some(Some(state)) => Some(state),
        _ => None,
    }
}

fn scan_blocks(
    alloc: Global,
    scope: &Scope<'_>,
    entries: &[Option<UnsureWays>],
    tables: &mut Tables,
) -> Result<(), Stop>
    ensures { Scans (scan_from (held scope.now) entries.now 0 scope.now.func.now.body.blocks tables.old) result tables.new }
{
    let blocks = &scope.func.body.blocks;
    for position in 0..blocks.len() {
        let Some((_, block)) = blocks.get_index(position) else {
            unreachable!()
        };
        scan_block(alloc, scope, block, state_at(entries, position), tables)?;
    }
    Ok(())
}

// ---- functions

/// The function of which these facts are known. Two to the 32 blocks or more are answered as out of memory.
fn scan_with(alloc: Global, scope: Scope<'_>, tables: &mut Tables) -> Result<(), Stop>
    requires { is_some (value_at scope.func.now.body.blocks scope.func.now.body.entry) ≡ true }
    ensures { Scans (scan_function (held scope.entry) tables.old) result tables.new }
{
    let count = scope.func.body.blocks.len();
    if count > u32::MAX as usize {
        return Err(Stop::Memory(AllocError));
    }
    let mut flow = UnsureFlow {
        alloc,
        scope,
        recorded: nothing_yet(alloc, count as u32)?,
    };
    match solve(alloc, &mut flow) {
        Ok(solution) => scan_blocks(alloc, &scope, solution.entries.as_slice(), tables),
        Err(SolveFault::Step { .. }) => Err(Stop::NotSettled),
        Err(SolveFault::NotSettled { .. }) => Err(Stop::NotSettled),
        Err(SolveFault::Memory(e)) => Err(Stop::Memory(e)),
    }
}

/// Goes through the function's instructions until one breaks a condition.
pub(crate) fn scan_function(
    alloc: Global,
    func: &HirFunction,
    env: &Environment,
    tables: &mut Tables,
) -> Result<(), Stop>
    requires { is_some (value_at func.now.body.blocks func.now.body.entry) ≡ true }
    ensures { Scans (scan_function (scope_of func.now env.now) tables.old) result tables.new }
{
    let facts = function_facts(alloc, func, env)?;
    let scope = Scope {
        func,
        env,
        facts: &facts,
    };
    scan_with(alloc, scope, tables)
}
