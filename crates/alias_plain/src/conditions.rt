//! The conditions of an instruction.
ghost use Rattle.std.specs.Prelude.{◌≡◌, ◌&&◌, ◌++◌, true, not, map, option_map, Ok, Err, IfOk, OnOk};
ghost use Rattle.std.specs.List.{list_all, list_any};
ghost use Rattle.alias_rules.specs.function_rules.Rules.{is_among};
ghost use Rattle.alias_hir.specs.Values.{created};
ghost use Rattle.alias_tables.specs.declared.temporaries.Temporary.{Temporary};
ghost use Rattle.alias_calls.specs.Visits.{rest_use, is_refused};
ghost use Rattle.alias_visit.specs.Places.{created_places};
ghost use Rattle.alias_plainness.specs.Making.{number, needed};
ghost use Rattle.alias_plainness.specs.Calls.{Called, called_by, row_of, list_of_part};
ghost use Rattle.alias_plainness.specs.Conditions.{are_distinct, aliases_into, list_is_made_well, is_spread, row_makes_well, row_is_compatible, row_freezes_no_spread, makes_well, is_compatible, freezes_no_spread, first_broken, own_numbers, part_is_made_well, is_refused_part};
ghost use Rattle.alias_plain.specs.Calls.{held_call, FaultIs};
ghost use Rattle.alias_plain.specs.laws.Scans.{sure_in, failing_of};

use crate::making::{all_made, is_among, needed, push_places};
use crate::unsure::UnsureSet;
use alias_base::FunctionId;
use alias_calls::{CallSite, compute_effects_for_aliasing_signature_config};
use alias_hir::effect::{AliasingEffect, AliasingEffects};
use alias_hir::env::Environment;
use alias_hir::hir::Instruction;
use alias_hir::interned::InternedReports;
use alias_hir::place::{Effect, Place, PlaceOrSpreadOrHole};
use alias_hir::signature::{AliasingSignatureConfig, FunctionSignature};
use alias_hir::types::type_of;
use alias_rules::function_rules::ids::created;
use alias_rules::function_rules::listing::first_again;
use alias_tables::{EffectFault, Refusal, Tables, Temporary};
use std::alloc::{AllocError, Global};

// ---- lists of numbers

fn are_distinct(alloc: Global, numbers: &[u32]) -> Result<bool, AllocError>
    ensures { IfOk result (λ r. r ≡ are_distinct numbers.now) }
{
    let again = first_again(alloc, numbers)?;
    Ok(!again.is_some())
}

fn all_are_among(of: &[u32], numbers: &[u32]) -> bool
    ensures { result ≡ list_all (is_among of.now) numbers.now }
{
    for number in numbers {
        if !is_among(of, *number) {
            return false;
        }
    }
    true
}

fn none_is_among(of: &[u32], numbers: &[u32]) -> bool
    ensures { result ≡ list_all (λ x. not (is_among of.now x)) numbers.now }
{
    for number in numbers {
        if is_among(of, *number) {
            return false;
        }
    }
    true
}

fn all_are_sure(unsure: &UnsureSet, numbers: &[u32]) -> bool
    ensures { result ≡ list_all (sure_in unsure.now) numbers.now }
{
    for number in numbers {
        if unsure.has(*number) {
            return false;
        }
    }
    true
}

// ---- what is to be sure

fn context_of_created(env: &Environment, created: Option<FunctionId>) -> &[Place]
    ensures { result.now ≡ created_places env.now created }
{
    match created {
        Some(function) => match env.functions.get(function.0 as usize) {
            Some(function) => function.context.as_slice(),
            None => &[],
        },
        None => &[],
    }
}

/// What the instruction's list names and doesn't make before, and the context places of a function that it creates.
fn needs(
    alloc: Global,
    env: &Environment,
    instruction: &Instruction,
    list: &[AliasingEffect],
) -> Result<Vec<u32>, AllocError>
    ensures { IfOk result (λ v. v.items ≡ needed list.now ++ map number (created_places env.now (created instruction.now.value))) }
{
    let mut numbers = needed(alloc, list)?;
    push_places(
        &mut numbers,
        context_of_created(env, created(&instruction.value)),
    )?;
    Ok(numbers)
}

// ---- what an aliasing part makes

fn aliases_into(own: &[u32], effect: &AliasingEffect) -> bool
    ensures { result ≡ aliases_into own.now effect.now }
{
    match effect {
        AliasingEffect::Alias { into, .. } => is_among(own, into.identifier.0),
        _ => true,
    }
}

fn all_alias_into(own: &[u32], list: &[AliasingEffect]) -> bool
    ensures { result ≡ list_all (aliases_into own.now) list.now }
{
    for effect in list {
        if !aliases_into(own, effect) {
            return false;
        }
    }
    true
}

fn list_is_made_well(
    alloc: Global,
    own: &[u32],
    list: &[AliasingEffect],
) -> Result<bool, AllocError>
    ensures { IfOk result (λ r. r ≡ list_is_made_well own.now list.now) }
{
    let made = all_made(alloc, list)?;
    let named = needed(alloc, list)?;
    let once = are_distinct(alloc, &made)?;
    Ok(
        once && all_are_among(&made, own)
            && all_are_among(own, &made)
            && none_is_among(own, &named)
            && all_alias_into(own, list),
    )
}

fn push_temporaries(numbers: &mut Vec<u32>, temporaries: &[Temporary]) -> Result<(), AllocError>
    ensures { OnOk result (numbers.new.items ≡ numbers.old.items ++ map (λ (x : Temporary). number x.place) temporaries.now) }
{
    for temporary in temporaries {
        numbers.push(temporary.place.identifier.0)?;
    }
    Ok(())
}

/// A call: what is called with which arguments, and where that stands.
#[derive(Clone, Copy)]
pub(crate) struct HeldCall<'a> {
    pub function: Place,
    pub args: &'a [PlaceOrSpreadOrHole],
    pub site: CallSite,
}

/// The call that the list begins with, if it begins with one.
pub(crate) fn called(list: &[AliasingEffect]) -> Option<HeldCall<'_>>
    ensures { option_map held_call result ≡ called_by list.now }
{
    match list {
        [
            AliasingEffect::Apply {
                receiver,
                function,
                args,
                into,
                span,
                ..
            },
            ..
        ] => Some(HeldCall {
            function: *function,
            args: args.as_slice(),
            site: CallSite {
                receiver: *receiver,
                into: *into,
                span: *span,
            },
        }),
        _ => None,
    }
}

/// The row that the type of the called function has.
pub(crate) fn row_of<'a>(env: &'a Environment, call: &HeldCall<'_>) -> Option<&'a FunctionSignature>
    ensures { option_map (λ s. s.now) result ≡ row_of env.now (held_call call.now) }
{
    match type_of(env, call.function.identifier) {
        Some(ty) => env.get_function_signature(ty),
        None => None,
    }
}

fn own_numbers(alloc: Global, call: &HeldCall<'_>, tables: &Tables) -> Result<Vec<u32>, AllocError>
    ensures { IfOk result (λ v. v.items ≡ own_numbers (held_call call.now) tables.now) }
{
    let mut numbers = Vec::new(alloc);
    numbers.push(call.site.into.identifier.0)?;
    push_temporaries(&mut numbers, tables.temporaries())?;
    Ok(numbers)
}

/// What of a call's row is as it should be.
#[derive(Clone, Copy, Debug, PartialEq, Eq)]
struct RowEnd {
    makes_well: bool,
    is_compatible: bool,
    freezes_no_spread: bool,
}

/// What of an aliasing part is as it should be.
#[derive(Clone, Copy, Debug, PartialEq, Eq)]
struct PartEnd {
    makes_well: bool,
    freezes_no_spread: bool,
}

/// A part that is refused: for want of a number, or for a spread that would be frozen.
fn refused_end(refusal: Refusal) -> PartEnd
    ensures well { (c : Called) → result.makes_well ≡ part_is_made_well c (Err refusal) }
    ensures spread { result.freezes_no_spread ≡ not (is_refused_part (Err refusal)) }
{
    match refusal {
        Refusal::SpreadArgument {
            span: _span,
            report: _report,
        } => PartEnd {
            makes_well: true,
            freezes_no_spread: false,
        },
        Refusal::TooMany(_which) => PartEnd {
            makes_well: false,
            freezes_no_spread: true,
        },
        _ => PartEnd {
            makes_well: true,
            freezes_no_spread: true,
        },
    }
}

fn fault_end(fault: EffectFault) -> Result<PartEnd, AllocError>
    ensures well { IfOk result (λ r. (c : Called) → FaultIs fault (λ refusal. r.makes_well ≡ part_is_made_well c (Err refusal))) }
    ensures spread { IfOk result (λ r. FaultIs fault (λ refusal. r.freezes_no_spread ≡ not (is_refused_part (Err refusal)))) }
{
    match fault {
        EffectFault::Refused(refusal) => Ok(refused_end(refusal)),
        EffectFault::Memory(e) => Err(e),
    }
}

fn list_end(
    alloc: Global,
    call: &HeldCall<'_>,
    list: Option<AliasingEffects>,
    tables: &Tables,
) -> Result<PartEnd, AllocError>
    ensures well { IfOk result (λ r. r.makes_well ≡ part_is_made_well (held_call call.now) (Ok (list, tables.now))) }
    ensures spread { IfOk result (λ r. r.freezes_no_spread ≡ true) }
{
    let makes_well = match list {
        Some(list) => {
            let own = own_numbers(alloc, call, tables)?;
            list_is_made_well(alloc, &own, list.as_slice())?
        }
        None => true,
    };
    Ok(PartEnd {
        makes_well,
        freezes_no_spread: true,
    })
}

fn part_end(
    alloc: Global,
    env: &Environment,
    call: &HeldCall<'_>,
    part: &AliasingSignatureConfig,
) -> Result<PartEnd, AllocError>
    ensures well { IfOk result (λ r. r.makes_well ≡ part_is_made_well (held_call call.now) (list_of_part env.now (held_call call.now) part.now)) }
    ensures spread { IfOk result (λ r. r.freezes_no_spread ≡ not (is_refused_part (list_of_part env.now (held_call call.now) part.now))) }
{
    let mut tables = Tables::new(alloc, InternedReports::new(alloc));
    match compute_effects_for_aliasing_signature_config(
        env,
        &mut tables,
        part,
        call.site,
        call.args,
    ) {
        Ok(list) => list_end(alloc, call, list, &tables),
        Err(fault) => fault_end(fault),
    }
}

fn part_end_of(
    alloc: Global,
    env: &Environment,
    call: &HeldCall<'_>,
    row: &FunctionSignature,
) -> Result<PartEnd, AllocError>
    ensures well { IfOk result (λ r. r.makes_well ≡ row_makes_well env.now (held_call call.now) row.now) }
    ensures spread { IfOk result (λ r. (not (is_refused (rest_use row.now) && list_any is_spread call.now.args.now) && r.freezes_no_spread) ≡ row_freezes_no_spread env.now (held_call call.now) row.now) }
{
    match &row.aliasing {
        Some(part) => part_end(alloc, env, call, part),
        None => Ok(PartEnd {
            makes_well: true,
            freezes_no_spread: true,
        }),
    }
}

fn has_spread(args: &[PlaceOrSpreadOrHole]) -> bool
    ensures { result ≡ list_any is_spread args.now }
{
    for argument in args {
        if let PlaceOrSpreadOrHole::Spread(_) = argument {
            return true;
        }
    }
    false
}

fn freezes_rest(row: &FunctionSignature) -> bool
    ensures { result ≡ is_refused (rest_use row.now) }
{
    match row.rest_param {
        Some(Effect::Freeze) => true,
        _ => false,
    }
}

fn row_is_compatible(env: &Environment, row: &FunctionSignature) -> bool
    ensures { result ≡ row_is_compatible env.now row.now }
{
    !(env.enable_validations() && row.known_incompatible.is_some())
}

fn row_end(
    alloc: Global,
    env: &Environment,
    call: &HeldCall<'_>,
    row: &FunctionSignature,
) -> Result<RowEnd, AllocError>
    ensures well { IfOk result (λ r. r.makes_well ≡ row_makes_well env.now (held_call call.now) row.now) }
    ensures compatible { IfOk result (λ r. r.is_compatible ≡ row_is_compatible env.now row.now) }
    ensures spread { IfOk result (λ r. r.freezes_no_spread ≡ row_freezes_no_spread env.now (held_call call.now) row.now) }
{
    let part = part_end_of(alloc, env, call, row)?;
    let spread = !(freezes_rest(row) && has_spread(call.args));
    Ok(RowEnd {
        makes_well: part.makes_well,
        is_compatible: row_is_compatible(env, row),
        freezes_no_spread: spread && part.freezes_no_spread,
    })
}

/// The row's conditions of the instruction with the list.
fn row_end_of(
    alloc: Global,
    env: &Environment,
    list: &[AliasingEffect],
) -> Result<RowEnd, AllocError>
    ensures well { IfOk result (λ r. r.makes_well ≡ makes_well env.now list.now) }
    ensures compatible { IfOk result (λ r. r.is_compatible ≡ is_compatible env.now list.now) }
    ensures spread { IfOk result (λ r. r.freezes_no_spread ≡ freezes_no_spread env.now list.now) }
{
    let holds = RowEnd {
        makes_well: true,
        is_compatible: true,
        freezes_no_spread: true,
    };
    match called(list) {
        Some(call) => match row_of(env, &call) {
            Some(row) => row_end(alloc, env, &call, row),
            None => Ok(holds),
        },
        None => Ok(holds),
    }
}

// ---- in order

fn first_broken(sure: bool, once: bool, row: RowEnd) -> Option<u32>
    ensures { result ≡ first_broken sure once row.makes_well row.is_compatible row.freezes_no_spread }
{
    if !sure {
        Some(1)
    } else if !once {
        Some(2)
    } else if !row.makes_well {
        Some(3)
    } else if !row.is_compatible {
        Some(4)
    } else if !row.freezes_no_spread {
        Some(5)
    } else {
        None
    }
}

/// The first condition that fails, where all but these are sure before the instruction with the list.
pub(crate) fn first_failing(
    alloc: Global,
    env: &Environment,
    unsure: &UnsureSet,
    instruction: &Instruction,
    list: &[AliasingEffect],
) -> Result<Option<u32>, AllocError>
    ensures { IfOk result (λ r. r ≡ failing_of env.now unsure.now instruction.now list.now) }
{
    let needs = needs(alloc, env, instruction, list)?;
    let made = all_made(alloc, list)?;
    let once = are_distinct(alloc, &made)?;
    let row = row_end_of(alloc, env, list)?;
    Ok(first_broken(all_are_sure(unsure, &needs), once, row))
}
