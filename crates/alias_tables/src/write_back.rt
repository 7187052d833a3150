//! What the tables of a pass begin with, and what the environment takes over from them.

ghost use Rattle.std.specs.Prelude.{◌≡◌, ℕ, [], map, take, IfOk, OnOk, OnErr};
ghost use Rattle.alias_tables.specs.write_back.WriteBack.{tables_of, with_identifiers, read_place, with_context_read, with_read, with_reads, with_tables};
ghost use Rattle.alias_tables.specs.write_back.WriteBackLaws.{cut};

use crate::{ContextRead, Tables, Temporary};
use alias_base::{IdentifierId, List, TryClone};
use alias_hir::env::Environment;
use alias_hir::hir::HirFunction;
use alias_hir::interned::InternedReports;
use alias_hir::place::{Effect, Place};
use alias_hir::report::Interned;
use std::alloc::{AllocError, Global};
use std::mem;

fn copy_of(alloc: Global, reports: &InternedReports) -> Result<InternedReports, AllocError>
    ensures { IfOk result (λ copy. copy ≡ reports.now) }
{
    let mut copy = InternedReports::new(alloc);
    for entry in reports.as_slice() {
        copy.push(Interned {
            identifier: entry.identifier,
            report: entry.report.try_clone(alloc)?,
        })?;
    }
    Ok(copy)
}

/// The tables that a pass begins with: the reports that are interned, copied, so that a pass that is refused leaves the
/// environment as it was.
pub fn tables_of(alloc: Global, env: &Environment) -> Result<Tables, AllocError>
    ensures { IfOk result (λ tables. tables ≡ tables_of env.now) }
{
    Ok(Tables::new(alloc, copy_of(alloc, &env.interned)?))
}

/// Appends an identifier for each temporary, with the span of its place. An `Err` leaves some of them.
fn append_identifiers(env: &mut Environment, temporaries: &[Temporary]) -> Result<(), AllocError>
    ensures ok { OnOk result (env.new ≡ with_identifiers temporaries.now env.old) }
    ensures err { OnErr result ((count : ℕ) × (env.new ≡ with_identifiers (take count temporaries.now) env.old)) }
{
    for temporary in temporaries {
        // No number is wanting: there was room for each temporary when it was made.
        let Ok(_) = env.next_identifier_id_at(temporary.place.span) else {
            return Err(AllocError);
        };
    }
    Ok(())
}

fn truncate<T: Drop>(alloc: Global, list: &mut List<T>, len: usize)
    ensures { list.new ≡ take len list.old }
{
    let mut items = mem::replace(list, List::new(alloc)).into_vec();
    items.truncate(len);
    *list = List::from_vec(items);
}

fn cut(alloc: Global, env: &mut Environment, identifiers: usize, types: usize)
    ensures { env.new ≡ cut identifiers types env.old }
{
    truncate(alloc, &mut env.identifiers, identifiers);
    truncate(alloc, &mut env.types, types);
}

fn read_place(place: &mut Place, identifier: IdentifierId)
    ensures { place.new ≡ read_place identifier place.old }
{
    if place.identifier.0 == identifier.0 {
        place.effect = Effect::Read;
    }
}

fn read_places(places: &mut [Place], identifier: IdentifierId)
    ensures { places.new ≡ map (read_place identifier) places.old }
{
    for place in places.iter_mut() {
        read_place(place, identifier);
    }
}

fn read_context(function: &mut HirFunction, identifier: IdentifierId)
    ensures { function.new ≡ with_context_read identifier function.old }
{
    read_places(function.context.as_mut_slice(), identifier);
}

fn note_read(functions: &mut List<HirFunction>, read: ContextRead)
    ensures { functions.new ≡ with_read read functions.old }
{
    let index = read.function.0 as usize;
    if index < functions.len() {
        read_context(functions.item_mut(index), read.place);
    }
}

fn note_reads(functions: &mut List<HirFunction>, reads: &[ContextRead])
    ensures { functions.new ≡ with_reads reads.now functions.old }
{
    for read in reads {
        note_read(functions, *read);
    }
}

/// The environment takes over what a pass added to its tables: an identifier for each temporary, with the span of its
/// place, the reports, and which context places are only read. An `Err` leaves the environment as it was.
#[tactic(auto, using(crate::specs::write_back::WriteBackLaws::cut_of_identifiers))]
pub fn write_back(
    alloc: Global,
    env: &mut Environment,
    temporaries: &[Temporary],
    reports: InternedReports,
    reads: &[ContextRead],
) -> Result<(), AllocError>
    ensures ok { OnOk result (env.new ≡ with_tables (record { first = []; temporaries = temporaries.now; reports = reports; reads = reads.now }) env.old) }
    ensures err { OnErr result (env.new ≡ env.old) }
{
    let identifiers = env.identifiers.len();
    let types = env.types.len();
    if append_identifiers(env, temporaries).is_err() {
        cut(alloc, env, identifiers, types);
        return Err(AllocError);
    }
    note_reads(&mut env.functions, reads);
    env.interned = reports;
    Ok(())
}
