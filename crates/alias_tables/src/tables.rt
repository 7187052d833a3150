//! The tables of a pass.

ghost use Rattle.std.specs.Prelude.{◌≡◌, ◌&&◌, nat_lt, ◌+◌, [], IfOk, OnOk};
ghost use Rattle.alias_tables.specs.GrowingLaws.{Grows};
ghost use Rattle.alias_tables.specs.Tables.{TableLists, Leaves, has_room, new_place, intern, temporary, intern_report, note_read};

use crate::faults::{EffectFault, Refusal};
use crate::interned_effects::InternedEffects;
use crate::key::{effect_key, with_error_of};
use crate::reads::{ContextRead, ContextReads};
use crate::reports::intern_report;
use crate::temp_key::TempKey;
use crate::temporaries::{Temporaries, Temporary};
use alias_base::{IdentifierId, List};
use alias_hir::effect::{AliasingEffect, AliasingEffects};
use alias_hir::env::Environment;
use alias_hir::error::Counter;
use alias_hir::interned::InternedReports;
use alias_hir::place::{Effect, Place, Span};
use alias_hir::report::{Interned, Report, ReportId};
use std::alloc::{AllocError, Global};
use std::marker::Model;

/// What the steps of effects add to: the interned effect of each key, temporaries, interned reports, and the context
/// places that were found to be only read.
pub struct Tables {
    alloc: Global,
    first: InternedEffects,
    temporaries: Temporaries,
    reports: InternedReports,
    reads: ContextReads,
}

impl Drop for Tables {
    fn drop(self) {
        let Tables {
            alloc: _,
            first: _,
            temporaries: _,
            reports: _,
            reads: _,
        } = self;
    }
}

/// What tables hold, each by value.
#[derive(Drop)]
pub struct TableParts {
    pub first: AliasingEffects,
    pub temporaries: Temporaries,
    pub reports: InternedReports,
    pub reads: List<ContextRead>,
}

impl Model for Tables {
    ghost use Rattle.alias_tables.specs.Tables.{TableLists};

    ghost Value = { TableLists };

    ghost view = { λ t. record { first = t.first; temporaries = t.temporaries; reports = t.reports; reads = t.reads } };
}

/// Whether two numbers have a sum that numbers something.
fn has_sum(few: usize, more: usize) -> bool
    ensures { result ≡ nat_lt (few + more) 4294967295 }
{
    few < 4294967295 && more < 4294967295 - few
}

fn has_room(identifiers: usize, types: usize, more: usize) -> bool
    ensures { result ≡ has_room identifiers types more }
{
    has_sum(identifiers, more) && has_sum(types, more)
}

impl Tables {
    /// Tables with these reports, and nothing else. Takes no memory.
    pub fn new(alloc: Global, reports: InternedReports) -> Tables
        ensures { result ≡ record { first = []; temporaries = []; reports = reports; reads = [] } }
    {
        Tables {
            alloc,
            first: InternedEffects::new(alloc),
            temporaries: Temporaries::new(alloc),
            reports,
            reads: ContextReads::new(alloc),
        }
    }

    /// The allocator of the tables.
    pub fn alloc(&self) -> Global {
        self.alloc
    }

    /// The interned effects, in order.
    pub fn first(&self) -> &[AliasingEffect]
        ensures { result.now ≡ self.now.first }
    {
        self.first.as_slice()
    }

    /// The temporaries, in order.
    pub fn temporaries(&self) -> &[Temporary]
        ensures { result.now ≡ self.now.temporaries }
    {
        self.temporaries.as_slice()
    }

    /// The interned reports, in order.
    pub fn reports(&self) -> &[Interned]
        ensures { result.now ≡ self.now.reports }
    {
        self.reports.as_slice()
    }

    /// The context places that were found to be only read.
    pub fn reads(&self) -> &[ContextRead]
        ensures { result.now ≡ self.now.reads }
    {
        self.reads.as_slice()
    }

    /// What the tables hold, each by value.
    pub fn into_parts(self) -> TableParts
        ensures first { result.first ≡ self.first }
        ensures temporaries { result.temporaries ≡ self.temporaries }
        ensures reports { result.reports ≡ self.reports }
        ensures reads { result.reads ≡ self.reads }
    {
        let Tables {
            alloc: _,
            first,
            temporaries,
            reports,
            reads,
        } = self;
        TableParts {
            first: first.into_effects(),
            temporaries,
            reports,
            reads: reads.into_reads(),
        }
    }

    /// The interned effect of the same key with the effect's own error. Where there is none the effect becomes it.
    pub fn intern(&mut self, effect: AliasingEffect) -> Result<AliasingEffect, AllocError>
        ensures { IfOk result (λ e. intern effect self.old ≡ Ok (e, self.new)) }
    {
        let alloc = self.alloc;
        match effect_key(alloc, &effect)? {
            Some(key) => match self.first.first_or_push(alloc, key, &effect)? {
                Some(first) => Ok(with_error_of(first, &effect)),
                None => Ok(effect),
            },
            None => Ok(effect),
        }
    }

    /// The place of the key's temporary. Where there is none, it gets the next number and this span.
    pub fn temporary(
        &mut self,
        env: &Environment,
        key: TempKey,
        span: Option<Span>,
    ) -> Result<Place, EffectFault>
        ensures { Leaves (temporary env.now key span self.old) result self.new }
    {
        if let Some(there) = self.temporaries.get(&key) {
            return Ok(there.place);
        }
        let identifiers = env.identifiers.len();
        let more = self.temporaries.as_slice().len();
        if !has_room(identifiers, env.types.len(), more) {
            return Err(EffectFault::Refused(Refusal::TooMany(Counter::Identifiers)));
        }
        let place = Place {
            identifier: IdentifierId((identifiers + more) as u32),
            effect: Effect::Unknown,
            reactive: false,
            span,
        };
        self.temporaries.push(self.alloc, key, place)?;
        Ok(place)
    }

    /// The numbers of a report. A new one is kept, and takes the next number. On every answer the reports have at most
    /// grown at their end.
    pub fn intern_report(
        &mut self,
        identifier: IdentifierId,
        report: Report,
    ) -> Result<ReportId, EffectFault>
        ensures answer { Leaves (intern_report identifier report self.old) result self.new }
        ensures grown { Grows self.old.reports self.new.reports }
    {
        intern_report(&mut self.reports, identifier, report)
    }

    /// Notes that the function only reads its context place.
    pub fn note_read(&mut self, read: ContextRead) -> Result<(), AllocError>
        ensures { OnOk result (self.new ≡ note_read read self.old) }
    {
        if !self.reads.contains(read) {
            self.reads.push(read)?;
        }
        Ok(())
    }
}
