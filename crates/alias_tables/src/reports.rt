//! The reports that effects name.

ghost use Rattle.std.specs.Prelude.{◌≡◌, OnOk, OnErr};
ghost use Rattle.alias_hir.specs.ReportNumbers.{same_instance, number_of, with_interned};
ghost use Rattle.alias_tables.specs.GrowingLaws.{Grows};
ghost use Rattle.alias_tables.specs.Tables.{Leaves, TableLists, intern_report, with_reports};

use crate::faults::{EffectFault, Refusal};
use alias_base::IdentifierId;
use alias_hir::error::Counter;
use alias_hir::interned::InternedReports;
use alias_hir::report::{Interned, Report, ReportId};
use std::alloc::AllocError;

/// Keeps the report, unless an equal one is kept. `instance` is the number of that one, or of a new one. After an `Err`
/// nothing has changed.
fn keep_report(
    reports: &mut InternedReports,
    instance: usize,
    identifier: IdentifierId,
    report: Report,
) -> Result<(), AllocError>
    requires { instance ≡ number_of (same_instance identifier report) reports.old }
    ensures ok { OnOk result (reports.new ≡ with_interned reports.old identifier report) }
    ensures err { OnErr result (reports.new ≡ reports.old) }
{
    if instance == reports.len() {
        reports.push(Interned { identifier, report })?;
    }
    Ok(())
}

/// The numbers of a report. A new one is kept, and takes the next number. The refusal is `TooMany`, where no number is left
/// for it. After an `Err` nothing has changed.
#[tactic(auto, using(crate::specs::ReportLaws::grows_by_report))]
pub fn intern_report(
    reports: &mut InternedReports,
    identifier: IdentifierId,
    report: Report,
) -> Result<ReportId, EffectFault>
    ensures answer { (t : TableLists) → Leaves (intern_report identifier report (with_reports t reports.old)) result (with_reports t reports.new) }
    ensures err { OnErr result (reports.new ≡ reports.old) }
    ensures grown { Grows reports.old reports.new }
{
    let (identity, instance) = reports.numbers_of(identifier, &report);
    if identity < 4294967295 && instance < 4294967295 {
        keep_report(reports, instance, identifier, report)?;
        Ok(ReportId {
            identity: identity as u32,
            instance: instance as u32,
        })
    } else {
        Err(EffectFault::Refused(Refusal::TooMany(Counter::Diagnostics)))
    }
}
