//! Lints, appended.
ghost use Rattle.std.specs.Prelude.{◌≡◌, ◌++◌, OnOk};
ghost use Rattle.alias_lint.specs.Sites.{lints_at};

use crate::{Lint, Site};
use alias_base::List;
use alias_hir::report::Report;
use std::alloc::AllocError;

/// Appends reports that come from one place.
pub(crate) fn push_lints(
    lints: &mut List<Lint>,
    site: Site,
    reports: List<Report>,
) -> Result<(), AllocError>
    ensures { OnOk result (lints.new ≡ lints.old ++ lints_at site reports) }
{
    for report in reports.into_vec() {
        lints.push(Lint { site, report })?;
    }
    Ok(())
}

/// Appends lints.
pub(crate) fn push_all(lints: &mut List<Lint>, more: List<Lint>) -> Result<(), AllocError>
    ensures { OnOk result (lints.new ≡ lints.old ++ more) }
{
    for lint in more.into_vec() {
        lints.push(lint)?;
    }
    Ok(())
}
