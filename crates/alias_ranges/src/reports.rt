//! Reports that are taken back.
ghost use Rattle.std.specs.Prelude.{◌≡◌, ◌≤◌, length, take};

use alias_base::List;
use alias_hir::report::Report;

/// Drops the last reports, so that `len` are left.
pub(crate) fn truncate(reports: &mut List<Report>, len: usize)
    requires { len ≤ length reports.old }
    ensures { reports.new ≡ take len reports.old }
{
    while reports.len() > len {
        let _last = reports.pop();
    }
}
