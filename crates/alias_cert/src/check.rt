//! The check of a certificate: the functions of a unit, innermost first, and then its root.
ghost use Rattle.std.specs.Prelude.{◌≡◌};
ghost use Rattle.alias_cert.specs.Units.{Accepts};

use crate::functions::check_root;
use crate::nested::check_created;
use alias_base::List;
use alias_certificate::{Certificate, CheckFault};
use alias_effects::Solved;
use alias_hir::env::Unit;
use alias_rules::check::Checked;
use std::alloc::Global;

/// Functions are nested in at most so many levels below the root, as the rules say.
const MOST_LEVELS: u32 = 63;

/// A unit whose certificate is accepted.
#[derive(Drop)]
pub struct Accepted {
    /// The unit, with the effects, summaries, ranges and interned reports that the check put there.
    pub unit: Unit,
    /// One solution a function: those below a function before it, the root last. The entry states are the certificate's.
    pub solved: List<Solved>,
}

/// Checks a certificate against a unit that is well formed: whether its entry states solve each function, with the temporaries,
/// the effects and the summaries that it tells. The unit is dropped on `Err`.
///
/// Each reached block of a function steps once, from the entry state that is said. On Ok there is a solution of each function,
/// which solves its flow, under the summaries, ranges and interned reports that the check of the functions before it left; its
/// entry states are the certificate's. docs/MODEL.md has the rules.
///
/// The faults, each exactly where it is the first, functions innermost first and the root last: `Functions`, where the function
/// at a position of the certificate isn't the next one; `Blocks`, `State`, `Temporaries` and `Initial`; then, block by block in
/// stored order, `Step`, `MissingTemporary`, `Effects` and `NotBelow`; then `NotJoin`, and `Summary`. `TooMany` comes where a
/// number is wanting, and `Memory` is out of memory, which can come at any time.
pub fn check_certificate(
    alloc: Global,
    unit: Checked,
    certificate: &Certificate,
) -> Result<Accepted, CheckFault>
    ensures { Accepts certificate.now.functions unit result }
{
    let Unit {
        mut function,
        mut env,
    } = unit.into_unit();
    let functions = certificate.functions.as_slice();
    let mut solved = List::new(alloc);
    check_created(
        alloc,
        functions,
        MOST_LEVELS,
        &function,
        &mut env,
        &mut solved,
    )?;
    check_root(alloc, functions, &mut function, &mut env, &mut solved)?;
    if solved.len() < functions.len() {
        let position = solved.len();
        return Err(CheckFault::Functions { position });
    }
    Ok(Accepted {
        unit: Unit { function, env },
        solved,
    })
}
