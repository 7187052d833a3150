//! What follows for a unit: its functions, innermost first, and then its root.
ghost use Rattle.std.specs.Prelude.{◌≡◌, []};
ghost use Rattle.alias_validate.specs.Reports.{with_errors};
ghost use Rattle.alias_follow.specs.Units.{Follows};

use crate::function::FunctionBeyond;
use crate::functions::{Handed, follow_root};
use crate::nested::follow_created;
use alias_base::List;
use alias_certificate::{Certificate, CheckFault};
use alias_hir::env::{Environment, Unit};
use alias_hir::report::Report;
use alias_nested::Inferred;
use alias_rules::check::Checked;
use std::alloc::Global;
use std::mem;

/// Functions are nested in at most so many levels below the root, as the rules say.
const MOST_LEVELS: u32 = 63;

/// What follows for a unit.
pub struct Followed {
    /// What an inference hands out, of one pass over each function.
    pub inferred: Inferred,
    /// What the entry states have beyond what arrived, one a function, in the order of the solutions.
    pub beyond: List<FunctionBeyond>,
}

impl Drop for Followed {
    fn drop(self) {
        let Followed {
            inferred: _,
            beyond: _,
        } = self;
    }
}

/// The reports, which are taken out of the environment.
fn take_reports(alloc: Global, env: &mut Environment) -> List<Report>
    ensures reports { result ≡ env.old.errors }
    ensures taken { env.new ≡ with_errors env.old [] }
{
    mem::replace(&mut env.errors, List::new(alloc))
}

/// What follows for a unit that is well formed from what is given of its functions. The unit is dropped on `Err`.
///
/// The functions are taken in the order of the inference. Each reached block of a function steps once, in stored order, from
/// what arrives over the edges that go forward: in a function each of whose edges goes forward as it is, and else raised by
/// the lines that are given for the block. Its out state has to be below the entry state of each block that an edge goes back
/// to. In such a function steps ask for those temporaries alone that are given. A nested function is finished as the inference
/// finishes it; the range pass gives the root's summary, and both validations follow.
///
/// Of what is given of a function that isn't forward the first counts, and of what is said there of a block the first. Effects,
/// summaries and what is said of other functions aren't looked at.
///
/// The faults, each exactly where it is the first, functions innermost first and the root last: `Temporaries`; then, block by
/// block in stored order, `State`, `Step`, `MissingTemporary` and `NotBelow`. `TooMany` comes where a number is wanting, and
/// `Memory` is out of memory, which can come at any time.
pub fn follow(alloc: Global, unit: Checked, given: &Certificate) -> Result<Followed, CheckFault>
    ensures { Follows given.now.functions unit result }
{
    let Unit {
        mut function,
        mut env,
    } = unit.into_unit();
    let functions = given.functions.as_slice();
    let solved = List::new(alloc);
    let beyond = List::new(alloc);
    let mut handed = Handed { solved, beyond };
    follow_created(
        alloc,
        functions,
        MOST_LEVELS,
        &function,
        &mut env,
        &mut handed,
    )?;
    let summary = follow_root(alloc, functions, &mut function, &mut env, &mut handed)?;
    let reports = take_reports(alloc, &mut env);
    let Handed { solved, beyond } = handed;
    Ok(Followed {
        inferred: Inferred {
            unit: Unit { function, env },
            solved,
            summary,
            reports,
        },
        beyond,
    })
}
