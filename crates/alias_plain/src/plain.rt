//! Whether a unit is plain.
ghost use Rattle.std.specs.Prelude.{◌≡◌, true, Ok, is_some};
ghost use Rattle.alias_base.specs.Answer.{Gives};
ghost use Rattle.alias_base.specs.Find.{value_at};
ghost use Rattle.alias_rules.specs.Functions.{rules_hold};
ghost use Rattle.alias_plain.specs.laws.Answers.{AllPlain, StopsIn, end_in, reports_of, then_nested, unit_end, answer_of, is_fault_memory};
ghost use Rattle.alias_plain.specs.Ends.{EndsAs, EntriesExist};
ghost use Rattle.alias_plain.specs.laws.Scopes.{scope_of};
ghost use Rattle.alias_plain.specs.laws.FunctionLaws.{NamesDiffer};
ghost use Rattle.alias_plain.specs.laws.UnitLaws.{TellsOf};
ghost use Rattle.std.specs.List.{AllByRecursion};
ghost use Rattle.alias_plain.specs.laws.Scans.{scan_function};

use crate::laws::{PlainFault, Plainness, Stop};
use crate::scan::scan_function;
use alias_base::FunctionId;
use alias_hir::env::{Environment, Unit};
use alias_hir::hir::HirFunction;
use alias_hir::interned::InternedReports;
use alias_rules::check::Checked;
use alias_tables::Tables;
use std::alloc::{AllocError, Global};

/// A function that wasn't gone through to the end.
#[derive(Drop)]
pub(crate) struct StoppedIn {
    pub function: Option<FunctionId>,
    pub stop: Stop,
}

fn answer_of(stopped: StoppedIn) -> Result<Plainness, PlainFault>
    ensures { result ≡ answer_of (StopsIn stopped.function stopped.stop) }
{
    let StoppedIn { function, stop } = stopped;
    match stop {
        Stop::Broken { instruction, rule } => Ok(Plainness::NotPlain {
            function,
            instruction,
            rule,
        }),
        Stop::NotSettled => Err(PlainFault::NotSettled { function }),
        Stop::TooMany(which) => Err(PlainFault::TooMany(which)),
        Stop::Memory(e) => Err(PlainFault::Memory(e)),
    }
}

/// Goes through one function, with the reports that those before it have left.
fn scan_next(
    alloc: Global,
    function: Option<FunctionId>,
    func: &HirFunction,
    env: &Environment,
    before: Tables,
) -> Result<Tables, StoppedIn>
    requires { is_some (value_at func.now.body.blocks func.now.body.entry) ≡ true }
    ensures { EndsAs (end_in function (scan_function (scope_of func.now env.now) (reports_of before))) result }
{
    let mut tables = Tables::new(alloc, before.into_parts().reports);
    match scan_function(alloc, func, env, &mut tables) {
        Ok(()) => Ok(tables),
        Err(stop) => Err(StoppedIn { function, stop }),
    }
}

fn scan_nested(alloc: Global, env: &Environment, before: Tables) -> Result<Tables, StoppedIn>
    requires { EntriesExist env.now.functions }
    ensures { EndsAs (then_nested env.now 0 env.now.functions (AllPlain before)) result }
{
    let count = env.functions.len();
    if count > u32::MAX as usize {
        return Err(StoppedIn {
            function: None,
            stop: Stop::Memory(AllocError),
        });
    }
    let mut tables = before;
    let mut number = 0u32;
    for func in env.functions.as_slice() {
        tables = scan_next(alloc, Some(FunctionId(number)), func, env, tables)?;
        number += 1;
    }
    Ok(tables)
}

fn scan_unit(alloc: Global, unit: &Unit) -> Result<Tables, StoppedIn>
    requires { rules_hold unit.now ≡ Ok tt }
    ensures { EndsAs (unit_end unit.now) result }
{
    let tables = Tables::new(alloc, InternedReports::new(alloc));
    let tables = scan_next(alloc, None, &unit.function, &unit.env, tables)?;
    scan_nested(alloc, &unit.env, tables)
}

/// Tells the prover that no two blocks of the function have one name. Does nothing.
fn names_differ(func: &HirFunction)
    ensures { NamesDiffer func.now }
{
    let _count = func.body.blocks.len();
}

/// Tells the prover the same of each of the functions. Does nothing.
fn all_names_differ(functions: &[HirFunction])
    ensures { AllByRecursion NamesDiffer functions.now }
{
    for func in functions {
        names_differ(func);
    }
}

fn decided(alloc: Global, unit: &Unit) -> Result<Plainness, PlainFault>
    requires { rules_hold unit.now ≡ Ok tt }
    ensures { Gives is_fault_memory (answer_of (unit_end unit.now)) result }
{
    match scan_unit(alloc, unit) {
        Ok(_) => Ok(Plainness::Plain),
        Err(stopped) => answer_of(stopped),
    }
}

/// Whether the unit is plain: along each path of edges of each of its functions, what an instruction names is sure where the
/// instruction comes; an instruction's effects make nothing twice; where the row of a called function has an aliasing part, the
/// part makes the result and its temporaries once each and nothing else, and names none of them before; with validations, no
/// function is called that is marked as incompatible; and no spread argument would be frozen.
///
/// `NotPlain` names the first instruction that breaks one of these, the root first and then the nested functions by their numbers,
/// reached blocks in stored order, and the first of the five that it breaks. `NotSettled` names the first function of which a block is
/// still dirty after 100 rounds, where those before it break nothing; `TooMany` comes where no number is left for a temporary or a report. Memory can come at any growth.
pub fn plain_unit(alloc: Global, unit: Checked) -> Result<Plainness, PlainFault>
    ensures answer { Gives is_fault_memory (answer_of (unit_end unit)) result }
    ensures tells { TellsOf unit result }
{
    let unit = unit.into_unit();
    names_differ(&unit.function);
    all_names_differ(unit.env.functions.as_slice());
    decided(alloc, &unit)
}
