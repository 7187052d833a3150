//! The operands of a call.

ghost use Rattle.std.specs.Prelude.{◌≡◌, ◌++◌, IfOk, OnOk};
ghost use Rattle.alias_step.specs.Operands.{held_call, same_place, plain, spread, argument_operands, operands};

use crate::call::{Call, Operand};
use alias_base::List;
use alias_hir::place::{Place, PlaceOrSpreadOrHole};
use std::alloc::{AllocError, Global};

/// Whether two places are of one identifier.
pub(crate) fn same_place(a: Place, b: Place) -> bool
    ensures { result ≡ same_place a b }
{
    a.identifier.0 == b.identifier.0
}

fn plain(place: Place) -> Operand
    ensures { result ≡ plain place }
{
    Operand {
        place,
        is_spread: false,
    }
}

fn spread(place: Place) -> Operand
    ensures { result ≡ spread place }
{
    Operand {
        place,
        is_spread: true,
    }
}

/// Appends the arguments without holes.
fn push_arguments(all: &mut List<Operand>, args: &[PlaceOrSpreadOrHole]) -> Result<(), AllocError>
    ensures { OnOk result (all.new ≡ all.old ++ argument_operands args.now) }
{
    for argument in args {
        match argument {
            PlaceOrSpreadOrHole::Place(place) => all.push(plain(*place))?,
            PlaceOrSpreadOrHole::Spread(pattern) => all.push(spread(pattern.place))?,
            PlaceOrSpreadOrHole::Hole => {}
        }
    }
    Ok(())
}

/// Receiver, function, and the arguments without holes.
pub(crate) fn operands(alloc: Global, call: &Call<'_>) -> Result<List<Operand>, AllocError>
    ensures { IfOk result (λ l. l ≡ operands (held_call call.now)) }
{
    let mut all = List::new(alloc);
    all.push(plain(call.site.receiver))?;
    all.push(plain(call.function))?;
    push_arguments(&mut all, call.args)?;
    Ok(all)
}
