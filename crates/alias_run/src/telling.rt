//! What the program tells of itself.
ghost use Rattle.std.specs.Prelude.{◌≡◌, IfOk};
ghost use Rattle.alias_run.specs.Texts.{commands_text, statuses_text, help_text};

use alias_base::Text;
use std::alloc::{AllocError, Global};

/// What `--help` writes of the commands.
const COMMANDS: &str = "\
jirrambeo infers what code may alias, freeze and write.

  jirrambeo infer < unit.json     writes what is inferred of a unit
  jirrambeo certify < unit.json   writes also what a checker of it needs
  jirrambeo check                 reads a unit, a newline and what certify writes of it,
                                  and writes whether that is a certificate of the unit
  jirrambeo brief < unit.json     writes what infer writes, and what loops need besides
  jirrambeo verify                reads a unit, a newline and what brief writes of it,
                                  and writes whether each line is the one that follows
  jirrambeo lint < unit.json      writes each report with the place that it comes from
  jirrambeo explain <function> <identifier> < unit.json
                                  writes why a range ends where it does
  jirrambeo explain <function> < unit.json
                                  writes that of each identifier of the function
  jirrambeo plain < unit.json     writes whether no rule of the inference can refuse it,
                                  where its functions settle
  jirrambeo made <seed> <size>    makes a unit of 1 to 1,000 blocks, and writes counts
  jirrambeo --help                writes this
  jirrambeo --version             writes name and version

";

/// What it writes of the statuses.
const STATUSES: &str = "\
It ends with one of these statuses:

  0   done
  1   the words can't be had, or the program can't be built
  2   the words are no command
  3   the input is no JSON
  4   the input is no unit
  5   the unit breaks a rule
  6   the inference refuses the unit
  7   the input can't be read
  8   the output can't be written
  9   the input is too long
  10  memory ran out
  12  a line of the certificate isn't in the grammar
  13  the certificate isn't one of the unit
  14  the identifier doesn't stand in that function
  15  it isn't known whether the unit is plain
  16  a line of the certificate isn't the one that follows

docs/FORMAT.md describes units, what is written of them, and refusals.
";

/// What `--version` writes.
pub(crate) const VERSION: &str = "jirrambeo 0.1.0\n";

fn commands(alloc: Global) -> Result<Text, AllocError>
    ensures { IfOk result (λ t. t ≡ commands_text) }
{
    Text::from_str(alloc, COMMANDS)
}

fn statuses(alloc: Global) -> Result<Text, AllocError>
    ensures { IfOk result (λ t. t ≡ statuses_text) }
{
    Text::from_str(alloc, STATUSES)
}

/// What `--help` writes.
pub(crate) fn help(alloc: Global) -> Result<Text, AllocError>
    ensures { IfOk result (λ t. t ≡ help_text) }
{
    let mut out = commands(alloc)?;
    let statuses = statuses(alloc)?;
    out.push_str(statuses.as_str())?;
    Ok(out)
}
