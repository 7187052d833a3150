//! How a run ends.
ghost use Rattle.std.specs.Prelude.{◌≡◌};
ghost use Rattle.alias_run.specs.declared.answer.Answer.TheVariants.{Nothing};
ghost use Rattle.alias_run.specs.Statuses.{status_code};

use crate::answer::Answer;
use crate::status::Status;

/// How a run ends, and what it answers.
#[derive(Drop)]
pub struct Outcome {
    pub status: Status,
    /// `Nothing`, unless the status is `Done` and the command asked about a unit.
    pub answer: Answer,
}

impl Outcome {
    /// The exit status of the program. It takes the outcome, so that the caller has none to drop.
    pub fn into_code(self) -> u8
        ensures { result ≡ status_code self.status }
    {
        self.status.code()
    }
}

/// An outcome with no answer.
pub(crate) fn ended(status: Status) -> Outcome
    ensures { result ≡ record { status = status; answer = Nothing } }
{
    Outcome {
        status,
        answer: Answer::Nothing,
    }
}

/// The outcome of a unit about which something was asked.
pub(crate) fn done(answer: Answer) -> Outcome
    ensures { result ≡ record { status = Status.Done; answer = answer } }
{
    Outcome {
        status: Status::Done,
        answer,
    }
}

/// An outcome with no answer, in place of one whose text couldn't be written.
pub(crate) fn unwritten(_outcome: Outcome, status: Status) -> Outcome
    ensures { result ≡ record { status = status; answer = Nothing } }
{
    ended(status)
}
