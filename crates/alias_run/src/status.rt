//! How a run ends.
ghost use Rattle.std.specs.Prelude.{◌≡◌};
ghost use Rattle.alias_run.specs.Explanations.{explanation};
ghost use Rattle.alias_run.specs.Statuses.{status_code, read_status, text_status, unit_status, cert_status, check_status, brief_status, verify_status, infer_status, explain_status, plain_status, write_status};

use alias_base::Text;
use alias_brief::VerifyFault;
use alias_cert_text::CertFault;
use alias_certificate::CheckFault;
use alias_explain::ExplainFault;
use alias_hir::error::InferError;
use alias_json::fault::TextRule;
use alias_plain::laws::PlainFault;
use alias_read::TextFault;
use alias_rules::function_rules::fault::UnitFault;
use alias_stream::{ReadStop, SinkStop};

/// How a run ends. docs/FORMAT.md has the table of exit statuses and of what each writes.
#[derive(Drop)]
pub enum Status {
    /// The result was written.
    Done,
    /// The words are no command.
    Words,
    /// The input is no JSON, or nests deeper than 127 levels.
    NotJson,
    /// The input is JSON and no unit: the JSON Pointer of the first value that breaks a rule of the format, and the
    /// rule.
    NotUnit { pointer: Text, rule: TextRule },
    /// The unit breaks this rule first.
    Unfit(UnitFault),
    /// The line of the certificate with this number, from 1, is the first that isn't in the grammar.
    BadLine(usize),
    /// The certificate isn't accepted, for this reason first.
    Rejected(CheckFault),
    /// The line of the certificate with this number, from 1, is the first that differs from what follows, and this line
    /// follows there: an empty one, where nothing does.
    Differs { number: usize, line: Text },
    /// It isn't known whether the unit is plain.
    PlainRefused(PlainFault),
    /// The inference refuses the unit.
    Refused(InferError),
    /// The identifier doesn't stand in the function that it was asked of.
    NotHere,
    /// The source failed.
    ReadFault,
    /// The sink failed. What was written is the front of the text.
    WriteFault,
    /// The source had more than 16,777,216 bytes.
    TooLong,
    /// Memory ran out, which can happen at any growth.
    Memory,
}

impl Status {
    /// The exit status of the program. Takes no memory.
    pub fn code(&self) -> u8
        ensures { result ≡ status_code self.now }
    {
        match self {
            Status::Done => 0,
            Status::Words => 2,
            Status::NotJson => 3,
            Status::NotUnit { .. } => 4,
            Status::Unfit(_) => 5,
            Status::Refused(_) => 6,
            Status::ReadFault => 7,
            Status::WriteFault => 8,
            Status::TooLong => 9,
            Status::Memory => 10,
            Status::BadLine(_) => 12,
            Status::Rejected(_) => 13,
            Status::NotHere => 14,
            Status::PlainRefused(_) => 15,
            Status::Differs { .. } => 16,
        }
    }

    /// What is wrong and what to look at, for a person: nothing where the status is `Done`. Takes no memory.
    pub fn explanation(&self) -> &'static str
        ensures { result.now ≡ explanation self.now }
    {
        match self {
            Status::Done => "",
            Status::Words => "the words are no command: see jirrambeo --help",
            Status::NotJson => {
                "the input is no JSON, or nests deeper than 127 levels: see docs/FORMAT.md, The input"
            }
            Status::NotUnit { .. } => {
                "the input is JSON, and the value at this JSON Pointer doesn't fit a unit: see docs/FORMAT.md, The input"
            }
            Status::Unfit(_) => {
                "the unit breaks the rule of this number: see docs/FORMAT.md, The rules of a well-formed unit"
            }
            Status::BadLine(_) => {
                "the line of this number of the certificate isn't in the grammar: see docs/FORMAT.md, Certificates"
            }
            Status::Rejected(_) => {
                "the certificate isn't one of the unit: see docs/FORMAT.md, Certificates"
            }
            Status::Differs { .. } => {
                "the line of this number of the certificate isn't the one that follows: see docs/FORMAT.md, Brief certificates"
            }
            Status::PlainRefused(_) => {
                "it isn't known whether the unit is plain: see docs/FORMAT.md, Statuses"
            }
            Status::Refused(_) => "the unit can't be inferred: see docs/FORMAT.md, Statuses",
            Status::NotHere => {
                "the identifier doesn't stand in that function, or is of its context: see docs/FORMAT.md, Statuses"
            }
            Status::ReadFault => "the input couldn't be read to its end: see where it comes from",
            Status::WriteFault => {
                "the output couldn't be written to its end: see where it goes to"
            }
            Status::TooLong => "the input has more than 16,777,216 bytes",
            Status::Memory => "memory ran out",
        }
    }
}

/// The status of an input that couldn't be read to its end.
impl From<ReadStop> for Status {
    ghost from_gives = { λ stop status. status ≡ read_status stop };

    fn from(stop: ReadStop) -> Status {
        match stop {
            ReadStop::Failed => Status::ReadFault,
            ReadStop::TooLong => Status::TooLong,
            ReadStop::Memory(_) => Status::Memory,
        }
    }
}

/// The status of an input that spells no unit.
impl From<TextFault> for Status {
    ghost from_gives = { λ fault status. status ≡ text_status fault };

    fn from(fault: TextFault) -> Status {
        match fault {
            TextFault::NotJson => Status::NotJson,
            TextFault::NotUnit { pointer, rule } => Status::NotUnit { pointer, rule },
            TextFault::Memory(_) => Status::Memory,
        }
    }
}

/// The status of a unit that breaks a rule.
impl From<UnitFault> for Status {
    ghost from_gives = { λ fault status. status ≡ unit_status fault };

    fn from(fault: UnitFault) -> Status {
        match fault {
            UnitFault::Memory(_) => Status::Memory,
            broken => Status::Unfit(broken),
        }
    }
}

/// The status of a text that is no certificate.
impl From<CertFault> for Status {
    ghost from_gives = { λ fault status. status ≡ cert_status fault };

    fn from(fault: CertFault) -> Status {
        match fault {
            CertFault::BadLine { number } => Status::BadLine(number),
            CertFault::Memory(_) => Status::Memory,
        }
    }
}

/// The status of a certificate that isn't accepted.
impl From<CheckFault> for Status {
    ghost from_gives = { λ fault status. status ≡ check_status fault };

    fn from(fault: CheckFault) -> Status {
        match fault {
            CheckFault::Memory(_) => Status::Memory,
            rejected => Status::Rejected(rejected),
        }
    }
}

/// The status of a text that isn't the one that follows for a unit.
impl From<VerifyFault> for Status {
    ghost from_gives = { λ fault status. status ≡ verify_status fault };

    fn from(fault: VerifyFault) -> Status {
        match fault {
            VerifyFault::BadLine(number) => Status::BadLine(number),
            VerifyFault::Rejected(rejected) => Status::Rejected(rejected),
            VerifyFault::Differs { number, line } => Status::Differs { number, line },
            VerifyFault::Memory(_) => Status::Memory,
        }
    }
}

/// The status of a unit for which no text follows: a number that is wanting is told as the inference tells it.
pub(crate) fn brief_status(fault: CheckFault) -> Status
    ensures { result ≡ brief_status fault }
{
    match fault {
        CheckFault::TooMany { which } => Status::Refused(InferError::TooMany { which }),
        CheckFault::Memory(_) => Status::Memory,
        rejected => Status::Rejected(rejected),
    }
}

/// The status of a unit that the inference refuses.
impl From<InferError> for Status {
    ghost from_gives = { λ error status. status ≡ infer_status error };

    fn from(error: InferError) -> Status {
        match error {
            InferError::Memory(_) => Status::Memory,
            refused => Status::Refused(refused),
        }
    }
}

/// The status of a range that isn't explained.
impl From<ExplainFault> for Status {
    ghost from_gives = { λ fault status. status ≡ explain_status fault };

    fn from(fault: ExplainFault) -> Status {
        match fault {
            ExplainFault::NotHere => Status::NotHere,
            ExplainFault::TooMany { which } => Status::Refused(InferError::TooMany { which }),
            ExplainFault::Memory(_) => Status::Memory,
        }
    }
}

/// The status of a unit of which it isn't known whether it is plain.
impl From<PlainFault> for Status {
    ghost from_gives = { λ fault status. status ≡ plain_status fault };

    fn from(fault: PlainFault) -> Status {
        match fault {
            PlainFault::Memory(_) => Status::Memory,
            refused => Status::PlainRefused(refused),
        }
    }
}

/// The status of a text that couldn't be written to its end.
impl From<SinkStop> for Status {
    ghost from_gives = { λ stop status. status ≡ write_status stop };

    fn from(stop: SinkStop) -> Status {
        match stop {
            SinkStop::Failed => Status::WriteFault,
            SinkStop::Memory(_) => Status::Memory,
        }
    }
}
