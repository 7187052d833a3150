//! `brief`: the text that follows for a unit; and why a text isn't that.
ghost use Rattle.std.specs.Prelude.{◌≡◌, IfOk, OnOk};
ghost use Rattle.alias_base.specs.Answer.{Gives};
ghost use Rattle.alias_cert.specs.function.Faults.{is_memory};
ghost use Rattle.alias_brief.specs.Briefs.{brief_text};
ghost use Rattle.alias_brief.specs.Fitting.{IsFitting, IsFittingText};
ghost use Rattle.alias_brief.specs.Verifying.{brief_of, text_fault_of, check_fault_of};
ghost use Rattle.alias_brief.specs.declared.calls.VerifyFault.TheVariants.{Memory};

use crate::briefs::push_brief;
use crate::saying::said;
use alias_base::Text;
use alias_cert_text::CertFault;
use alias_certificate::CheckFault;
use alias_effects::Solved;
use alias_follow::{Followed, follow};
use alias_rules::check::Checked;
use std::alloc::{AllocError, Global};

/// Why a text isn't the one that follows for a unit.
#[derive(Drop)]
pub enum VerifyFault {
    /// The line of this number, from 1, is the first that isn't in the grammar of certificates.
    BadLine(usize),
    /// What the text gives can't be followed, for this reason first.
    Rejected(CheckFault),
    /// The line of this number, from 1, is the first that differs, and this line follows there: an empty one, where
    /// nothing does.
    Differs { number: usize, line: Text },
    /// Out of memory, which can come at any growth.
    Memory(AllocError),
}

impl From<AllocError> for VerifyFault {
    ghost from_gives = { λ e fault. fault ≡ Memory e };

    fn from(e: AllocError) -> VerifyFault {
        VerifyFault::Memory(e)
    }
}

impl From<CertFault> for VerifyFault {
    ghost from_gives = { λ fault found. found ≡ text_fault_of fault };

    fn from(fault: CertFault) -> VerifyFault {
        match fault {
            CertFault::BadLine { number } => VerifyFault::BadLine(number),
            CertFault::Memory(e) => VerifyFault::Memory(e),
        }
    }
}

impl From<CheckFault> for VerifyFault {
    ghost from_gives = { λ fault found. found ≡ check_fault_of fault };

    fn from(fault: CheckFault) -> VerifyFault {
        match fault {
            CheckFault::Memory(e) => VerifyFault::Memory(e),
            rejected => VerifyFault::Rejected(rejected),
        }
    }
}

/// The text of what follows for a unit. The one error is out of memory.
pub fn text_of(alloc: Global, followed: &Followed) -> Result<Text, AllocError>
    ensures text { IfOk result (λ text. text ≡ brief_text followed.now) }
    ensures fits { OnOk result (IsFitting followed.now) }
{
    let mut text = Text::new(alloc);
    push_brief(alloc, &mut text, followed)?;
    Ok(text)
}

/// The text that follows for a unit that is well formed from the entry states and the temporaries of these solutions, as
/// those of its inference. The unit is dropped on `Err`. Of what an inference hands out there is a text, unless no number is
/// left for a report, or memory runs out.
pub fn brief(alloc: Global, unit: Checked, solved: &[Solved]) -> Result<Text, CheckFault>
    ensures text { Gives is_memory (brief_of solved.now unit) result }
    ensures fits { IfOk result (λ text. IsFittingText solved.now unit text) }
{
    let given = said(alloc, solved)?;
    let followed = follow(alloc, unit, &given)?;
    let text = text_of(alloc, &followed)?;
    Ok(text)
}
