//! The tender that a text tells of, and what is printed for it.
ghost use Rattle.std.specs.Prelude.{◌≡◌, IfOk};
ghost use Rattle.tender_text.specs.Answer.{Answered, of_deposit};
ghost use Rattle.tender_text.specs.Report.{answered, report as report_of};
ghost use Rattle.tender_text.specs.declared.answer.AnswerFault.TheVariants.{Refused};

use crate::fault::TenderFault;
use crate::needs::need_line;
use crate::opening::FirstLines;
use crate::printing::tables;
use book::{DepositFault, Register};
use std::alloc::{AllocError, Global};

/// A tender's text has at most so many bytes.
pub const MOST_BYTES: usize = 32_768;

/// The lines before the sheets.
const LINES_BEFORE: u8 = 4;

/// Why a tender's text has no answer but this.
#[derive(Clone, Copy, PartialEq, Eq, Debug)]
pub enum AnswerFault {
    /// The text is refused.
    Refused(TenderFault),
    /// There is no memory for the tender.
    Memory,
}

/// A tender's refusal is passed on whole.
impl From<TenderFault> for AnswerFault {
    ghost from_gives = { λ fault r. r ≡ Refused fault };

    fn from(fault: TenderFault) -> AnswerFault {
        AnswerFault::Refused(fault)
    }
}

/// A register's refusal is passed on whole, as the tender's.
impl From<DepositFault> for AnswerFault {
    ghost from_gives = { λ fault r. r ≡ of_deposit fault };

    fn from(fault: DepositFault) -> AnswerFault {
        match fault {
            DepositFault::Register(fault) => AnswerFault::Refused(TenderFault::from(fault)),
            DepositFault::Memory => AnswerFault::Memory,
        }
    }
}

/// The register of the tender that a text tells of: its month and its offers.
pub fn read_tender(heap: Global, input: &[u8]) -> Result<Register, AnswerFault>
    ensures { Answered (answered input.now) result }
{
    if input.len() > MOST_BYTES {
        return Err(AnswerFault::Refused(TenderFault::Space));
    }
    let first = FirstLines::read(input)?;
    let calendar = first.open()?;
    let (_, rest) = need_line(3, &calendar, first.rest)?;
    let (_, sheets) = need_line(4, &calendar, rest)?;
    Ok(Register::of_deposit(heap, calendar, LINES_BEFORE, sheets)?)
}

/// What is printed for a tender's text: the tables of its periods and its offers, or the refusal.
pub fn report(heap: Global, input: &[u8]) -> Result<Vec<u8>, AllocError>
    ensures { IfOk result (λ v. v.items ≡ report_of (answered input.now)) }
{
    match read_tender(heap, input) {
        Ok(register) => tables(heap, register.calendar(), register.standing()),
        Err(AnswerFault::Refused(fault)) => Ok(format!(in heap; "{fault}\n")?.into_bytes()),
        Err(AnswerFault::Memory) => Err(AllocError),
    }
}
