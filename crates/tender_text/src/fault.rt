ghost use Rattle.std.specs.Prelude.{◌≡◌, Some};
ghost use Rattle.tender_text.specs.Fault as faults;
ghost use Rattle.tender_text.specs.declared.fault.TenderFault.TheVariants.{Calendar as ByCalendar, Register as ByRegister};

use book::RegisterFault;
use calendar::CalendarFault;
use std::fmt;

/// Why a tender's text is refused.
#[derive(Clone, Copy, PartialEq, Eq, Debug)]
pub enum TenderFault {
    /// A line, counted from the text's first, breaks the form.
    Form(u32),
    /// The calendar is refused.
    Calendar(CalendarFault),
    /// A need or a sheet is refused as the register would refuse it.
    Register(RegisterFault),
    /// The text is longer than a tender's may be.
    Space,
}

/// A calendar's refusal is passed on whole.
impl From<CalendarFault> for TenderFault {
    ghost from_gives = { λ fault r. r ≡ ByCalendar fault };

    fn from(fault: CalendarFault) -> TenderFault {
        TenderFault::Calendar(fault)
    }
}

/// A register's refusal is passed on whole.
impl From<RegisterFault> for TenderFault {
    ghost from_gives = { λ fault r. r ≡ ByRegister fault };

    fn from(fault: RegisterFault) -> TenderFault {
        TenderFault::Register(fault)
    }
}

impl TenderFault {
    /// The refusal's number.
    pub fn number(self) -> u32
        ensures { result ≡ faults.number self }
    {
        match self {
            TenderFault::Form(_) => 1,
            TenderFault::Calendar(fault) => fault.number(),
            TenderFault::Register(fault) => fault.number(),
            TenderFault::Space => 13,
        }
    }

    /// The refusal's place: a line, a period, or 0 where it has none.
    pub fn place(self) -> u64
        ensures { result ≡ faults.place self }
    {
        match self {
            TenderFault::Form(line) => u64::from(line),
            TenderFault::Calendar(fault) => u64::from(fault.place()),
            TenderFault::Register(fault) => fault.place(),
            TenderFault::Space => 0,
        }
    }
}

/// A refusal is written as its number and its place, each field with its semicolon.
impl fmt::Display for TenderFault {
    ghost output = { λ fault. Some (faults.refusal_text fault) };

    fn fmt<W: fmt::Write>(&self, f: &mut fmt::Formatter<W>) -> fmt::Result {
        let number = self.number();
        let place = self.place();
        write!(f, "refused;{number};{place};")
    }
}
