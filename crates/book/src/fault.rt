ghost use Rattle.std.specs.Prelude.{◌≡◌};
ghost use Rattle.book.specs.Fault.{number_and_place};
ghost use Rattle.book.specs.declared.fault.RegisterFault.TheVariants.{Sheet as BySheet, Space as NoSpace};

use sheet::{SaveFault, SheetFault};

/// Why a register refuses a call.
#[derive(Clone, Copy, PartialEq, Eq, Debug)]
pub enum RegisterFault {
    /// The sheet is refused.
    Sheet(SheetFault),
    /// The offer stands already.
    Known,
    /// The offer stands nowhere.
    Unknown,
    /// No more offers can stand.
    Full,
    /// In this period the candidate would have too many ranges.
    Pairs(u32),
    /// The product would have too many MW.
    Volume,
    /// There would be too many blocks.
    Blocks,
    /// The period, as it was given, is not in the month, or a need is too high.
    Period(u64),
    /// The buffer is too short.
    Space,
}

/// A sheet's refusal is passed on whole.
impl From<SheetFault> for RegisterFault {
    ghost from_gives = { λ fault r. r ≡ BySheet fault };

    fn from(fault: SheetFault) -> RegisterFault {
        RegisterFault::Sheet(fault)
    }
}

/// A sheet has no room in the buffer.
impl From<SaveFault> for RegisterFault {
    ghost from_gives = { λ _ r. r ≡ NoSpace };

    fn from(_fault: SaveFault) -> RegisterFault {
        RegisterFault::Space
    }
}

impl RegisterFault {
    /// The refusal's number.
    pub fn number(self) -> u32
        ensures { result ≡ (number_and_place self).0 }
    {
        match self {
            RegisterFault::Sheet(fault) => fault.number(),
            RegisterFault::Known => 6,
            RegisterFault::Unknown => 7,
            RegisterFault::Full => 8,
            RegisterFault::Pairs(_) => 9,
            RegisterFault::Volume => 10,
            RegisterFault::Blocks => 11,
            RegisterFault::Period(_) => 12,
            RegisterFault::Space => 13,
        }
    }

    /// The refusal's place: a sheet's line, a period, or 0.
    pub fn place(self) -> u64
        ensures { result ≡ (number_and_place self).1 }
    {
        match self {
            RegisterFault::Sheet(fault) => u64::from(fault.place()),
            RegisterFault::Pairs(period) => u64::from(period),
            RegisterFault::Period(period) => period,
            _ => 0,
        }
    }
}
