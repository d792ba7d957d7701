ghost use Rattle.std.specs.Prelude.{◌≡◌};
ghost use Rattle.book.specs.declared.unread.DepositFault.TheVariants.{Memory, Register as ByRegister};

use crate::fault::RegisterFault;
use std::alloc::AllocError;

/// Why a text is not taken for a deposit.
#[derive(Clone, Copy, PartialEq, Eq, Debug)]
pub enum DepositFault {
    /// There is no memory to judge it in.
    Memory,
    /// A register would refuse one of its sheets.
    Register(RegisterFault),
}

/// Memory that cannot be had.
impl From<AllocError> for DepositFault {
    ghost from_gives = { λ _ r. r ≡ Memory };

    fn from(_fault: AllocError) -> DepositFault {
        DepositFault::Memory
    }
}

/// A register's refusal is passed on whole.
impl From<RegisterFault> for DepositFault {
    ghost from_gives = { λ fault r. r ≡ ByRegister fault };

    fn from(fault: RegisterFault) -> DepositFault {
        DepositFault::Register(fault)
    }
}
