//! A register is made from a deposit.
ghost use Rattle.std.specs.Prelude.{length};
ghost use Rattle.calendar.specs.Month.{day_counts};
ghost use Rattle.book.specs.Deposit.{deposited};
ghost use Rattle.book.specs.Entering.{Deposited};

use crate::register::Register;
use crate::table::Table;
use crate::unread::DepositFault;
use calendar::Calendar;
use std::alloc::Global;

impl Register {
    /// The register of a month into which the sheets of a text have entered in turn, with so many lines before them.
    pub fn of_deposit(
        heap: Global,
        calendar: Calendar,
        lines_before: u8,
        text: &[u8],
    ) -> Result<Register, DepositFault>
        ensures { Deposited calendar (deposited (length (day_counts calendar)) lines_before text.now) result }
    {
        let (table, _) = Table::of_sheets(heap, calendar, lines_before, text)?;
        Ok(Register::with(table))
    }
}
