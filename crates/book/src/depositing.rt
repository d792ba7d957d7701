//! A deposit is read.
ghost use Rattle.std.specs.Prelude.{◌≡◌, [], length};
ghost use Rattle.calendar.specs.Month.{day_counts};
ghost use Rattle.book.specs.Deposit.{deposited};
ghost use Rattle.book.specs.Reading.{Deposited, Opened, days_of, sheets_of};

use crate::deposit::{Deposit, Starts};
use crate::table::Table;
use crate::unread::DepositFault;
use calendar::Calendar;
use std::alloc::Global;

impl<'a> Deposit<'a> {
    /// A deposit of no sheet.
    pub fn new(calendar: Calendar) -> Deposit<'a>
        ensures days { days_of result ≡ day_counts calendar }
        ensures sheets { sheets_of result ≡ [] }
    {
        Deposit {
            calendar,
            text: &[],
            starts: Starts::new(),
        }
    }

    /// The deposit of the sheets of a text, with so many lines before it. They are refused as a new register would refuse
    /// them in turn.
    pub fn open(
        heap: Global,
        calendar: Calendar,
        lines_before: u8,
        text: &'a [u8],
    ) -> Result<Deposit<'a>, DepositFault>
        ensures { Opened (day_counts calendar) (deposited (length (day_counts calendar)) lines_before text.now) result }
    {
        let (_, starts) = Table::of_sheets(heap, calendar, lines_before, text)?;
        Ok(Deposit {
            calendar,
            text,
            starts,
        })
    }

    /// Takes the sheets of a text, with so many lines before it, in place of those that it had. They are refused as
    /// a new register would refuse them in turn, and the deposit is then as before.
    pub fn read(
        &mut self,
        heap: Global,
        lines_before: u8,
        text: &'a [u8],
    ) -> Result<(), DepositFault>
        ensures sheets { Deposited (deposited (length (days_of self.old)) lines_before text.now) (sheets_of self.old) (sheets_of self.new) result }
        ensures days { days_of self.new ≡ days_of self.old }
    {
        *self = Deposit::open(heap, self.calendar, lines_before, text)?;
        Ok(())
    }
}
