//! The sheets of a text enter an empty table in turn.
ghost use Rattle.std.specs.Prelude.{◌≡◌, ◌≤◌, length, IfOk};
ghost use Rattle.calendar.specs.Month.{day_counts};
ghost use Rattle.book.specs.Deposit.{deposited};
ghost use Rattle.book.specs.Reading.{FirstEnters, SheetsRead};
ghost use Rattle.book.specs.Table.{days_of, offers_of, periods_of};

use crate::deposit::Starts;
use crate::fault::RegisterFault;
use crate::table::Table;
use crate::unread::DepositFault;
use calendar::Calendar;
use sheet::read_sheet;
use std::alloc::Global;

impl Table {
    /// Lets the first sheet of a text enter, and tells its lines and what follows it.
    fn enter_first<'a>(
        &mut self,
        lines_before: u16,
        text: &'a [u8],
    ) -> Result<(u32, &'a [u8]), RegisterFault>
        ensures entered { FirstEnters (periods_of self.old) lines_before text.now (offers_of self.old) result (offers_of self.new) }
        ensures few { IfOk result (λ told. told.0 ≤ 21) }
        ensures days { days_of self.new ≡ days_of self.old }
    {
        let (offer, rest) = read_sheet(self.calendar.periods(), lines_before, text)?;
        let lines = offer.lines();
        self.enter(offer)?;
        Ok((lines, rest))
    }

    /// The table of a month into which the sheets of a text have entered in turn, with so many lines before them, and
    /// where they begin.
    pub(crate) fn of_sheets(
        heap: Global,
        calendar: Calendar,
        lines_before: u8,
        text: &[u8],
    ) -> Result<(Table, Starts), DepositFault>
        ensures { SheetsRead (day_counts calendar) text.now (deposited (length (day_counts calendar)) lines_before text.now) result }
    {
        let mut table = Table::open(heap, calendar)?;
        let mut starts = Starts::new();
        let mut before = u16::from(lines_before);
        let mut rest = text;
        while !rest.is_empty() {
            let place = text.len() - rest.len();
            let (lines, after) = table.enter_first(before, rest)?;
            starts.push(place);
            before += lines as u16;
            rest = after;
        }
        Ok((table, starts))
    }
}
