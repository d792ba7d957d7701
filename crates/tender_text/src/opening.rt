ghost use Rattle.std.specs.Prelude.{◌≡◌, ◌≤◌, length, IfOk};
ghost use Rattle.text.specs.Lines.{values_of};
ghost use Rattle.tender_text.specs.Opening.{first_lines, lines_read, month_of, month_read, month_told, told};
ghost use Rattle.tender_text.specs.Opening.{numbers as numbers_of, numbers_read};

use crate::fault::TenderFault;
use calendar::{Calendar, CalendarFault, is_announced};
use text::{Values, number_line};

/// The fields of the first line: the year, the month and the number of holidays.
const HEAD_FIELDS: usize = 3;

/// What the first two lines of a tender's text tell, and what follows them.
#[derive(Clone, Copy)]
pub struct FirstLines<'a> {
    pub year: u64,
    pub month: u64,
    pub holidays: Values,
    pub rest: &'a [u8],
}

/// The numbers of a line, which is counted from the text's first, and what follows it.
pub(crate) fn numbers<'a>(
    line: u32,
    count: usize,
    text: &'a [u8],
) -> Result<(Values, &'a [u8]), TenderFault>
    requires { count ≤ 11 }
    ensures value { numbers_read result ≡ numbers_of line count text.now }
    ensures long { IfOk result (λ read. length (values_of read.0) ≡ count) }
{
    number_line(text, count).ok_or(TenderFault::Form(line))
}

impl<'a> FirstLines<'a> {
    /// Reads the first two lines.
    pub fn read(text: &'a [u8]) -> Result<FirstLines<'a>, TenderFault>
        ensures { lines_read result ≡ first_lines text.now }
    {
        let (head, rest) = numbers(1, HEAD_FIELDS, text)?;
        let head = head.as_slice();
        let (year, month, count) = (head[0], head[1], head[2]);
        if !is_announced(year, month, count) {
            return Err(TenderFault::Calendar(CalendarFault::Date));
        }
        let (holidays, rest) = numbers(2, count as usize, rest)?;
        Ok(FirstLines {
            year,
            month,
            holidays,
            rest,
        })
    }

    /// Opens the calendar of the month that they tell of.
    pub fn open(&self) -> Result<Calendar, TenderFault>
        ensures { month_read result ≡ month_told (told self.now) }
    {
        Ok(Calendar::open(self.year, self.month, self.holidays.as_slice())?)
    }
}

/// The calendar of the month that a tender's text tells of in its first two lines.
pub fn open_month(text: &[u8]) -> Result<Calendar, TenderFault>
    ensures { month_read result ≡ month_of text.now }
{
    FirstLines::read(text)?.open()
}
