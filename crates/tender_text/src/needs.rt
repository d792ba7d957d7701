//! The lines of the needs.
ghost use Rattle.std.specs.Prelude.{◌≡◌, length};
ghost use Rattle.calendar.specs.Month.{day_counts};
ghost use Rattle.tender_text.specs.Needs.{first_high as first_high_of, need_line as need_line_of};
ghost use Rattle.tender_text.specs.Opening.{numbers_read};

use crate::fault::TenderFault;
use crate::opening::numbers;
use book::{HIGHEST_NEED, RegisterFault};
use calendar::Calendar;
use text::Values;

/// Where the first need that is too high stands, counted from 0.
fn first_high(needs: &[u64]) -> Option<usize>
    ensures { result ≡ first_high_of needs.now }
{
    needs.iter().position(|need| *need > HIGHEST_NEED)
}

/// The needs of one product in a month of that calendar, and what follows their line.
pub(crate) fn need_line<'a>(
    line: u32,
    calendar: &Calendar,
    text: &'a [u8],
) -> Result<(Values, &'a [u8]), TenderFault>
    ensures { numbers_read result ≡ need_line_of line (length (day_counts calendar.now)) text.now }
{
    let (needs, rest) = numbers(line, calendar.periods(), text)?;
    match first_high(needs.as_slice()) {
        Some(past) => Err(TenderFault::Register(RegisterFault::Period(past as u64 + 1))),
        None => Ok((needs, rest)),
    }
}
