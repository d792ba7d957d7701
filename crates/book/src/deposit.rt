ghost use Rattle.std.specs.Prelude.{◌≡◌, true, length};
ghost use Rattle.calendar.specs.Month.{day_counts};
ghost use Rattle.book.specs.Places.{all_begin, offers_at, places_of};
ghost use Rattle.book.specs.Within.{within};

use crate::table::MOST_OFFERS;
use calendar::Calendar;
use short_list::ShortList;

/// The places of a text at which its sheets begin, in order.
pub(crate) type Starts = ShortList<usize, MOST_OFFERS>;

/// Several sheets in one text, under the calendar of a month. They stay in the text: a deposit keeps where each begins.
#[derive(Clone, Copy)]
pub struct Deposit<'a> {
    pub(crate) calendar: Calendar,
    pub(crate) text: &'a [u8],
    pub(crate) starts: Starts,
    ghost sheets: { all_begin (length (day_counts calendar)) text.now (places_of starts) ≡ true },
    ghost kept: { within (day_counts calendar) (offers_at (length (day_counts calendar)) text.now (places_of starts)) ≡ true },
}
