ghost use Rattle.std.specs.Prelude.{◌≡◌, ◌≤◌, true, map, vec_items, vec_capacity};
ghost use Rattle.calendar.specs.Month.{day_counts};
ghost use Rattle.sheet.specs.Facts.{facts};
ghost use Rattle.book.specs.Within.{within};

use calendar::Calendar;
use sheet::Offer;

/// The most offers that may stand.
pub const MOST_OFFERS: usize = 32;

/// The offers that stand under the calendar of a month, in order, in a place that was reserved when the table was made.
/// They keep the limits of a book.
#[derive(Drop)]
pub struct Table {
    pub(crate) calendar: Calendar,
    pub(crate) offers: Vec<Offer>,
    ghost room: { 32 ≤ vec_capacity offers },
    ghost kept: { within (day_counts calendar) (map facts (vec_items offers)) ≡ true },
}
