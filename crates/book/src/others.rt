ghost use Rattle.std.specs.Prelude.{◌+◌, ◌≤◌, length};

use calendar::Calendar;
use sheet::Offer;

/// The offers beside which one is judged, under the calendar of their month: those before its place and those after it.
#[derive(Clone, Copy)]
pub struct Others<'a> {
    pub(crate) calendar: &'a Calendar,
    pub(crate) before: &'a [Offer],
    pub(crate) after: &'a [Offer],
    ghost few: { length before.now + length after.now ≤ 32 },
}
