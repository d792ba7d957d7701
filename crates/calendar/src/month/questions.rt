ghost use Rattle.std.specs.Prelude.{◌≡◌, ◌≤◌, length, sum};
ghost use Rattle.calendar.specs.Month.{day_counts, days_in};

use crate::month::Calendar;

impl Calendar {
    /// How many periods the month has.
    pub fn periods(&self) -> usize
        ensures value { result ≡ length (day_counts self.now) }
        ensures some { 1 ≤ result }
        ensures few { result ≤ 11 }
    {
        self.days.len()
    }

    /// The day count of each period.
    pub fn day_counts(&self) -> &[u32]
        ensures { result.now ≡ day_counts self.now }
    {
        self.days.as_slice()
    }

    /// The days of a period, counted from 1; none outside the month.
    pub fn days(&self, period: usize) -> Option<u32>
        ensures { result ≡ days_in (day_counts self.now) period }
    {
        self.days.get(period.checked_sub(1)?)
    }

    /// The days of the whole month.
    pub fn month_days(&self) -> u32
        ensures value { result ≡ sum (day_counts self.now) }
        ensures bound { result ≤ 31 }
    {
        self.day_counts().iter().sum()
    }
}
