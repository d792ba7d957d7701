ghost use Rattle.std.specs.Prelude.{◌≡◌, ◌/◌, ◌<◌, ◌≤◌};
ghost use Rattle.calendar.specs.Date.{month_length, first_weekday};
ghost use Rattle.calendar.specs.Periods.{since_monday, working, part, by_week};

use crate::date::{Month, WEEK};

/// The working days of a week: its first five, Monday to Friday.
const WORKING_DAYS: u32 = 5;

/// A month touches at most six weeks, and each has working days and other days.
const PARTS: usize = 12;

/// The days of a month: the weekday of the first, how many there are, and the holidays among them.
#[derive(Clone, Copy)]
pub(crate) struct MonthDays<'a> {
    first: u32,
    days: u32,
    holidays: &'a [u64],
    ghost early: { first < 7 },
    ghost some: { 1 ≤ days },
    ghost short: { days ≤ 31 },
}

impl<'a> MonthDays<'a> {
    pub(crate) fn new(month: Month, holidays: &'a [u64]) -> MonthDays<'a>
        ensures first { result.first ≡ first_weekday month.year month.month }
        ensures days { result.days ≡ month_length month.year month.month }
        ensures holidays { result.holidays.now ≡ holidays.entry.now }
    {
        MonthDays {
            first: month.first_weekday(),
            days: month.length(),
            holidays,
        }
    }

    /// The working days and the other days of each week, in turn.
    #[tactic(auto, using(crate::proofs::ByWeek::month_none, crate::proofs::ByWeek::part_most, crate::proofs::ByWeek::day_counted))]
    pub(crate) fn by_week(&self) -> [u32; PARTS]
        ensures { result ≡ by_week self.now.first self.now.days self.now.holidays.now }
    {
        let mut counts = [0; PARTS];
        for day in 1..=self.days {
            counts[self.part_of(day)] += 1;
        }
        counts
    }

    /// The place of a day among the counts: each week's working days, then its other days.
    fn part_of(&self, day: u32) -> usize
        requires { (1 ≤ day) × (day ≤ 31) }
        ensures bound { result < 12 }
        ensures value { result ≡ part (since_monday self.now.first day / 7) (working self.now.first self.now.holidays.now day) }
    {
        let week = (self.first + (day - 1)) / WEEK;
        let place = u32::from(!self.is_working(day));
        (2 * week + place) as usize
    }

    /// Whether a day of the month is Monday to Friday and no holiday.
    fn is_working(&self, day: u32) -> bool
        requires { (1 ≤ day) × (day ≤ 31) }
        ensures { result ≡ working self.now.first self.now.holidays.now day }
    {
        (self.first + (day - 1)) % WEEK < WORKING_DAYS && !self.holidays.contains(&u64::from(day))
    }
}
