ghost use Rattle.std.specs.Prelude.{◌≡◌, ◌-◌, ◌<◌, ◌≤◌, take, sum};
ghost use Rattle.calendar.specs.Date.{leap, year_length, month_lengths, month_length, days_before_year, first_weekday};
ghost use Rattle.calendar.specs.Opening.{rising};
ghost use Rattle.calendar.specs.declared.date.TheConstants.{FIRST_YEAR, LAST_YEAR, MONTHS};

/// The first year for which a tender is opened. All days are counted from its first day.
pub(crate) const FIRST_YEAR: u64 = 2000;

/// The last year for which a tender is opened.
pub(crate) const LAST_YEAR: u64 = 2099;

/// The months of a year.
pub(crate) const MONTHS: u64 = 12;

/// The weekday of the first day of the first year, counted from Monday as 0: a Saturday.
const FIRST_DAY: u32 = 5;

/// The days of a week.
pub(crate) const WEEK: u32 = 7;

/// Every fourth year, but of the full centuries only every fourth.
fn is_leap(year: u64) -> bool
    ensures { result ≡ leap year }
{
    year % 4 == 0 && (year % 100 != 0 || year % 400 == 0)
}

fn year_length(year: u64) -> u32
    ensures value { result ≡ year_length year }
    ensures bound { result ≤ 366 }
{
    if is_leap(year) { 366 } else { 365 }
}

fn month_lengths(year: u64) -> [u32; MONTHS as usize]
    ensures { result ≡ month_lengths year }
{
    let february = if is_leap(year) { 29 } else { 28 };
    [31, february, 31, 30, 31, 30, 31, 31, 30, 31, 30, 31]
}

/// A month for which a tender may be opened, counted from 1.
#[derive(Clone, Copy)]
pub(crate) struct Month {
    pub(crate) year: u64,
    pub(crate) month: u64,
    ghost in_years: { (FIRST_YEAR ≤ year) × (year ≤ LAST_YEAR) },
    ghost in_year: { (1 ≤ month) × (month ≤ MONTHS) },
}

impl Month {
    /// The days of the month.
    pub(crate) fn length(self) -> u32
        ensures value { result ≡ month_length self.year self.month }
        ensures some { 28 ≤ result }
        ensures bound { result ≤ 31 }
    {
        month_lengths(self.year)[self.month as usize - 1]
    }

    /// Whether these are days of the month, each later than the one before.
    pub(crate) fn has_rising(self, days: &[u64]) -> bool
        ensures { result ≡ rising 0 (month_length self.year self.month) days.now }
    {
        let last = u64::from(self.length());
        days.is_sorted_by(|a, b| a < b) && days.iter().all(|day| (1..=last).contains(day))
    }

    /// The weekday of the first of the month: Monday is 0.
    #[tactic(auto, using(crate::proofs::Dates::years_most, crate::proofs::Dates::months_most))]
    pub(crate) fn first_weekday(self) -> u32
        ensures value { result ≡ first_weekday self.year self.month }
        ensures bound { result < 7 }
    {
        (FIRST_DAY + self.days_before_year() + self.days_before_month()) % WEEK
    }

    /// The days before the first of January.
    fn days_before_year(self) -> u32
        ensures { result ≡ days_before_year self.year }
    {
        (FIRST_YEAR..self.year).map(year_length).sum()
    }

    /// The days from the first of January to the first of the month.
    fn days_before_month(self) -> u32
        ensures { result ≡ sum (take (self.month - 1) (month_lengths self.year)) }
    {
        month_lengths(self.year)[..self.month as usize - 1]
            .iter()
            .sum()
    }
}
