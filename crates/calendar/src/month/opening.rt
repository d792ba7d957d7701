ghost use Rattle.std.specs.Prelude.{◌≡◌, ◌≢◌, IfOk, Err, filter, take, nat_lt};
ghost use Rattle.calendar.specs.Date.{month_length};
ghost use Rattle.calendar.specs.Kept.{Kept};
ghost use Rattle.calendar.specs.Month.{day_counts, told};
ghost use Rattle.calendar.specs.Opening.{announced, opened};
ghost use Rattle.calendar.specs.Periods.{periods};
ghost use Rattle.short_list.specs.ShortList.{items};
ghost use Rattle.calendar.specs.declared.fault.CalendarFault.TheVariants.{Weeks};

use crate::date::{FIRST_YEAR, LAST_YEAR, MONTHS, Month};
use crate::fault::CalendarFault;
use crate::month::{Calendar, MOST_PERIODS};
use crate::weeks::MonthDays;
use short_list::ShortList;

/// A month has at most so many holidays.
pub const MOST_HOLIDAYS: u64 = 8;

/// Whether a tender may have that year, that month and so many holidays.
pub fn is_announced(year: u64, month: u64, holidays: u64) -> bool
    ensures { result ≡ announced year month holidays }
{
    (FIRST_YEAR..=LAST_YEAR).contains(&year)
        && (1..=MONTHS).contains(&month)
        && holidays <= MOST_HOLIDAYS
}

/// The periods that have days.
fn pack(parts: &[u32]) -> ShortList<u32, MOST_PERIODS>
    ensures { items result ≡ take MOST_PERIODS (filter (nat_lt 0) parts.now) }
{
    let mut days = ShortList::new();
    for &part in parts {
        if part > 0 {
            days.push(part);
        }
    }
    days
}

/// The calendar of a month by its days.
#[tactic(auto, using(crate::proofs::Sound::all_few, crate::proofs::Sound::is_sound, crate::proofs::Sound::kept))]
fn of_month(month: &MonthDays<'_>) -> Calendar
    ensures value { day_counts result ≡ periods month.now.first month.now.days month.now.holidays.now }
    ensures kept { Kept month.now.days (day_counts result) }
{
    Calendar {
        days: pack(&month.by_week()),
    }
}

impl Calendar {
    /// The calendar of a month, with its holidays as rising days of the month.
    ///
    /// A wrong year, month or list of holidays is refused. More than eleven periods would be refused too, but no
    /// month has them.
    #[tactic(auto, unfolding(crate::specs::Opening::opened))]
    pub fn open(year: u64, month: u64, holidays: &[u64]) -> Result<Calendar, CalendarFault>
        ensures value { told result ≡ opened year month holidays.now }
        ensures kept { IfOk result (λ calendar. Kept (month_length year month) (day_counts calendar)) }
        ensures never_weeks { opened year month holidays.now ≢ Err Weeks }
    {
        if !is_announced(year, month, holidays.len() as u64) {
            return Err(CalendarFault::Date);
        }
        let month = Month { year, month };
        if !month.has_rising(holidays) {
            return Err(CalendarFault::Date);
        }
        Ok(of_month(&MonthDays::new(month, holidays)))
    }
}
