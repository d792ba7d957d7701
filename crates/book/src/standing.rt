//! The table of the offers that stand.
ghost use Rattle.std.specs.Prelude.{◌≡◌, ◌≤◌, [], map, length, IfOk, vec_len};
ghost use Rattle.calendar.specs.Month.{day_counts};
ghost use Rattle.sheet.specs.Facts.{facts};
ghost use Rattle.book.specs.Table.{days_of, offers_of};

use crate::table::{MOST_OFFERS, Table};
use calendar::Calendar;
use sheet::Offer;
use std::alloc::{AllocError, Global};

impl Table {
    /// An empty table, with the room that it will ever need.
    pub(crate) fn open(heap: Global, calendar: Calendar) -> Result<Table, AllocError>
        ensures days { IfOk result (λ table. days_of table ≡ day_counts calendar) }
        ensures offers { IfOk result (λ table. offers_of table ≡ []) }
    {
        let offers = Vec::with_capacity(heap, MOST_OFFERS)?;
        Ok(Table { calendar, offers })
    }

    /// The offers, in order.
    pub(crate) fn as_slice(&self) -> &[Offer]
        ensures offers { map facts result.now ≡ offers_of self.now }
        ensures len { length result.now ≡ vec_len self.now.offers }
        ensures few { length result.now ≤ 32 }
    {
        self.offers.as_slice()
    }
}
