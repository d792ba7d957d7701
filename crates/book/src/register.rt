ghost use Rattle.std.specs.Prelude.{◌≡◌, true, length};
ghost use Rattle.calendar.specs.Month.{day_counts};
ghost use Rattle.short_list.specs.ShortList.{items};
ghost use Rattle.book.specs.Table.{offers_of, periods_of};
ghost use Rattle.book.specs.Within.{within};

use crate::need::Need;
use crate::table::Table;
use calendar::MOST_PERIODS;
use short_list::ShortList;

/// The book that a clerk keeps through a month: the offers that stand and what each period needs.
#[derive(Drop)]
pub struct Register {
    pub(crate) table: Table,
    pub(crate) needs: ShortList<Need, MOST_PERIODS>,
    ghost whole: { length (items needs) ≡ periods_of table },
    ghost kept: { within (day_counts table.calendar) (offers_of table) ≡ true },
}
