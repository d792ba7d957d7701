ghost use Rattle.std.specs.Prelude.{◌≡◌, true};
ghost use Rattle.calendar.specs.Kept.{sound};
ghost use Rattle.short_list.specs.ShortList.{items};

use short_list::ShortList;

mod opening;
mod questions;

pub use opening::{MOST_HOLIDAYS, is_announced};

/// A month never has more periods than this.
pub const MOST_PERIODS: usize = 11;

/// The periods of one month, with the day count of each.
#[derive(Clone, Copy)]
pub struct Calendar {
    days: ShortList<u32, MOST_PERIODS>,
    ghost kept: { sound (items days) ≡ true },
}
