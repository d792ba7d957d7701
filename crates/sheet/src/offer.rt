//! One offer, kept in a place of fixed size.
ghost use Rattle.std.specs.Prelude.{◌≡◌, ◌^◌, ◌<◌, ◌≤◌, map, length};
ghost use Rattle.std.specs.List.{AllByRecursion};
ghost use Rattle.sheet.specs.Facts.{facts, name_of, numbers_of, row_facts};
ghost use Rattle.sheet.specs.Limits.{longest_name, most_periods, most_ranges};

use crate::product::Product;
use calendar::MOST_PERIODS;
use short_list::ShortList;

/// The most bytes that a name has.
pub const LONGEST_NAME: usize = text::NAME_BYTES;

/// The most ranges that an offer has.
pub const MOST_RANGES: usize = 4;

/// A candidate's name.
pub type Name = ShortList<u8, LONGEST_NAME>;

/// A number for each range of an offer, in the ranges' order.
pub type PerRange = ShortList<u32, MOST_RANGES>;

/// For each period of a month the numbers of its ranges, or none where the offer does not stand in it.
pub(crate) type Rows = ShortList<Option<PerRange>, MOST_PERIODS>;

/// What a sheet says.
#[derive(Clone, Copy)]
pub struct Offer {
    pub(crate) name: Name,
    pub(crate) number: u32,
    /// The least power that may be accepted, in MW.
    pub(crate) floor: u32,
    pub(crate) product: Product,
    pub(crate) observed: bool,
    pub(crate) short: bool,
    /// MW of each range.
    pub(crate) widths: PerRange,
    /// Cents per MW of each range, in each period.
    pub(crate) rows: Rows,
    /// The cents of one MW of all ranges for the whole month.
    pub(crate) block: Option<u32>,
}

/// These numbers, one for each range.
pub(crate) fn per_range(values: &[u64]) -> PerRange
    requires few { length values.now ≤ most_ranges }
    requires small { AllByRecursion (λ v. v < 2 ^ 32) values.now }
    ensures { numbers_of result ≡ values.now }
{
    let mut numbers = ShortList::new();
    for value in values {
        numbers.push(*value as u32);
    }
    numbers
}
