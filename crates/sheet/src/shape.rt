//! Lines 7 to 9 of a sheet: how many ranges, periods and blocks there are, the ranges' widths, and the periods.
ghost use Rattle.std.specs.Prelude.{◌≤◌};
ghost use Rattle.sheet.specs.Limits.{most_periods, most_ranges};

mod reading;

pub(crate) use reading::{read_periods, read_shape, read_widths};

/// How many ranges and priced periods a sheet has, and whether it has a block.
#[derive(Clone, Copy)]
pub(crate) struct Shape {
    pub(crate) ranges: usize,
    pub(crate) periods: usize,
    pub(crate) block: bool,
    ghost some: { 1 ≤ ranges },
    ghost few: { ranges ≤ most_ranges },
    ghost in_month: { periods ≤ most_periods },
}
