//! The lines of prices of a sheet, one for each priced period, and the block's.
ghost use Rattle.std.specs.Prelude.{◌≡◌, ◌+◌, ◌≤◌, map, IfOk, if◌then◌else◌};
ghost use Rattle.sheet.specs.Facts.{numbers_of, row_facts};
ghost use Rattle.sheet.specs.Limits.{most_periods};
ghost use Rattle.sheet.specs.Read.{InMonth, ReadsLine, last_line, month_rows, next_line, says_to};
ghost use Rattle.sheet.specs.Sheet.{block_line, itself, price_line as price_line_of};
ghost use Rattle.short_list.specs.ShortList.{items};

use crate::fault::SheetFault;
use crate::offer::{PerRange, Rows, per_range};
use crate::reader::Reader;
use crate::shape::Shape;
use crate::values::{all_between, never_falling};
use text::{closing_price, price_line};

/// The highest price of a range in a period, in cents.
const HIGHEST_PRICE: u64 = 10_000_000;

/// The highest price of a block, in cents.
const HIGHEST_BLOCK: u64 = 100_000_000;

/// The prices of a period, in cents.
#[tactic(auto, using(crate::proofs::Judged::prices_small))]
fn read_row(reader: &mut Reader, shape: Shape) -> Result<PerRange, SheetFault>
    ensures { ReadsLine numbers_of (price_line_of shape.ranges) reader.old reader.new result }
{
    let read = price_line(reader.rest, shape.ranges);
    let row = reader.fitting(read, |row| all_between(row.as_slice(), 0, HIGHEST_PRICE))?;
    if !never_falling(row.as_slice()) {
        return Err(SheetFault::Order(reader.line));
    }
    Ok(per_range(row.as_slice()))
}

/// The prices of each period of the month that is among these priced ones.
pub(crate) fn read_rows(
    reader: &mut Reader,
    shape: Shape,
    month: usize,
    periods: &[u64],
) -> Result<Rows, SheetFault>
    requires few { month ≤ most_periods }
    requires fits { InMonth month shape.periods periods.now }
    requires near { reader.old.line + most_periods ≤ last_line }
    ensures counts { IfOk result (λ _. reader.new.line ≡ reader.old.line + shape.periods) }
    ensures says { says_to (λ rows. map row_facts (items rows)) reader.new.rest.now result ≡ month_rows month shape.ranges shape.periods periods.now (reader.old.line + 1) reader.old.rest.now }
{
    let mut rows = Rows::filled(None, month);
    for period in periods {
        rows.set(*period as usize - 1, Some(read_row(reader, shape)?));
    }
    Ok(rows)
}

/// The block's price, in cents, if there is a block.
pub(crate) fn read_block(reader: &mut Reader, block: bool) -> Result<Option<u32>, SheetFault>
    ensures { says_to itself reader.new.rest.now result ≡ block_line (if block then 1 else 0) (next_line reader.old.line) reader.old.rest.now }
{
    if !block {
        return Ok(None);
    }
    let read = closing_price(reader.rest);
    let price = reader.fitting(read, |price| price.cents <= HIGHEST_BLOCK)?;
    Ok(Some(price.cents as u32))
}
