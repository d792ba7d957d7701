//! How these lines are read.
ghost use Rattle.std.specs.Prelude.{◌≡◌, ◌^◌, ◌<◌, ◌≤◌, length, IfOk};
ghost use Rattle.std.specs.List.{AllByRecursion};
ghost use Rattle.sheet.specs.Facts.{numbers_of};
ghost use Rattle.sheet.specs.Limits.{most_periods};
ghost use Rattle.sheet.specs.Read.{InMonth, ReadsLine, shape_says};
ghost use Rattle.sheet.specs.Sheet.{period_line, shape_line, width_line, widths_fit};
ghost use Rattle.text.specs.Lines.{values_of};

use crate::fault::SheetFault;
use crate::offer::{MOST_RANGES, PerRange, per_range};
use crate::reader::Reader;
use crate::shape::Shape;
use crate::values::{all_between, flag, rising, total};
use text::{Values, number_line};

/// The most MW of one range, and of all ranges of an offer together.
const WIDEST: u64 = 500;

/// How many ranges, periods and blocks there are, in a month of so many periods. A block is for the whole month.
pub(crate) fn read_shape(reader: &mut Reader, month: u64) -> Result<Shape, SheetFault>
    requires { month ≤ most_periods }
    ensures { ReadsLine shape_says (shape_line month) reader.old reader.new result }
{
    let counts = reader.advance(number_line(reader.rest, 3))?;
    let [ranges, periods, blocks] = counts.as_slice() else {
        return Err(SheetFault::Form(reader.line));
    };
    let fits = (1..=MOST_RANGES as u64).contains(ranges) && (1..=month).contains(periods);
    let (true, Some(block)) = (fits, flag(*blocks)) else {
        return Err(SheetFault::Value(reader.line));
    };
    if block && *periods != month {
        return Err(SheetFault::PartMonth(reader.line));
    }
    Ok(Shape {
        ranges: *ranges as usize,
        periods: *periods as usize,
        block,
    })
}

/// Whether the widths are in their range, with the floor for the first of them.
fn widths_fit(widths: &[u64], floor: u32) -> bool
    requires some { 1 ≤ length widths.now }
    requires few { length widths.now ≤ 11 }
    requires small { AllByRecursion (λ v. v < 10 ^ 10) widths.now }
    ensures { result ≡ widths_fit floor widths.now }
{
    all_between(widths, 1, WIDEST) && widths[0] == u64::from(floor) && total(widths) <= WIDEST
}

/// The width of each range, in MW.
#[tactic(auto, using(crate::proofs::Judged::widths_small))]
pub(crate) fn read_widths(
    reader: &mut Reader,
    shape: Shape,
    floor: u32,
) -> Result<PerRange, SheetFault>
    ensures { ReadsLine numbers_of (width_line shape.ranges floor) reader.old reader.new result }
{
    let read = number_line(reader.rest, shape.ranges);
    let widths = reader.fitting(read, |widths| widths_fit(widths.as_slice(), floor))?;
    Ok(per_range(widths.as_slice()))
}

/// The priced periods.
pub(crate) fn read_periods(
    reader: &mut Reader,
    shape: Shape,
    month: u64,
) -> Result<Values, SheetFault>
    ensures reads { ReadsLine values_of (period_line month shape.periods) reader.old reader.new result }
    ensures fits { IfOk result (λ p. InMonth month shape.periods (values_of p)) }
{
    let read = number_line(reader.rest, shape.periods);
    let periods = reader.fitting(read, |periods| all_between(periods.as_slice(), 1, month))?;
    if !rising(periods.as_slice()) {
        return Err(SheetFault::Order(reader.line));
    }
    Ok(periods)
}
