//! A sheet read from the front of a text.
ghost use Rattle.std.specs.Prelude.{◌≡◌, ◌≤◌, map, length};
ghost use Rattle.sheet.specs.Facts.{facts, numbers_of, row_facts};
ghost use Rattle.sheet.specs.Limits.{longest_name, most_periods};
ghost use Rattle.sheet.specs.Read.{alone_read, by_month, head_says, line_read, month_of, read_by_month};
ghost use Rattle.sheet.specs.Sheet.{read, read_alone};
ghost use Rattle.short_list.specs.ShortList.{items};

use crate::fault::SheetFault;
use crate::head::{Head, read_head};
use crate::offer::{Name, Offer, PerRange, Rows};
use crate::prices::{read_block, read_rows};
use crate::reader::Reader;
use crate::shape::{read_periods, read_shape, read_widths};
use calendar::MOST_PERIODS;

/// The offer that these lines make.
fn offer_of(head: Head, widths: PerRange, rows: Rows, block: Option<u32>) -> Offer
    requires short { length head.name.now ≤ longest_name }
    ensures { facts result ≡ by_month (head_says head.entry) (numbers_of widths) (map row_facts (items rows)) block }
{
    Offer {
        name: Name::from_slice(head.name),
        number: head.number,
        floor: head.floor,
        product: head.product,
        observed: head.observed,
        short: head.short,
        widths,
        rows,
        block,
    }
}

/// The lines of a sheet, each judged before the next is read.
fn read_lines<'a>(reader: &mut Reader<'a>, periods: usize) -> Result<(Offer, &'a [u8]), SheetFault>
    requires few { periods ≤ most_periods }
    requires near { reader.old.line ≤ 65535 }
    ensures { line_read facts result ≡ read_by_month periods reader.old.line reader.old.rest.now }
{
    let month = periods as u64;
    let head = read_head(reader)?;
    let shape = read_shape(reader, month)?;
    let widths = read_widths(reader, shape, head.floor)?;
    let priced = read_periods(reader, shape, month)?;
    let rows = read_rows(reader, shape, periods, priced.as_slice())?;
    let block = read_block(reader, shape.block)?;
    Ok((offer_of(head, widths, rows, block), reader.rest))
}

/// Reads the sheet at the front of a text, in a month of so many periods and with so many lines before it, and tells what
/// follows it. A month has at most 11 periods: more are taken for 11. The lines before it are those of the sheets that
/// stand in front of it in one text, which are far fewer than can be counted here.
#[tactic(auto, using(crate::proofs::ByMonth::same_read))]
pub fn read_sheet<'a>(
    periods: usize,
    lines_before: u16,
    text: &'a [u8],
) -> Result<(Offer, &'a [u8]), SheetFault>
    ensures { line_read facts result ≡ read (month_of periods) lines_before text.now }
{
    let mut reader = Reader {
        line: u32::from(lines_before),
        rest: text,
    };
    read_lines(&mut reader, periods.min(MOST_PERIODS))
}

/// Reads a text that is one sheet and nothing else.
pub fn read_alone(periods: usize, text: &[u8]) -> Result<Offer, SheetFault>
    ensures { alone_read result ≡ read_alone (month_of periods) text.now }
{
    let (offer, rest) = read_sheet(periods, 0, text)?;
    if !rest.is_empty() {
        return Err(SheetFault::Form(offer.lines() + 1));
    }
    Ok(offer)
}
