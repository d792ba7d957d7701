//! Lines 1 to 6 of a sheet: who offers, and what.
ghost use Rattle.std.specs.Prelude.{◌≡◌, ◌+◌, ◌≤◌, length, IfOk};
ghost use Rattle.sheet.specs.Limits.{longest_name};
ghost use Rattle.sheet.specs.Read.{head_says, ReadsLine, name_says, says_to};
ghost use Rattle.sheet.specs.Sheet.{domax as domax_of, domax_line, floor_line, head as head_of, identifier_line, itself, mark_line, product_line};

use crate::fault::SheetFault;
use crate::product::Product;
use crate::reader::{Reader, keyed_line};
use crate::values::flag;
use text::named_line;

/// The highest number of an offer.
const HIGHEST_NUMBER: u64 = 65_535;

/// The least floor of an offer, in MW.
const LOWEST_FLOOR: u64 = 10;

/// The highest floor of an offer, in MW.
const HIGHEST_FLOOR: u64 = 500;

/// Who offers, and what. The name is a part of the text.
#[derive(Clone, Copy)]
pub(crate) struct Head<'a> {
    pub(crate) name: &'a [u8],
    pub(crate) number: u32,
    pub(crate) floor: u32,
    pub(crate) product: Product,
    pub(crate) observed: bool,
    pub(crate) short: bool,
}

/// The name and the offer's number.
fn read_identifier<'a>(reader: &mut Reader<'a>) -> Result<(&'a [u8], u32), SheetFault>
    ensures reads { ReadsLine name_says identifier_line reader.old reader.new result }
    ensures few { IfOk result (λ p. length p.0.now ≤ longest_name) }
{
    let named = named_line(reader.rest).map(|(name, number, rest)| ((name, number), rest));
    let (name, number) = reader.fitting(named, |said| said.1.value <= HIGHEST_NUMBER)?;
    Ok((name.bytes, number.value as u32))
}

/// The floor, in MW.
fn read_floor(reader: &mut Reader) -> Result<u32, SheetFault>
    ensures { ReadsLine itself floor_line reader.old reader.new result }
{
    let read = keyed_line(b"seuil_minimum;", reader.rest);
    let floor = reader.fitting(read, |floor| (LOWEST_FLOOR..=HIGHEST_FLOOR).contains(floor))?;
    Ok(floor as u32)
}

/// What is offered.
fn read_product(reader: &mut Reader) -> Result<Product, SheetFault>
    ensures { ReadsLine itself product_line reader.old reader.new result }
{
    let dmo = reader.advance(keyed_line(b"DMO;", reader.rest))?;
    Product::with_dmo(dmo).ok_or(SheetFault::Value(reader.line))
}

/// The line of the number after `DOmax`, which the product fixes.
fn read_domax(reader: &mut Reader, product: Product) -> Result<(), SheetFault>
    ensures { ReadsLine (λ _. domax_of product) (domax_line product) reader.old reader.new result }
{
    let read = keyed_line(b"DOmax;", reader.rest);
    reader.fitting(read, |domax| *domax == u64::from(product.domax()))?;
    Ok(())
}

/// Whether the offer is marked so, by the line of this keyword.
fn read_mark(reader: &mut Reader, keyword: &[u8]) -> Result<bool, SheetFault>
    ensures { ReadsLine itself (mark_line keyword.now) reader.old reader.new result }
{
    let number = reader.advance(keyed_line(keyword, reader.rest))?;
    flag(number).ok_or(SheetFault::Value(reader.line))
}

/// The first six lines.
pub(crate) fn read_head<'a>(reader: &mut Reader<'a>) -> Result<Head<'a>, SheetFault>
    requires { reader.old.line ≤ 65535 }
    ensures counts { IfOk result (λ _. reader.new.line ≡ reader.old.line + 6) }
    ensures says { says_to head_says reader.new.rest.now result ≡ head_of reader.old.line reader.old.rest.now }
    ensures few { IfOk result (λ h. length h.name.now ≤ longest_name) }
{
    let (name, number) = read_identifier(reader)?;
    let floor = read_floor(reader)?;
    let product = read_product(reader)?;
    read_domax(reader, product)?;
    let observed = read_mark(reader, b"Obs_Stat;")?;
    let short = read_mark(reader, b"DOmin;")?;
    if observed && short {
        return Err(SheetFault::Marks(reader.line));
    }
    Ok(Head {
        name,
        number,
        floor,
        product,
        observed,
        short,
    })
}
