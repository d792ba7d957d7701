ghost use Rattle.std.specs.Prelude.{◌≡◌, ◌++◌, map, IfOk, OnOk, string_bytes};
ghost use Rattle.calendar.specs.Month.{day_counts};
ghost use Rattle.sheet.specs.Facts.{facts};
ghost use Rattle.tender_text.specs.Report.{offer_line, offer_table};
ghost use Rattle.tender_text.specs.Report.{period_table as table_of};

use calendar::Calendar;
use sheet::Offer;
use std::alloc::{AllocError, Global};

/// The table of a month's periods.
fn period_table(heap: Global, calendar: &Calendar) -> Result<String, AllocError>
    ensures { IfOk result (λ s. string_bytes s ≡ table_of (day_counts calendar.now)) }
{
    let mut table = String::from_str(heap, "period;days;\n")?;
    for (period, days) in (1_u32..).zip(calendar.day_counts()) {
        writeln!(table, "{period};{days};")?;
    }
    Ok(table)
}

/// Adds the row of an offer.
fn add_offer(heap: Global, table: &mut Vec<u8>, offer: &Offer) -> Result<(), AllocError>
    ensures { OnOk result (table.new.items ≡ table.old.items ++ offer_line (facts offer.now)) }
{
    let number = offer.number();
    let product = offer.product().text();
    let width = offer.width();
    let after_name = format!(in heap; ";{number};{product};{width};\n")?;
    table.extend_from_slice(offer.name())?;
    table.extend_from_slice(after_name.as_bytes())
}

/// The tables of a tender: its periods and its offers.
pub(crate) fn tables(
    heap: Global,
    calendar: &Calendar,
    offers: &[Offer],
) -> Result<Vec<u8>, AllocError>
    ensures { IfOk result (λ v. v.items ≡ table_of (day_counts calendar.now) ++ offer_table (map facts offers.now)) }
{
    let mut tables = period_table(heap, calendar)?.into_bytes();
    tables.extend_from_slice(b"offer;number;product;MW;\n")?;
    for offer in offers {
        add_offer(heap, &mut tables, offer)?;
    }
    Ok(tables)
}
