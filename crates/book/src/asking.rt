//! What a deposit answers as a book: every answer is read from its text.
ghost use Rattle.std.specs.Prelude.{◌≡◌};
ghost use Rattle.std.specs.List.{slice_get};
ghost use Rattle.book.specs.Book.{asked, bytes_of};
ghost use Rattle.book.specs.Reading.{FrontOf, days_of, deposit_limits, sheet_told, sheets_of};

use crate::book::Book;
use crate::deposit::Deposit;
use sheet::{Offer, Product, read_sheet};
use text::read_name;

impl<'a> Deposit<'a> {
    /// The text from the front of a sheet on. Sheets are counted from 0.
    fn text_from(&self, sheet: usize) -> Option<&'a [u8]>
        ensures { FrontOf self.now sheet result }
    {
        let start = self.starts.get(sheet)?;
        let text = self.text;
        Some(&text[start..])
    }

    /// The offer of a sheet.
    fn sheet(&self, sheet: usize) -> Option<Offer>
        ensures { sheet_told result ≡ slice_get (sheets_of self.now) sheet }
    {
        let text = self.text_from(sheet)?;
        read_sheet(self.calendar.periods(), 0, text)
            .ok()
            .map(|(offer, _)| offer)
    }

    /// The name in a sheet.
    fn name_in(&self, sheet: usize) -> Option<&'a [u8]>
        ensures { bytes_of result ≡ asked (λ o. o.name) (sheets_of self.now) sheet }
    {
        let text = self.text_from(sheet)?;
        let (name, _) = read_name(text)?;
        Some(name.bytes)
    }
}

/// A deposit is the book of its sheets.
impl<'a> Book for Deposit<'a> {
    ghost days = { days_of };

    ghost offers = { sheets_of };

    ghost kept = { deposit_limits };

    fn periods(&self) -> usize {
        self.calendar.periods()
    }

    fn days_in(&self, period: usize) -> Option<u32> {
        self.calendar.days(period)
    }

    fn month_days(&self) -> u32 {
        self.calendar.month_days()
    }

    fn offer_count(&self) -> usize {
        self.starts.len()
    }

    fn name(&self, offer: usize) -> Option<&[u8]> {
        self.name_in(offer)
    }

    fn number(&self, offer: usize) -> Option<u32> {
        self.sheet(offer).map(|sheet| sheet.number())
    }

    fn floor(&self, offer: usize) -> Option<u32> {
        self.sheet(offer).map(|sheet| sheet.floor())
    }

    fn product(&self, offer: usize) -> Option<Product> {
        self.sheet(offer).map(|sheet| sheet.product())
    }

    fn is_observed(&self, offer: usize) -> Option<bool> {
        self.sheet(offer).map(|sheet| sheet.is_observed())
    }

    fn is_short(&self, offer: usize) -> Option<bool> {
        self.sheet(offer).map(|sheet| sheet.is_short())
    }

    fn range_count(&self, offer: usize) -> Option<usize> {
        self.sheet(offer).map(|sheet| sheet.widths().len())
    }

    fn width(&self, offer: usize, range: usize) -> Option<u32> {
        self.sheet(offer)?.widths().get(range).copied()
    }

    fn price(&self, offer: usize, period: usize, range: usize) -> Option<u32> {
        let place = period.checked_sub(1)?;
        self.sheet(offer)?.prices_at(place).get(range).copied()
    }

    fn block(&self, offer: usize) -> Option<u32> {
        self.sheet(offer)?.block()
    }
}
