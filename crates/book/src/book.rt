//! A book: a list of offers under one calendar.
ghost use Rattle.std.specs.Prelude.{◌≡◌, ℕ, List, length, sum};
ghost use Rattle.calendar.specs.Month.{days_in};
ghost use Rattle.sheet.specs.Offer.{Offer as Facts};
ghost use Rattle.book.specs.Book.{asked, block_asked, bytes_of, price_asked, width_asked};
ghost use Rattle.book.specs.Limits.{Limits};

use sheet::Product;

/// A list of offers under the calendar of one month.
///
/// Each question is answered by the list alone, and changes nothing. Offers and their ranges are counted from 0, periods
/// from 1; outside the list, the month or the ranges the answer is none.
pub trait Book {
    /// The day count of each period.
    ghost days: { Self → List ℕ };

    /// The offers, in order.
    ghost offers: { Self → List Facts };

    /// They keep the limits of a sheet and of a register.
    ghost kept: { (b : Self) → Limits (days b) (offers b) };

    /// How many periods the month has.
    fn periods(&self) -> usize
        ensures { result ≡ length (days self.now) };

    /// The days of a period.
    fn days_in(&self, period: usize) -> Option<u32>
        ensures { result ≡ days_in (days self.now) period };

    /// The days of the month.
    fn month_days(&self) -> u32
        ensures { result ≡ sum (days self.now) };

    /// How many offers there are.
    fn offer_count(&self) -> usize
        ensures { result ≡ length (offers self.now) };

    /// The name of an offer's candidate.
    fn name(&self, offer: usize) -> Option<&[u8]>
        ensures { bytes_of result ≡ asked (λ o. o.name) (offers self.now) offer };

    /// The number by which the candidate knows it.
    fn number(&self, offer: usize) -> Option<u32>
        ensures { result ≡ asked (λ o. o.number) (offers self.now) offer };

    /// The least power that may be accepted of it, in MW.
    fn floor(&self, offer: usize) -> Option<u32>
        ensures { result ≡ asked (λ o. o.floor) (offers self.now) offer };

    /// What is offered.
    fn product(&self, offer: usize) -> Option<Product>
        ensures { result ≡ asked (λ o. o.product) (offers self.now) offer };

    /// Whether it is marked as observed.
    fn is_observed(&self, offer: usize) -> Option<bool>
        ensures { result ≡ asked (λ o. o.observed) (offers self.now) offer };

    /// Whether it is marked as short.
    fn is_short(&self, offer: usize) -> Option<bool>
        ensures { result ≡ asked (λ o. o.short) (offers self.now) offer };

    /// How many ranges it has.
    fn range_count(&self, offer: usize) -> Option<usize>
        ensures { result ≡ asked (λ o. length o.widths) (offers self.now) offer };

    /// MW of a range.
    fn width(&self, offer: usize, range: usize) -> Option<u32>
        ensures { result ≡ width_asked (offers self.now) offer range };

    /// The cents per MW of a range in a period.
    fn price(&self, offer: usize, period: usize, range: usize) -> Option<u32>
        ensures { result ≡ price_asked (offers self.now) offer period range };

    /// The cents of one MW of all its ranges for the whole month.
    fn block(&self, offer: usize) -> Option<u32>
        ensures { result ≡ block_asked (offers self.now) offer };
}
