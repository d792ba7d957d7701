//! What an offer answers of its facts.
ghost use Rattle.std.specs.Prelude.{◌≡◌, ◌≤◌, length};
ghost use Rattle.sheet.specs.Facts.{facts};
ghost use Rattle.sheet.specs.Offer.{prices_at, total, width};

use crate::offer::Offer;
use crate::product::Product;

impl Offer {
    /// The name of the candidate.
    pub fn name(&self) -> &[u8]
        ensures { result.now ≡ (facts self.now).name }
    {
        self.name.as_slice()
    }

    /// The number by which the candidate knows it.
    pub fn number(&self) -> u32
        ensures { result ≡ (facts self.now).number }
    {
        self.number
    }

    /// The least power that may be accepted, in MW.
    pub fn floor(&self) -> u32
        ensures { result ≡ (facts self.now).floor }
    {
        self.floor
    }

    /// What is offered.
    pub fn product(&self) -> Product
        ensures { result ≡ (facts self.now).product }
    {
        self.product
    }

    /// Whether it is marked as observed.
    pub fn is_observed(&self) -> bool
        ensures { result ≡ (facts self.now).observed }
    {
        self.observed
    }

    /// Whether it is marked as short.
    pub fn is_short(&self) -> bool
        ensures { result ≡ (facts self.now).short }
    {
        self.short
    }

    /// MW of each range.
    pub fn widths(&self) -> &[u32]
        ensures value { result.now ≡ (facts self.now).widths }
        ensures few { length result.now ≤ 4 }
    {
        self.widths.as_slice()
    }

    /// MW of all ranges.
    pub fn width(&self) -> u64
        ensures value { result ≡ width (facts self.now) }
        ensures bound { result ≤ 17179869184 }
    {
        sum(self.widths())
    }

    /// The cents per MW of each range in the period at a place of the month, counted from 0; none where it does not
    /// stand in that period.
    pub fn prices_at(&self, place: usize) -> &[u32]
        ensures value { result.now ≡ prices_at (facts self.now) place }
        ensures few { length result.now ≤ 4 }
    {
        match self.rows.as_slice().get(place) {
            Some(Some(prices)) => prices.as_slice(),
            _ => &[],
        }
    }

    /// The cents of one MW of all ranges for the whole month, if it is offered so.
    pub fn block(&self) -> Option<u32>
        ensures { result ≡ (facts self.now).block }
    {
        self.block
    }
}

fn sum(widths: &[u32]) -> u64
    requires { length widths.now ≤ 4 }
    ensures value { result ≡ total widths.now }
    ensures bound { result ≤ 17179869184 }
{
    widths.iter().map(|width| u64::from(*width)).sum()
}
