//! Whether an offer may stand beside others.
ghost use Rattle.std.specs.Prelude.{◌≡◌, ℕ, ◌≤◌, ◌∷◌, map};
ghost use Rattle.std.specs.Fn.{FnReturnsAt};
ghost use Rattle.sheet.specs.Facts.{facts};
ghost use Rattle.sheet.specs.Offer.{Offer as Facts, total};
ghost use Rattle.sheet.specs.declared.offer.Offer.{Offer};
ghost use Rattle.book.specs.Limits.{breadth, count, has_block, ranges};
ghost use Rattle.book.specs.Roll.{beside, crowded as crowded_of};
ghost use Rattle.book.specs.Table.{others_of, periods_beside};

use crate::fault::RegisterFault;
use crate::others::Others;
use sheet::Offer;

/// The most ranges of a candidate in a period.
const MOST_PAIRS: u64 = 50;

/// The most MW of a product.
const MOST_VOLUME: u64 = 2_000;

/// The most blocks.
const MOST_BLOCKS: u64 = 6;

impl Others<'_> {
    /// A share of an offer and of each of these, added up.
    fn sum_with<F: Fn(&Offer) -> u64>(&self, offer: &Offer, share: F) -> u64
        requires callable { (state : F) (other : _) → F.pre state other }
        requires small { (o : Offer) (n : ℕ) → FnReturnsAt F.Fn share o n → n ≤ 17179869184 }
        ensures { (of : Facts → ℕ) → ((o : Offer) (n : ℕ) → FnReturnsAt F.Fn share o n → n ≡ of (facts o)) → result ≡ total (map of (facts offer.now ∷ others_of self.now)) }
    {
        let own = share(offer);
        let rest: u64 = self.before.iter().chain(self.after.iter()).map(share).sum();
        own + rest
    }

    /// The ranges that the candidate of an offer would have in a period with it.
    fn ranges_with(&self, offer: &Offer, period: usize) -> u64
        requires { 1 ≤ period }
        ensures { result ≡ ranges (facts offer.now).name (facts offer.now ∷ others_of self.now) period }
    {
        let name = offer.name();
        let place = period - 1;
        self.sum_with(offer, |other| {
            if other.name() == name {
                other.prices_at(place).len() as u64
            } else {
                0
            }
        })
    }

    /// MW that the product of an offer would have with it.
    fn volume_with(&self, offer: &Offer) -> u64
        ensures { result ≡ breadth (facts offer.now).product (facts offer.now ∷ others_of self.now) }
    {
        let product = offer.product();
        self.sum_with(offer, |other| {
            if other.product() == product {
                other.width()
            } else {
                0
            }
        })
    }

    /// How many blocks there would be with an offer.
    fn blocks_with(&self, offer: &Offer) -> u64
        ensures { result ≡ count has_block (facts offer.now ∷ others_of self.now) }
    {
        self.sum_with(offer, |other| u64::from(other.block().is_some()))
    }

    /// The first period in which the candidate of an offer would have too many ranges with it.
    fn crowded(&self, offer: &Offer) -> Option<u32>
        ensures { result ≡ crowded_of (periods_beside self.now) (others_of self.now) (facts offer.now) }
    {
        (1..self.calendar.periods() + 1)
            .find(|period| self.ranges_with(offer, *period) > MOST_PAIRS)
            .map(|period| period as u32)
    }

    /// Whether an offer may stand beside these.
    pub(crate) fn judge(&self, offer: &Offer) -> Result<(), RegisterFault>
        ensures { result ≡ beside (periods_beside self.now) (others_of self.now) (facts offer.now) }
    {
        if let Some(period) = self.crowded(offer) {
            return Err(RegisterFault::Pairs(period));
        }
        if self.volume_with(offer) > MOST_VOLUME {
            return Err(RegisterFault::Volume);
        }
        if self.blocks_with(offer) > MOST_BLOCKS {
            return Err(RegisterFault::Blocks);
        }
        Ok(())
    }
}
