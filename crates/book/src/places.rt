//! Offers by their identifiers.
ghost use Rattle.std.specs.Prelude.{IfSome, ◌≡◌, ◌<◌, map, length};
ghost use Rattle.sheet.specs.Facts.{facts};
ghost use Rattle.book.specs.Limits.{is};
ghost use Rattle.book.specs.Table.{place_of};

use sheet::Offer;

/// What an offer is known by: the name of its candidate, and the number by which that one knows it.
#[derive(Clone, Copy, PartialEq)]
pub(crate) struct Identifier<'a> {
    pub(crate) name: &'a [u8],
    pub(crate) number: u64,
}

impl Identifier<'_> {
    /// That of an offer.
    pub(crate) fn of(offer: &Offer) -> Identifier<'_>
        ensures name { result.name.now ≡ (facts offer.now).name }
        ensures number { result.number ≡ (facts offer.now).number }
    {
        Identifier {
            name: offer.name(),
            number: u64::from(offer.number()),
        }
    }

    /// Whether it is that of an offer.
    fn is_of(self, offer: &Offer) -> bool
        ensures { result ≡ is self.entry.name.now self.entry.number (facts offer.now) }
    {
        Identifier::of(offer) == self
    }

    /// The place of its offer, counted from 0.
    pub(crate) fn place_in(self, offers: &[Offer]) -> Option<usize>
        ensures value { result ≡ place_of self.entry.name.now self.entry.number (map facts offers.now) }
        ensures inside { IfSome result (λ i. i < length offers.now) }
    {
        offers.iter().position(|offer| self.is_of(offer))
    }
}
