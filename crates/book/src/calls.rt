//! The clerk's calls on the table of offers.
ghost use Rattle.std.specs.Prelude.{IfSome, ◌≡◌, ◌+◌, ◌<◌, [], ◌∷◌, ◌++◌, length, take, drop, vec_len, OnOk};
ghost use Rattle.sheet.specs.Facts.{facts};
ghost use Rattle.sheet.specs.Saved.{Fits};
ghost use Rattle.book.specs.Calls.{amendable, if_ok, saved_buffer, saved_length, withdrawable};
ghost use Rattle.book.specs.Roll.{admitted, beside, others, replaced, standing as standing_in};
ghost use Rattle.book.specs.Table.{Holds, offers_of, periods_of, place_of};

use crate::fault::RegisterFault;
use crate::others::Others;
use crate::places::Identifier;
use crate::table::{MOST_OFFERS, Table};
use sheet::Offer;

impl Table {
    /// The place of the offer of that identifier.
    fn place(&self, identifier: Identifier<'_>) -> Option<usize>
        ensures value { result ≡ place_of identifier.entry.name.now identifier.entry.number (offers_of self.now) }
        ensures inside { IfSome result (λ i. i < vec_len self.now.offers) }
    {
        identifier.place_in(self.as_slice())
    }

    /// The place of the offer of the same identifier.
    fn place_of(&self, offer: &Offer) -> Option<usize>
        ensures value { result ≡ place_of (facts offer.now).name (facts offer.now).number (offers_of self.now) }
        ensures inside { IfSome result (λ i. i < vec_len self.now.offers) }
    {
        self.place(Identifier::of(offer))
    }

    /// Whether an offer may stand beside all of these.
    fn judge_with_all(&self, offer: &Offer) -> Result<(), RegisterFault>
        ensures { result ≡ beside (periods_of self.now) (offers_of self.now) (facts offer.now) }
    {
        let others = Others {
            calendar: &self.calendar,
            before: self.as_slice(),
            after: &[],
        };
        others.judge(offer)
    }

    /// Whether an offer may stand beside all but the one at a place.
    fn judge_without(&self, place: usize, offer: &Offer) -> Result<(), RegisterFault>
        requires { place < vec_len self.now.offers }
        ensures { result ≡ beside (periods_of self.now) (take place (offers_of self.now) ++ drop (place + 1) (offers_of self.now)) (facts offer.now) }
    {
        let all = self.as_slice();
        let others = Others {
            calendar: &self.calendar,
            before: &all[..place],
            after: &all[place + 1..],
        };
        others.judge(offer)
    }

    /// Whether an offer may enter.
    fn may_enter(&self, offer: &Offer) -> Result<(), RegisterFault>
        ensures value { result ≡ admitted (periods_of self.now) (offers_of self.now) (facts offer.now) }
        ensures room { OnOk result (vec_len self.now.offers < 32) }
    {
        if self.place_of(offer).is_some() {
            return Err(RegisterFault::Known);
        }
        if self.offers.len() >= MOST_OFFERS {
            return Err(RegisterFault::Full);
        }
        self.judge_with_all(offer)
    }
}

impl Table {
    /// Lets an offer enter at the end.
    pub(crate) fn enter(&mut self, offer: Offer) -> Result<(), RegisterFault>
        requires { Fits (periods_of self.old) (facts offer) }
        ensures value { result ≡ admitted (periods_of self.old) (offers_of self.old) (facts offer) }
        ensures after { Holds self.old self.new (if_ok result (offers_of self.old ++ (facts offer ∷ [])) (offers_of self.old)) }
    {
        self.may_enter(&offer)?;
        self.offers.push_reserved(offer);
        Ok(())
    }

    /// Puts an offer into the place of the one of its identifier, and touches no other.
    pub(crate) fn amend(&mut self, offer: Offer) -> Result<(), RegisterFault>
        requires { Fits (periods_of self.old) (facts offer) }
        ensures value { result ≡ amendable (periods_of self.old) (offers_of self.old) (facts offer) }
        ensures after { Holds self.old self.new (if_ok result (replaced (facts offer) (offers_of self.old)) (offers_of self.old)) }
    {
        let place = self.place_of(&offer).ok_or(RegisterFault::Unknown)?;
        self.judge_without(place, &offer)?;
        self.offers[place] = offer;
        Ok(())
    }

    /// Takes the offer of that identifier out, and keeps the order of the others.
    pub(crate) fn withdraw(&mut self, identifier: Identifier<'_>) -> Result<(), RegisterFault>
        ensures value { result ≡ withdrawable identifier.entry.name.now identifier.entry.number (offers_of self.old) }
        ensures after { Holds self.old self.new (if_ok result (others identifier.entry.name.now identifier.entry.number (offers_of self.old)) (offers_of self.old)) }
    {
        let place = self.place(identifier).ok_or(RegisterFault::Unknown)?;
        let _ = self.offers.remove(place);
        Ok(())
    }

    /// Saves the offer of that identifier as its sheet, and tells how many bytes that are.
    pub(crate) fn save(
        &self,
        identifier: Identifier<'_>,
        buffer: &mut [u8],
    ) -> Result<usize, RegisterFault>
        ensures value { result ≡ saved_length (length buffer.old) (standing_in identifier.entry.name.now identifier.entry.number (offers_of self.now)) }
        ensures buffer { buffer.new ≡ saved_buffer buffer.old (standing_in identifier.entry.name.now identifier.entry.number (offers_of self.now)) }
    {
        let place = self.place(identifier).ok_or(RegisterFault::Unknown)?;
        Ok(self.as_slice()[place].save(buffer)?)
    }
}
