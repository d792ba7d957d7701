//! Taken blocks: the book that a choice of blocks leaves.
ghost use Rattle.std.specs.Prelude.{◌≡◌, ℕ, ◌≤◌, false, take, if◌then◌else◌, None, slice_index_or};
ghost use Rattle.book.specs.Book.{block_asked, price_asked};
ghost use Rattle.book.specs.Limits.{count, has_block};
ghost use Rattle.book.specs.Taken.{taken, taken_limits, takes};

use crate::book::Book;
use sheet::Product;

/// A book without the blocks of a choice: an offer whose block is taken keeps its place and its facts, but is offered in
/// no period and has no block.
///
/// A choice is a set of blocks by the bits of a number: of the offers that have a block, the first counts 1, the second 2,
/// the third 4 and so on.
#[derive(Drop)]
pub struct Taken<'a, B> {
    book: &'a B,
    choice: u32,
}

impl<'a, B> Taken<'a, B> {
    /// The book that a choice of blocks leaves of another.
    pub fn new(book: &'a B, choice: u32) -> Taken<'a, B>
        ensures below { result.book.now ≡ book.now }
        ensures choice { result.choice ≡ choice }
    {
        Taken { book, choice }
    }
}

/// How many of the offers before a place have a block.
fn blocks_before<B: Book>(book: &B, offer: usize) -> usize
    ensures value { result ≡ count has_block (take offer (B.Book.offers book.now)) }
    ensures bound { result ≤ 6 }
{
    (0..offer)
        .filter(|place| book.block(*place).is_some())
        .count()
}

impl<'a, B: Book> Taken<'a, B> {
    /// Whether the block of an offer is in the choice.
    fn is_taken(&self, offer: usize) -> bool
        ensures value { result ≡ slice_index_or (takes self.now.choice (B.Book.offers self.now.book.now)) offer false }
        ensures price { (t k : ℕ) → (if result then None else price_asked (B.Book.offers self.now.book.now) offer t k) ≡ price_asked (taken self.now.choice (B.Book.offers self.now.book.now)) offer t k }
        ensures block { (if result then None else block_asked (B.Book.offers self.now.book.now) offer) ≡ block_asked (taken self.now.choice (B.Book.offers self.now.book.now)) offer }
    {
        self.book.block(offer).is_some()
            && (self.choice >> blocks_before(self.book, offer)) % 2 == 1
    }
}

#[tactic(auto, using(crate::proofs::TakenAsked::asked_kept, crate::proofs::TakenAsked::width_kept, crate::specs::Taken::length_taken))]
impl<'a, B: Book> Book for Taken<'a, B> {
    ghost days = { λ t. B.Book.days t.book.now };

    ghost offers = { λ t. taken t.choice (B.Book.offers t.book.now) };

    ghost kept = { λ t. taken_limits (B.Book.days t.book.now) t.choice (B.Book.offers t.book.now) (B.Book.kept t.book.now) };

    fn periods(&self) -> usize {
        self.book.periods()
    }

    fn days_in(&self, period: usize) -> Option<u32> {
        self.book.days_in(period)
    }

    fn month_days(&self) -> u32 {
        self.book.month_days()
    }

    fn offer_count(&self) -> usize {
        self.book.offer_count()
    }

    fn name(&self, offer: usize) -> Option<&[u8]> {
        self.book.name(offer)
    }

    fn number(&self, offer: usize) -> Option<u32> {
        self.book.number(offer)
    }

    fn floor(&self, offer: usize) -> Option<u32> {
        self.book.floor(offer)
    }

    fn product(&self, offer: usize) -> Option<Product> {
        self.book.product(offer)
    }

    fn is_observed(&self, offer: usize) -> Option<bool> {
        self.book.is_observed(offer)
    }

    fn is_short(&self, offer: usize) -> Option<bool> {
        self.book.is_short(offer)
    }

    fn range_count(&self, offer: usize) -> Option<usize> {
        self.book.range_count(offer)
    }

    fn width(&self, offer: usize, range: usize) -> Option<u32> {
        self.book.width(offer, range)
    }

    fn price(&self, offer: usize, period: usize, range: usize) -> Option<u32> {
        let price = self.book.price(offer, period, range);
        if self.is_taken(offer) { None } else { price }
    }

    fn block(&self, offer: usize) -> Option<u32> {
        let block = self.book.block(offer);
        if self.is_taken(offer) { None } else { block }
    }
}
