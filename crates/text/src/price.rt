//! Prices.
ghost use Rattle.std.specs.Prelude.{IfSome, ◌≡◌, ℕ, ◌^◌, ◌<◌, ◌∷◌};
ghost use Rattle.text.specs.Form.{decimals as decimals_of, ended, field, price as price_of};
ghost use Rattle.text.specs.Tokens.{PriceAt, Tail, price_read, value_read};

use crate::digits::{digits, value};
use crate::ends::past;
use crate::number::number_up_to;
use crate::token::{Token, closing, field};

/// The most digits that the euros of a price may have.
pub const EURO_DIGITS: usize = 7;

/// A price: the bytes that write it, which are a part of the text, and what it is in cents.
#[derive(Clone, Copy)]
pub struct Price<'a> {
    pub bytes: &'a [u8],
    pub cents: u64,
}

/// The cents of a price of which the euros are read, and what follows it.
fn decimals<'a>(euros: u64, text: &'a [u8]) -> Option<(u64, &'a [u8])>
    requires { euros < 10 ^ 7 }
    ensures read { value_read result ≡ decimals_of euros text.now }
    ensures small { IfSome result (λ p. p.0 < 10 ^ 9) }
    ensures tail { IfSome result (λ p. Tail text.now p.1.now) }
{
    let Some(after) = past(b',', text) else {
        return Some((euros * 100, text));
    };
    let (digits, rest) = digits(after, 2)?;
    // a digit alone is tens of cents
    let unit = if digits.len() == 1 { 10 } else { 1 };
    Some((euros * 100 + value(digits) * unit, rest))
}

/// The price at the front, and what follows it.
pub fn read_price<'a>(text: &'a [u8]) -> Option<(Price<'a>, &'a [u8])>
    ensures read { price_read result ≡ price_of text.now }
    ensures token { IfSome result (λ p. PriceAt text.now p.0 p.1.now) }
{
    let (euros, after) = number_up_to(EURO_DIGITS, text)?;
    let (cents, rest) = decimals(euros.value, after)?;
    let bytes = &text[..text.len() - rest.len()];
    Some((Price { bytes, cents }, rest))
}

impl<'a> Token<'a> for Price<'a> {
    ghost Value = { ℕ };

    ghost value = { λ price. price.cents };

    ghost reads = { price_of };

    ghost StandsAt = { PriceAt };

    fn read(text: &'a [u8]) -> Option<(Price<'a>, &'a [u8])> {
        read_price(text)
    }
}

/// The price at the front with the semicolon that ends its field, and what follows them.
pub fn price_field<'a>(text: &'a [u8]) -> Option<(Price<'a>, &'a [u8])>
    ensures read { price_read result ≡ field price_of text.now }
    ensures token { IfSome result (λ p. PriceAt text.now p.0 (59 ∷ p.1.now)) }
{
    field(text)
}

/// The price that is the last field of its line, with the line feed after it, and what follows them.
pub fn closing_price<'a>(text: &'a [u8]) -> Option<(Price<'a>, &'a [u8])>
    ensures read { price_read result ≡ ended 10 (field price_of) text.now }
    ensures token { IfSome result (λ p. PriceAt text.now p.0 (59 ∷ 10 ∷ p.1.now)) }
{
    closing(text)
}
