//! Whole numbers.
ghost use Rattle.std.specs.Prelude.{IfSome, ◌≡◌, ℕ, ◌≤◌, ◌∷◌};
ghost use Rattle.text.specs.Form.{ended, field, number_up_to, whole as whole_of};
ghost use Rattle.text.specs.Tokens.{NumberAt, number_read};

use crate::digits::{digits, needless_zero, value};
use crate::token::{Token, closing, field};

/// The most digits that a whole number may have.
pub const WHOLE_DIGITS: usize = 10;

/// A whole number: the digits that write it, which are a part of the text, and its value.
#[derive(Clone, Copy)]
pub struct Number<'a> {
    pub digits: &'a [u8],
    pub value: u64,
}

/// The number of at most `most` digits at the front, and what follows it; none where no digit stands there, or too many,
/// or a needless zero in front of the others.
pub(crate) fn number_up_to<'a>(most: usize, text: &'a [u8]) -> Option<(Number<'a>, &'a [u8])>
    requires { most ≤ 10 }
    ensures read { number_read result ≡ number_up_to most text.now }
    ensures token { IfSome result (λ p. NumberAt most text.now p.0 p.1.now) }
{
    let (digits, rest) = digits(text, most)?;
    if needless_zero(digits) {
        return None;
    }
    let value = value(digits);
    Some((Number { digits, value }, rest))
}

/// The whole number at the front, and what follows it.
pub fn whole<'a>(text: &'a [u8]) -> Option<(Number<'a>, &'a [u8])>
    ensures read { number_read result ≡ whole_of text.now }
    ensures token { IfSome result (λ p. NumberAt 10 text.now p.0 p.1.now) }
{
    number_up_to(WHOLE_DIGITS, text)
}

impl<'a> Token<'a> for Number<'a> {
    ghost Value = { ℕ };

    ghost value = { λ number. number.value };

    ghost reads = { whole_of };

    ghost StandsAt = { NumberAt 10 };

    fn read(text: &'a [u8]) -> Option<(Number<'a>, &'a [u8])> {
        whole(text)
    }
}

/// The whole number at the front with the semicolon that ends its field, and what follows them.
pub fn number_field<'a>(text: &'a [u8]) -> Option<(Number<'a>, &'a [u8])>
    ensures read { number_read result ≡ field whole_of text.now }
    ensures token { IfSome result (λ p. NumberAt 10 text.now p.0 (59 ∷ p.1.now)) }
{
    field(text)
}

/// The whole number that is the last field of its line, with the line feed after it, and what follows them.
pub fn closing_number<'a>(text: &'a [u8]) -> Option<(Number<'a>, &'a [u8])>
    ensures read { number_read result ≡ ended 10 (field whole_of) text.now }
    ensures token { IfSome result (λ p. NumberAt 10 text.now p.0 (59 ∷ 10 ∷ p.1.now)) }
{
    closing(text)
}
