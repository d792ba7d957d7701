//! Lines of fields of one kind.
ghost use Rattle.std.specs.Prelude.{IfSome, ◌≡◌, ℕ, ◌^◌, ◌<◌, ◌≤◌, length};
ghost use Rattle.std.specs.List.{AllByRecursion};
ghost use Rattle.text.specs.Form.{Reads, field, fields, price as price_of, whole as whole_of};
ghost use Rattle.text.specs.Lines.{number_line, price_line, short_line, values_of, values_read};
ghost use Rattle.text.specs.Tokens.{value_read};

use crate::ends::line_end;
use crate::number::{Number, number_field};
use crate::price::{Price, price_field};
use short_list::ShortList;

/// The most fields that a line of numbers or prices may be asked for: no line has more than a month has periods.
pub const MOST_FIELDS: usize = 11;

/// The values of a line's fields, in their order.
pub type Values = ShortList<u64, MOST_FIELDS>;

/// A token that means a number.
trait Amount<'a> {
    ghost reads: { Reads ℕ };

    ghost limit: { ℕ };

    /// The number that the field at the front means, and what follows the semicolon that ends it.
    fn field(text: &'a [u8]) -> Option<(u64, &'a [u8])>
        ensures read { value_read result ≡ field reads text.now }
        ensures small { IfSome result (λ p. p.0 < limit) };
}

impl<'a> Amount<'a> for Number<'a> {
    ghost reads = { whole_of };

    ghost limit = { 10 ^ 10 };

    fn field(text: &'a [u8]) -> Option<(u64, &'a [u8])> {
        let (number, rest) = number_field(text)?;
        Some((number.value, rest))
    }
}

impl<'a> Amount<'a> for Price<'a> {
    ghost reads = { price_of };

    ghost limit = { 10 ^ 9 };

    fn field(text: &'a [u8]) -> Option<(u64, &'a [u8])> {
        let (price, rest) = price_field(text)?;
        Some((price.cents, rest))
    }
}

/// The values of the next `count` fields, and what follows them.
fn values<'a, A: Amount<'a>>(text: &'a [u8], count: usize) -> Option<(Values, &'a [u8])>
    requires { count ≤ 11 }
    ensures read { values_read result ≡ fields A.reads count text.now }
    ensures small { IfSome result (λ p. AllByRecursion (λ v. v < A.limit) (values_of p.0)) }
    ensures long { IfSome result (λ p. length (values_of p.0) ≡ count) }
{
    let mut values = Values::new();
    let mut rest = text;
    for _ in 0..count {
        let (value, after) = A::field(rest)?;
        values.push(value);
        rest = after;
    }
    Some((values, rest))
}

/// A line of `count` fields, and what follows its line feed; none also where more are asked for than a line may have.
fn line<'a, A: Amount<'a>>(text: &'a [u8], count: usize) -> Option<(Values, &'a [u8])>
    ensures read { values_read result ≡ short_line A.reads count text.now }
    ensures small { IfSome result (λ p. AllByRecursion (λ v. v < A.limit) (values_of p.0)) }
    ensures long { IfSome result (λ p. length (values_of p.0) ≡ count) }
{
    if count > MOST_FIELDS {
        return None;
    }
    let (values, rest) = values::<A>(text, count)?;
    Some((values, line_end(rest)?))
}

/// A line of `count` whole numbers, each ended by a semicolon, and what follows its line feed; none also where more are asked
/// for than a line may have.
pub fn number_line<'a>(text: &'a [u8], count: usize) -> Option<(Values, &'a [u8])>
    ensures read { values_read result ≡ number_line count text.now }
    ensures small { IfSome result (λ p. AllByRecursion (λ v. v < 10 ^ 10) (values_of p.0)) }
    ensures long { IfSome result (λ p. length (values_of p.0) ≡ count) }
{
    line::<Number>(text, count)
}

/// A line of `count` prices, each ended by a semicolon, in cents, and what follows its line feed; none also where more are
/// asked for than a line may have.
pub fn price_line<'a>(text: &'a [u8], count: usize) -> Option<(Values, &'a [u8])>
    ensures read { values_read result ≡ price_line count text.now }
    ensures small { IfSome result (λ p. AllByRecursion (λ v. v < 10 ^ 9) (values_of p.0)) }
    ensures long { IfSome result (λ p. length (values_of p.0) ≡ count) }
{
    line::<Price>(text, count)
}
