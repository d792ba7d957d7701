//! Digits at the front of a text, and the number that they write.
ghost use Rattle.std.specs.Prelude.{IfSome, ◌≡◌, ◌^◌, ◌<◌, ◌≤◌, true, length};
ghost use Rattle.std.specs.List.{AllByRecursion};
ghost use Rattle.text.specs.Form.{digit, needless_zero, run as run_of, value as value_of};
ghost use Rattle.text.specs.Tokens.{Part, part_read};

use crate::run::run;

/// Whether a byte is one of the digits 0 to 9.
pub fn is_digit(byte: u8) -> bool
    ensures { result ≡ digit byte }
{
    byte.is_ascii_digit()
}

/// The digits at the front, if they are at least one and not more than `most`, and what follows them.
pub(crate) fn digits<'a>(text: &'a [u8], most: usize) -> Option<(&'a [u8], &'a [u8])>
    ensures read { part_read result ≡ run_of digit 1 most text.now }
    ensures part { IfSome result (λ p. Part digit 1 most text.now p.0.now p.1.now) }
{
    run(text, most, is_digit)
}

/// Whether digits begin with a zero that they could do without.
pub(crate) fn needless_zero(digits: &[u8]) -> bool
    ensures { result ≡ needless_zero digits.now }
{
    matches!(digits, [b'0', _, ..])
}

/// The number that digits write.
pub(crate) fn value(digits: &[u8]) -> u64
    requires digits { AllByRecursion (λ b. digit b ≡ true) digits.now }
    requires few { length digits.now ≤ 10 }
    ensures is { result ≡ value_of digits.now }
    ensures small { result < 10 ^ length digits.now }
{
    let mut value = 0;
    for digit in digits {
        value = value * 10 + u64::from(*digit - b'0');
    }
    value
}
