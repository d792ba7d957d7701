//! Names: of who offers, as they stand in a text.
ghost use Rattle.std.specs.Prelude.{IfSome, ◌≡◌, ℕ, List, ◌∷◌};
ghost use Rattle.text.specs.Form.{field, letter_or_digit, name as name_of, named};
ghost use Rattle.text.specs.Tokens.{NamedAt, Part, name_read, named_read};

use crate::number::{Number, closing_number};
use crate::run::run;
use crate::token::{Token, field};

/// The most bytes that a name may have.
pub const NAME_BYTES: usize = 16;

/// A name: its bytes, which are a part of the text.
#[derive(Clone, Copy)]
pub struct Name<'a> {
    pub bytes: &'a [u8],
}

/// Whether a byte is one of the letters A to Z or the digits 0 to 9.
pub fn is_letter_or_digit(byte: u8) -> bool
    ensures { result ≡ letter_or_digit byte }
{
    byte.is_ascii_uppercase() || byte.is_ascii_digit()
}

/// The name at the front, and what follows it; none where no letter or digit stands there, or too many.
pub fn read_name<'a>(text: &'a [u8]) -> Option<(Name<'a>, &'a [u8])>
    ensures read { name_read result ≡ name_of text.now }
    ensures token { IfSome result (λ p. Part letter_or_digit 1 16 text.now p.0.bytes.now p.1.now) }
{
    let (bytes, rest) = run(text, NAME_BYTES, is_letter_or_digit)?;
    Some((Name { bytes }, rest))
}

impl<'a> Token<'a> for Name<'a> {
    ghost Value = { List ℕ };

    ghost value = { λ name. name.bytes.now };

    ghost reads = { name_of };

    ghost StandsAt = { λ text name rest. Part letter_or_digit 1 16 text name.bytes.now rest };

    fn read(text: &'a [u8]) -> Option<(Name<'a>, &'a [u8])> {
        read_name(text)
    }
}

/// The name at the front with the semicolon that ends its field, and what follows them.
pub fn name_field<'a>(text: &'a [u8]) -> Option<(Name<'a>, &'a [u8])>
    ensures read { name_read result ≡ field name_of text.now }
    ensures token { IfSome result (λ p. Part letter_or_digit 1 16 text.now p.0.bytes.now (59 ∷ p.1.now)) }
{
    field(text)
}

/// A line of a name and a number, and what follows it.
pub fn named_line<'a>(text: &'a [u8]) -> Option<(Name<'a>, Number<'a>, &'a [u8])>
    ensures read { named_read result ≡ named text.now }
    ensures token { IfSome result (λ p. NamedAt text.now p.0 p.1 p.2.now) }
{
    let (name, after) = name_field(text)?;
    let (number, rest) = closing_number(after)?;
    Some((name, number, rest))
}
