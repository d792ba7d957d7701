//! Tokens: what the fields of a text hold, each with a reader of its own.
ghost use Rattle.std.specs.Prelude.{IfSome, ◌≡◌, ℕ, List, ◌∷◌};
ghost use Rattle.text.specs.Form.{Reads, ended as ended_of, field as field_of};
ghost use Rattle.text.specs.Tokens.{token_read};

use crate::ends::{field_end, line_end};

/// What may stand at the front of a text.
pub(crate) trait Token<'a>: Copy {
    ghost Value: { Type 0 };

    ghost value: { Self → Value };

    ghost reads: { Reads Value };

    ghost StandsAt: { (text : List ℕ) → Self → (rest : List ℕ) → Type 0 };

    /// The token at the front, and what follows it.
    fn read(text: &'a [u8]) -> Option<(Self, &'a [u8])>
        ensures read { token_read value result ≡ reads text.now }
        ensures token { IfSome result (λ p. StandsAt text.now p.0 p.1.now) };
}

/// The token at the front with the semicolon that ends its field, and what follows them.
pub(crate) fn field<'a, T: Token<'a>>(text: &'a [u8]) -> Option<(T, &'a [u8])>
    ensures read { token_read T.value result ≡ field_of T.reads text.now }
    ensures token { IfSome result (λ p. T.StandsAt text.now p.0 (59 ∷ p.1.now)) }
{
    let (token, rest) = T::read(text)?;
    Some((token, field_end(rest)?))
}

/// The token that is the last field of its line, with the line feed after it, and what follows them.
pub(crate) fn closing<'a, T: Token<'a>>(text: &'a [u8]) -> Option<(T, &'a [u8])>
    ensures read { token_read T.value result ≡ ended_of 10 (field_of T.reads) text.now }
    ensures token { IfSome result (λ p. T.StandsAt text.now p.0 (59 ∷ 10 ∷ p.1.now)) }
{
    let (token, rest) = field::<T>(text)?;
    Some((token, line_end(rest)?))
}
