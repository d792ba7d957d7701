//! The bytes that end a field and a line. They alone separate what a text holds, with the comma inside a price.
ghost use Rattle.std.specs.Prelude.{IfSome, ◌≡◌, [], ◌∷◌};
ghost use Rattle.text.specs.Form.{after};
ghost use Rattle.text.specs.Tokens.{rest_read};

/// What follows a byte that has to stand at the front.
pub(crate) fn past(byte: u8, text: &[u8]) -> Option<&[u8]>
    ensures read { rest_read result ≡ after (byte ∷ []) text.now }
    ensures stands { IfSome result (λ rest. text.now ≡ byte ∷ rest.now) }
{
    text.strip_prefix(&[byte])
}

/// What follows the semicolon that ends a field.
pub fn field_end<'a>(text: &'a [u8]) -> Option<&'a [u8]>
    ensures read { rest_read result ≡ after (59 ∷ []) text.now }
    ensures stands { IfSome result (λ rest. text.now ≡ 59 ∷ rest.now) }
{
    past(b';', text)
}

/// What follows the line feed that ends a line.
pub fn line_end<'a>(text: &'a [u8]) -> Option<&'a [u8]>
    ensures read { rest_read result ≡ after (10 ∷ []) text.now }
    ensures stands { IfSome result (λ rest. text.now ≡ 10 ∷ rest.now) }
{
    past(b'\n', text)
}
