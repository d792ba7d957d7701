//! Bytes of one kind at the front of a text.
ghost use Rattle.std.specs.Prelude.{IfSome, ◌≡◌, ℕ, ◌≤◌, Bool, length};
ghost use Rattle.std.specs.List.{prefix_len as leading_of};
ghost use Rattle.text.specs.Form.{run as run_of};
ghost use Rattle.text.specs.Tokens.{Decides, Part, part_read};

/// How many bytes of a kind stand at the front.
fn leading<F: Fn(u8) -> bool>(text: &[u8], is_kind: F) -> usize
    ghost kind: { ℕ → Bool }
    requires callable { F.IsAlwaysCallable is_kind }
    requires decides { Decides kind (F.post is_kind) }
    ensures count { result ≡ leading_of kind text.now }
    ensures within { result ≤ length text.now }
{
    text.iter().take_while(|byte| is_kind(**byte)).count()
}

/// The bytes of a kind at the front, if they are at least one and not more than `most`, and what follows them.
pub(crate) fn run<'a, F: Fn(u8) -> bool>(
    text: &'a [u8],
    most: usize,
    is_kind: F,
) -> Option<(&'a [u8], &'a [u8])>
    ghost kind: { ℕ → Bool }
    requires callable { F.IsAlwaysCallable is_kind }
    requires decides { Decides kind (F.post is_kind) }
    ensures read { part_read result ≡ run_of kind 1 most text.now }
    ensures part { IfSome result (λ p. Part kind 1 most text.now p.0.now p.1.now) }
{
    let n = leading(text, is_kind);
    if n == 0 || n > most {
        return None;
    }
    Some(text.split_at(n))
}
