//! The tokens of a text.

ghost use Rattle.std.specs.Prelude.{◌≡◌, ◌<◌, ◌≤◌, ◌+◌, ◌∷◌, [], length, drop, IfSome, IfNone};
ghost use Rattle.std.specs.List.{list_all};
ghost use Rattle.mmtext.specs.Text.{is_white, is_lawful, bad_byte, tokens_from};
ghost use Rattle.mmtext.specs.Views.{seen};

/// A token: a maximal run of printable bytes.
#[derive(Clone, Copy, Debug)]
pub struct Token<'a> {
    /// The byte of the text at which it begins, counted from 0.
    pub place: usize,
    /// Its bytes, at least one.
    pub text: &'a [u8],
}

fn is_white_byte(b: u8) -> bool
    ensures { result ≡ is_white b }
{
    b == b' ' || b == b'\t' || b == b'\n' || b == 12 || b == b'\r'
}

fn is_lawful_byte(b: u8) -> bool
    ensures { result ≡ is_lawful b }
{
    (b >= 32 && b <= 126) || (b >= 9 && b <= 13 && b != 11)
}

/// Whether every byte may stand in a text. It looks at all of them, since it needn't branch then, and a processor takes many at once.
fn are_lawful(text: &[u8]) -> bool
    ensures { result ≡ list_all is_lawful text.now }
{
    let mut lawful = true;
    for b in text {
        lawful &= is_lawful_byte(*b);
    }
    lawful
}

/// The place of the first byte that is neither printable ASCII nor white space, counted from 0.
pub fn first_bad_byte(text: &[u8]) -> Option<usize>
    ensures { result ≡ bad_byte text.now }
{
    if are_lawful(text) {
        return None;
    }
    text.iter().position(|b| !is_lawful_byte(*b))
}

/// The first token that begins at a place or later. `from` is a byte of the text, counted from 0, or its end.
pub fn next_token(text: &[u8], from: usize) -> Option<Token<'_>>
    requires { from ≤ length text.now }
    ensures none { IfNone result (tokens_from from (drop from text.now) ≡ []) }
    ensures some { IfSome result (λ t. let end = t.place + length t.text.now in
        tokens_from from (drop from text.now) ≡ seen t ∷ tokens_from end (drop end text.now)) }
    ensures later { IfSome result (λ t. from < t.place + length t.text.now) }
    ensures within { IfSome result (λ t. t.place + length t.text.now ≤ length text.now) }
{
    let mut start = from;
    while start < text.len() && is_white_byte(text[start]) {
        start += 1;
    }
    if start == text.len() {
        return None;
    }
    let mut end = start + 1;
    while end < text.len() && !is_white_byte(text[end]) {
        end += 1;
    }
    Some(Token {
        place: start,
        text: &text[start..end],
    })
}
