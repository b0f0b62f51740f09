//! The forms of names.

ghost use Rattle.std.specs.Prelude.{◌≡◌, ◌↔◌, IsTrue};
ghost use Rattle.mmtext.specs.Text.{is_printable};
ghost use Rattle.mmsyntax.specs.Assertions.{is_plain_label};
ghost use Rattle.mmsyntax.specs.Preludes.{IsWord, IsSymbolWord, IsLabelWord};

use mmsyntax::MOST_NAME_BYTES;
use mmtext::{contains_dollar, contains_dot, is_label_token, names_hypothesis};

fn is_printable_byte(b: u8) -> bool
    ensures { result ≡ is_printable b }
{
    b > 32 && b < 127
}

/// Whether the bytes are those of a token.
fn is_word(word: &[u8]) -> bool
    ensures { IsTrue result ↔ IsWord word.now }
{
    !word.is_empty() && word.iter().all(|b| is_printable_byte(*b))
}

/// Whether a word may be a constant or a variable.
pub(crate) fn is_symbol_word(word: &[u8]) -> bool
    ensures { IsTrue result ↔ IsSymbolWord word.now }
{
    !contains_dollar(word)
        && word.len() <= MOST_NAME_BYTES
        && !names_hypothesis(word)
        && is_word(word)
}

/// Whether a word may be the label of a `$f`.
pub(crate) fn is_label_word(word: &[u8]) -> bool
    ensures { IsTrue result ↔ IsLabelWord word.now }
{
    is_label_token(word) && !contains_dot(word) && word.len() <= MOST_NAME_BYTES && is_word(word)
}

/// Whether a word is 1 to 255 bytes of a label.
pub(crate) fn is_plain_label(word: &[u8]) -> bool
    ensures { result ≡ is_plain_label word.now }
{
    word.len() >= 1 && word.len() <= MOST_NAME_BYTES && is_label_token(word)
}
