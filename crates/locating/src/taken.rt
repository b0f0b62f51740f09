//! Where a name was declared that is taken at a place of a source, by the words in front of it.

ghost use Rattle.std.specs.Prelude.{◌≡◌, ◌||◌, ◌&&◌, ◌==◌, ◌<◌, ◌-◌, ◌^◌, map};
ghost use Rattle.std.specs.Option.{option_map};
ghost use Rattle.mmtext.specs.Views.{seen};
ghost use Rattle.locating.specs.Fronts.{says, front_of};
ghost use Rattle.locating.specs.Taken.{is_led, lists_symbols, is_float_front, closed_with, first_declared, last_declared, last_typed};

use crate::fronts::{follows_label, front_of, says};
use mmtext::Token;

/// Whether a keyword stands first among words, so that a label stands in front of them.
fn is_led(behind: &[Token<'_>]) -> bool
    ensures { result ≡ is_led (map seen behind.now) }
{
    match behind.first() {
        None => false,
        Some(first) => follows_label(*first),
    }
}

/// Whether words of a statement are those of a `$c` or `$v`.
pub(crate) fn lists_symbols(front: &[Token<'_>]) -> bool
    ensures { result ≡ lists_symbols (map seen front.now) }
{
    match front.first() {
        None => false,
        Some(first) => says(b"$c", *first) || says(b"$v", *first),
    }
}

/// Whether words of a statement are the label, the keyword and the type of a `$f`.
pub(crate) fn is_float_front(front: &[Token<'_>]) -> bool
    ensures { result ≡ is_float_front (map seen front.now) }
{
    match front {
        [_, keyword, _] => says(b"$f", *keyword),
        _ => false,
    }
}

/// Whether a symbol of a `$c` or `$v` stands behind words.
fn declares_symbol(front: &[Token<'_>]) -> bool
    ensures { result ≡ lists_symbols (front_of (map seen front.now)) }
{
    lists_symbols(front_of(front))
}

/// Whether the variable of a `$f` stands behind words.
fn has_type(front: &[Token<'_>]) -> bool
    ensures { result ≡ is_float_front (front_of (map seen front.now)) }
{
    is_float_front(front_of(front))
}

/// How many blocks a word closes, and words behind it that close so many.
fn closed_with(token: Token<'_>, closed: usize) -> usize
    requires { closed < 2 ^ 64 - 1 }
    ensures { result ≡ closed_with (seen token.entry) closed }
{
    if says(b"$}", token) {
        closed + 1
    } else if says(b"${", token) {
        closed.saturating_sub(1)
    } else {
        closed
    }
}

/// Whether a word between others declares a name.
fn is_declaration(name: &[u8], front: &[Token<'_>], word: Token<'_>, behind: &[Token<'_>]) -> bool
    ensures { result ≡ (says name.now (seen word.entry)
        && (is_led (map seen behind.now) || lists_symbols (front_of (map seen front.now)))) }
{
    says(name, word) && (is_led(behind) || declares_symbol(front))
}

/// Whether a word between others, which close so many blocks behind it, declares a name that counts behind them.
fn is_lasting(
    name: &[u8],
    front: &[Token<'_>],
    word: Token<'_>,
    behind: &[Token<'_>],
    closed: usize,
) -> bool
    ensures { result ≡ (says name.now (seen word.entry)
        && (is_led (map seen behind.now) || (lists_symbols (front_of (map seen front.now)) && closed == 0))) }
{
    says(name, word) && (is_led(behind) || (declares_symbol(front) && closed == 0))
}

/// Whether a word behind others, behind which so many blocks are closed, is the variable of a `$f` that is active there.
fn is_typed(name: &[u8], front: &[Token<'_>], word: Token<'_>, closed: usize) -> bool
    ensures { result ≡ (says name.now (seen word.entry) && (is_float_front (front_of (map seen front.now)) && closed == 0)) }
{
    says(name, word) && (has_type(front) && closed == 0)
}

/// The first word that declares a name, also in a closed block.
pub(crate) fn first_declared<'a>(name: &[u8], words: &[Token<'a>]) -> Option<Token<'a>>
    ensures { option_map seen result ≡ first_declared name.now (map seen words.now) }
{
    for (at, word) in words.iter().enumerate() {
        if is_declaration(name, &words[..at], *word, &words[at + 1..]) {
            return Some(*word);
        }
    }
    None
}

/// The last word that declares a name, and counts behind all words.
pub(crate) fn last_declared<'a>(name: &[u8], words: &[Token<'a>]) -> Option<Token<'a>>
    ensures { option_map seen result ≡ last_declared name.now (map seen words.now) }
{
    let mut closed = 0;
    let mut at = words.len();
    while at > 0 {
        at -= 1;
        let word = words[at];
        if is_lasting(name, &words[..at], word, &words[at + 1..], closed) {
            return Some(word);
        }
        closed = closed_with(word, closed);
    }
    None
}

/// The variable of the last `$f` of a name that is active behind all words.
pub(crate) fn last_typed<'a>(name: &[u8], words: &[Token<'a>]) -> Option<Token<'a>>
    ensures { option_map seen result ≡ last_typed name.now (map seen words.now) }
{
    let mut closed = 0;
    let mut at = words.len();
    while at > 0 {
        at -= 1;
        let word = words[at];
        if is_typed(name, &words[..at], word, closed) {
            return Some(word);
        }
        closed = closed_with(word, closed);
    }
    None
}
