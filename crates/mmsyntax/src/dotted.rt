//! Labels of the form `L.k`.

ghost use Rattle.std.specs.Prelude.{◌≡◌};
ghost use Rattle.mmsyntax.specs.Dotted.{hypothesis_numbered, is_dotted, trunk};

use crate::limits::MOST_HYPOTHESES;
use crate::numeral::number;
use mmtext::is_number_from_one;

/// The highest number of a hypothesis.
const HIGHEST_NUMBER: u32 = MOST_HYPOTHESES as u32;

/// The number k from 1 to 1,000 of a word `L.k`, where L is the label.
pub fn hypothesis_number(label: &[u8], word: &[u8]) -> Option<u32>
    ensures { result ≡ hypothesis_numbered label.now word.now }
{
    let behind_label = word.strip_prefix(label)?;
    let numeral = behind_label.strip_prefix(b".".as_slice())?;
    if !is_number_from_one(numeral) {
        return None;
    }
    let k = number(numeral)?;
    if k > HIGHEST_NUMBER {
        return None;
    }
    Some(k)
}

/// Whether a word is `L.k` for the label L, which isn't empty, and some k from 1 to 1,000: no library has both as labels.
pub fn is_dotted(label: &[u8], word: &[u8]) -> bool
    ensures { result ≡ is_dotted label.now word.now }
{
    !label.is_empty() && hypothesis_number(label, word).is_some()
}

/// L of a word `L.k`, where L isn't empty and k is from 1 to 1,000, and any other word whole.
pub fn trunk(word: &[u8]) -> &[u8]
    ensures { result.now ≡ trunk word.now }
{
    match word.iter().rposition(|byte| *byte == b'.') {
        Some(dot) if is_dotted(&word[..dot], word) => &word[..dot],
        _ => word,
    }
}
