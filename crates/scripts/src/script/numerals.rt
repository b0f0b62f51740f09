//! Decimal numbers without leading zero: ranks, and the numbers of hypotheses.

ghost use Rattle.std.specs.Prelude.{◌≡◌, ◌<◌, ℕ, Some};
ghost use Rattle.scripts.specs.ScriptFaults.{is_numeral};
ghost use Rattle.scripts.specs.ScriptViews.{place_numbered};

use mmsyntax::hypothesis_number;
use mmtext::is_number_from_one;

/// Whether a word is a decimal number without leading zero.
pub fn is_numeral(word: &[u8]) -> bool
    ensures { result ≡ is_numeral word.now }
{
    word == b"0".as_slice() || is_number_from_one(word)
}

/// The place of the hypothesis that a word names in another proof of an assertion, whose label is given: `L.k` names the one at k - 1, for
/// k from 1 to 1,000.
pub(super) fn hypothesis_place(label: &[u8], word: &[u8]) -> Option<u32>
    ensures place { result ≡ place_numbered label.now word.now }
    ensures few { (n : ℕ) → result ≡ Some n → n < 1000 }
{
    let k = hypothesis_number(label, word)?;
    Some(k - 1)
}
