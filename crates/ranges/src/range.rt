//! A range of a store by its place, and the word that names it.

ghost use Rattle.std.specs.Prelude.{◌≡◌, ◌+◌, ◌*◌, ◌/◌, ◌%◌, ◌^◌, ◌<◌};

/// One more than the greatest length that a word can tell: 2^25.
const LENGTHS: u64 = 33_554_432;

/// A range of the store: a run of store words that are written once.
#[derive(Clone, Copy, Debug, PartialEq, Eq)]
pub struct Range {
    /// The index of its first word in the store, from 0.
    pub start: usize,
    /// How many words it has.
    pub len: usize,
}

impl Range {
    /// The range that a word names, if it names one: a range of length n at store word o is named by `o * 2^25 + n`.
    pub fn named(word: u64) -> Range
        ensures start { result.start ≡ word / 2 ^ 25 }
        ensures len { result.len ≡ word % 2 ^ 25 }
    {
        Range {
            start: (word / LENGTHS) as usize,
            len: (word % LENGTHS) as usize,
        }
    }

    /// The word that names the range: `start * 2^25 + len`.
    pub fn word(self) -> u64
        requires start { self.start < 2 ^ 25 }
        requires len { self.len < 2 ^ 25 }
        ensures { result ≡ self.start * 2 ^ 25 + self.len }
    {
        self.start as u64 * LENGTHS + self.len as u64
    }
}
