//! The store of a run: ranges of words that are written once and never change.
#![tactic(auto)]

ghost use Rattle.std.specs.Prelude.{◌≡◌, ◌≢◌, ℕ, ◌+◌, ◌<◌, ◌≤◌, ◌++◌, List, Some, [], length, slice_get, vec_len, vec_capacity};
ghost use Rattle.std.specs.Prelude.{IfOk, IfErr, OnOk};
ghost use Rattle.ranges.specs.Ranges.{Has};
ghost use Rattle.tlwords.specs.Plays.{IsSameSeat};
ghost use Rattle.tlwords.specs.Views.{Staging};
ghost use Rattle.tlwords.specs.Runs.{Finishes, Fetched, IsSeated};
ghost use Rattle.tlwords.specs.Calls.{HasLoaded, HasLoadedSome, HasStaged, IsRefused};

use crate::law::Law;
use crate::rule::TableSeat;
use crate::runs::Run;
use crate::store_steps::{advance, fetch_word, fill};
use crate::words::Words;
use ranges::Range;
use std::alloc::AllocError;
use std::error::Error;
use std::fmt;
use std::marker::Brand;

/// The store has no room for the words, or had none for those that this session wanted to stage before.
#[derive(Clone, Copy, Debug, PartialEq, Eq)]
pub struct StoreFull;

impl StoreFull {
    ghost use Rattle.std.specs.Prelude.{codes};

    /// The number of the refusal: 1.
    pub fn number(self) -> u32
        ensures { result ≡ 1 }
    {
        1
    }

    /// The name of the refusal, as messages print it.
    pub fn name(self) -> &'static str
        ensures { result.now ≡ codes "StoreFull" }
    {
        "StoreFull"
    }
}

/// The number and the name of the refusal, as in `1 StoreFull`.
impl fmt::Display for StoreFull {
    ghost use Rattle.std.specs.Prelude.{Some, codes};
    ghost use Rattle.tlwords.specs.Faults.{printed};

    ghost output = { λ _. Some (printed 1 (codes "StoreFull")) };

    fn fmt<W: fmt::Write>(&self, f: &mut fmt::Formatter<W>) -> fmt::Result {
        let number = self.number();
        let name = self.name();
        write!(f, "{number} {name}")
    }
}

impl Error for StoreFull {}

impl<'w, L: Law> Run<'w, L> {
    /// The word `index`, from 0, of a finished range that this session has seen. It is one load.
    pub fn load(&mut self, range: Range, index: usize) -> u64
        requires { (words : List ℕ) × Has (record { start = range.start; words = words }) self.old.known.seen.ranges
            × (length words ≡ range.len) × (index < range.len) }
        ensures value { (words : List ℕ) → Has (record { start = range.start; words = words }) self.old.known.seen.ranges
            → length words ≡ range.len → slice_get words index ≡ Some result }
        ensures loaded { HasLoaded L.terms self.old self.new }
    {
        fetch_word(self.words, &mut self.seat, range.start + index)
    }

    /// Puts the words of a finished range that this session has seen behind others, in order. It is one load for each.
    ///
    /// # Errors
    ///
    /// Want of memory: no word was loaded.
    pub fn load_all(&mut self, range: Range, words: &mut Vec<u64>) -> Result<(), AllocError>
        requires { (found : List ℕ) × Has (record { start = range.start; words = found }) self.old.known.seen.ranges
            × (length found ≡ range.len) }
        ensures words { OnOk result ((found : List ℕ) → Has (record { start = range.start; words = found }) self.old.known.seen.ranges
            → length found ≡ range.len → words.new.items ≡ words.old.items ++ found) }
        ensures loaded { HasLoadedSome L.terms self.old self.new }
    {
        words.reserve(range.len)?;
        fetch_all(self.words, &mut self.seat, range, words);
        Ok(())
    }

    /// Writes these words into the store, as a range that is finished and never changes. It takes no memory, and the cells stay.
    ///
    /// # Errors
    ///
    /// `StoreFull` where the words that are left are too few, and from then on for each staging of this session, without a step.
    pub fn stage(&mut self, words: &[u64]) -> Result<Range, StoreFull>
        requires { words.now ≢ [] }
        ensures same { (self.new.known.home ≡ self.old.known.home) × (self.new ≡ record self.old { known = self.new.known }) }
        ensures ok { IfOk result (λ range. (range.len ≡ length words.now) × HasStaged L.terms words.now range.start self.old self.new) }
        ensures err { IfErr result (λ _. IsRefused L.terms (length words.now) self.old self.new) }
    {
        if self.full {
            return Err(StoreFull);
        }
        let room = self.words.room;
        let start = advance::<L, Brand>(self.words, &mut self.seat, words);
        if words.len() > room || start > (room - words.len()) as u64 {
            self.full = true;
            return Err(StoreFull);
        }
        let start = start as usize;
        fill_all(self.words, &mut self.seat, start, words);
        Ok(Range {
            start,
            len: words.len(),
        })
    }
}

// Puts the words of a range of the store behind others, for which there is room.
fn fetch_all<L: Law>(
    words: &Words<L>,
    seat: &mut TableSeat<L>,
    range: Range,
    fetched: &mut Vec<u64>,
)
    requires seated { IsSeated words.now seat.old }
    requires room { words.now.room ≡ seat.old.me.0.room }
    requires within { (i : ℕ) → i < range.len → range.start + i < words.now.room }
    requires reserved { vec_len fetched.old + range.len ≤ vec_capacity fetched.old }
    ensures seat { IsSameSeat seat.old seat.new }
    ensures told { Fetched L.terms range range.len seat.old.me seat.new.me fetched.old.items fetched.new.items }
{
    for index in 0..range.len {
        let word = fetch_word(words, seat, range.start + index);
        fetched.push_reserved(word);
    }
}

// Stores the words of the range that the seat has taken, from the first to the last.
fn fill_all<L: Law>(words: &Words<L>, seat: &mut TableSeat<L>, start: usize, range: &[u64])
    requires seated { IsSeated words.now seat.old }
    requires sizes { (words.now.room ≡ seat.old.me.0.room) × (start + length range.now ≤ words.now.room) }
    requires some_words { range.now ≢ [] }
    requires staging { seat.old.me.0.staging ≡ Some (record { start = start; words = range.now; done = 0 }) }
    ensures seat { IsSameSeat seat.old seat.new }
    ensures finished { Finishes L.terms range.now start seat.old.me seat.new.me }
{
    for (i, word) in range.iter().enumerate() {
        fill(words, seat, start + i, *word);
    }
}
