//! Single steps on the store: the tail, and the words that are written once. Each is one load, store or fetch-and-add of one word.
#![tactic(auto)]

ghost use Rattle.std.specs.Prelude.{◌≡◌, ◌≢◌, ℕ, ◌+◌, ◌<◌, ◌≤◌, Some, None, [], length, min, slice_get};
ghost use Rattle.tlwords.specs.Plays.{IsSameSeat, Advances, Fills, Fetches};
ghost use Rattle.tlwords.specs.Views.{Staging};
ghost use Rattle.tlwords.specs.Runs.{IsSeated};

use crate::law::Law;
use crate::layout::{STORE, TAIL};
use crate::plays::{Advance, Fetch, Fill, Said};
use crate::rule::TableSeat;
use crate::words::Words;

/// Advances the tail of the store by the number of these words, or by the room and one where that is less, so that it never wraps. The
/// result is the tail before.
pub(crate) fn advance<L: Law, G: Said<L::Note>>(
    words: &Words<L>,
    seat: &mut TableSeat<L>,
    range: &[u64],
) -> u64
    requires seated { IsSeated words.now seat.old }
    requires room { words.now.room ≡ seat.old.me.0.room }
    requires said { G.words ≡ range.now }
    requires some_words { range.now ≢ [] }
    requires open { (seat.old.me.0.staging ≡ None) × (seat.old.me.0.full ≡ None) × (1 ≤ seat.old.me.0.rights) }
    ensures seat { IsSameSeat seat.old seat.new }
    ensures told { Advances L.terms range.now seat.old.me result seat.new.me }
{
    // A fetch-and-add: with a load and a store two seats could take one range. A seat whose range doesn't fit has advanced the tail too:
    // an exchange in a loop would keep these words, but a seat could wait for others then.
    let count = range.len().min(words.room + 1);
    words.fetch_add::<Advance<L, G>>(seat, 2 * words.cells + TAIL, count as u64)
}

/// Stores the next word of the range that the seat has taken, at this index of the store.
pub(crate) fn fill<L: Law>(words: &Words<L>, seat: &mut TableSeat<L>, offset: usize, word: u64)
    requires seated { IsSeated words.now seat.old }
    requires sizes { (words.now.room ≡ seat.old.me.0.room) × (offset < words.now.room) }
    requires staging { (s : Staging) × (seat.old.me.0.staging ≡ Some s) × (offset ≡ s.start + s.done)
        × (slice_get s.words s.done ≡ Some word) }
    ensures seat { IsSameSeat seat.old seat.new }
    ensures told { Fills L.terms seat.old.me seat.new.me }
{
    // A store, since just the seat that took the range knows of it: no cell leads there before all its words are stored.
    words.store::<Fill<L>>(seat, 2 * words.cells + STORE + offset, word);
}

/// Loads the word of the store at this index.
pub(crate) fn fetch_word<L: Law>(words: &Words<L>, seat: &mut TableSeat<L>, offset: usize) -> u64
    requires seated { IsSeated words.now seat.old }
    requires sizes { (words.now.room ≡ seat.old.me.0.room) × (offset < words.now.room) }
    ensures seat { IsSameSeat seat.old seat.new }
    ensures told { Fetches L.terms offset seat.old.me result seat.new.me }
{
    // One load without a look at a lock word: a word of the store is written once, before any cell leads to it.
    words.load::<Fetch<L>>(seat, 2 * words.cells + STORE + offset)
}
