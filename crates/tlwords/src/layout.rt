//! Where the words of a memory lie in its table.
//!
//! Seven words that are never used stand before and behind the clock, and before and behind the tail. So each of the two, which many
//! threads advance, has a line of the cache for itself, which is eight words, wherever in the table a line begins.
#![tactic(auto)]

/// No step changes this word: its load is a step that is none of the machine's.
pub(crate) const SPARE: usize = 0;

/// The clock.
pub(crate) const CLOCK: usize = 8;

/// The lock word of the cell 0. That of the cell c is 2 c behind it, and the value word of each cell is behind its lock word.
pub(crate) const FIRST_LOCK: usize = 16;

/// The value word of the cell 0.
pub(crate) const FIRST_VALUE: usize = 17;

/// The tail of the store, in a table with no cells. With n cells it is 2 n behind it.
pub(crate) const TAIL: usize = 23;

/// The first word of the store, in a table with no cells. With n cells it is 2 n behind it.
pub(crate) const STORE: usize = 31;

/// The words that are never used before the tail, and behind it.
pub(crate) const UNUSED: [u64; 7] = [0; 7];

/// The words before those of the cells, at the opening: the spare word and the clock are 0.
pub(crate) const HEAD: [u64; FIRST_LOCK] = [0; FIRST_LOCK];
