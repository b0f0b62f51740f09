//! Laws of the definitions: each function does nothing, and its contract is the law.

ghost use Rattle.ranges.specs.Laws.{StoredAreCoherent, WordsNameOne, NamesLast, NamesItsRanges, NamedAreStored, NamedAreOfOneStore};

/// Ranges that are stored in one store are coherent: where two share a word of the store, they have the same value there.
pub fn stored_are_coherent()
    ensures { StoredAreCoherent }
{}

/// A word names at most one of coherent ranges of fewer than 2^25 words.
pub fn words_name_one()
    ensures { WordsNameOne }
{}

/// A word that names a range goes on to name it where there are more ranges.
pub fn names_last()
    ensures { NamesLast }
{}

/// The ranges of an opening are exactly those that its range cells name, but empty ones.
pub fn openings_name_their_ranges()
    ensures { NamesItsRanges }
{}

/// The ranges of an opening are stored, whatever stands behind the words of the store, and are of one store.
pub fn named_are_stored()
    ensures stored { NamedAreStored }
    ensures one { NamedAreOfOneStore }
{}
