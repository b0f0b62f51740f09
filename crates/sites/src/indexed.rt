//! Words in order, with a fast look-up of their places.

ghost use Rattle.std.specs.Prelude.{◌≡◌, ◌<◌, length, IfOk, IfSome};
ghost use Rattle.std.specs.Str.{bytes_eq};
ghost use Rattle.mmsyntax.specs.Tables.{place_of};
ghost use Rattle.source.specs.Views.{seen_words};
ghost use Rattle.sites.specs.Indexes.{FindsPlaces};

use std::alloc::{AllocError, Global};
use std::collections::HashMap;
use std::hash::RandomState;
use std::marker::Model;

/// Words that have the places 0, 1, .. in their order. A clause sees the words: the map is for look-ups alone.
pub struct Indexed<'a> {
    words: Vec<&'a [u8]>,
    places: HashMap<&'a [u8], usize, RandomState>,
}

// Proved here once: a derived drop is proved again at each exit that drops such a value.
impl<'a> Drop for Indexed<'a> {
    fn drop(self) {
        let Indexed {
            words: _,
            places: _,
        } = self;
    }
}

impl<'a> Model for Indexed<'a> {
    ghost use Rattle.std.specs.Prelude.{List};
    ghost use Rattle.mmtext.specs.Words.{Word};
    ghost use Rattle.source.specs.Views.{seen_words};
    ghost use Rattle.sites.specs.Indexes.{FindsPlaces};

    ghost Value = { List Word };

    ghost view = { λ s. seen_words s.words.items };

    ghost invariant = { λ s. FindsPlaces s.places (seen_words s.words.items) };
}

impl<'a> Indexed<'a> {
    /// Words with their first places. The map draws its hashes from the keys.
    ///
    /// # Errors
    ///
    /// Want of memory.
    pub fn new(
        alloc: Global,
        keys: RandomState,
        words: Vec<&'a [u8]>,
    ) -> Result<Indexed<'a>, AllocError>
        ensures { IfOk result (λ made. made ≡ seen_words words.entry.items) }
    {
        let places = first_places(alloc, keys, words.as_slice())?;
        Ok(Indexed { words, places })
    }

    /// The words, by their places.
    pub fn words(&self) -> &[&'a [u8]]
        ensures { seen_words result.now ≡ self.now }
    {
        self.words.as_slice()
    }

    /// How many words there are.
    pub(crate) fn len(&self) -> usize
        ensures { result ≡ length self.now }
    {
        self.words.len()
    }

    /// The first place of a word: one look-up.
    pub fn place(&self, word: &[u8]) -> Option<usize>
        ensures place { result ≡ place_of (bytes_eq word.now) self.now }
        ensures within { IfSome result (λ place. place < length self.now) }
    {
        self.places.get(&word).copied()
    }
}

/// A map from words to their first places.
fn first_places<'a>(
    alloc: Global,
    keys: RandomState,
    words: &[&'a [u8]],
) -> Result<HashMap<&'a [u8], usize, RandomState>, AllocError>
    ensures { IfOk result (λ made. FindsPlaces made (seen_words words.now)) }
{
    let mut places = HashMap::with_hasher(alloc, keys);
    for (place, word) in words.iter().enumerate() {
        if !places.contains_key(word) {
            places.insert(*word, place)?;
        }
    }
    Ok(places)
}
