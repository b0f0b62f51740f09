//! The numbers of symbols.

ghost use Rattle.std.specs.Prelude.{◌≡◌, IfOk, OnOk, Some, true, map, slice_get};
ghost use Rattle.source.specs.Views.{seen_words};
ghost use Rattle.sourceframes.specs.Names.{words_of, IsSound, Keeps, Lasts};

use std::alloc::{AllocError, Global};
use std::collections::HashMap;
use std::hash::RandomState;
use wordkeys::WordKeys;

/// How many numbers are noted of words that were met last: a power of two.
const RECENT: usize = 4096;

/// Words by numbers, from 0 in the order in which they were met.
pub struct Table<'a> {
    pub(crate) numbers: HashMap<&'a [u8], u32, WordKeys>,
    pub(crate) words: Vec<&'a [u8]>,
    /// Where hypotheses were found by their labels among the active ones. It may be that others stand there.
    pub(crate) places: HashMap<&'a [u8], usize, WordKeys>,
    /// The numbers of the variables of `$f` that were met last, by their places among the active ones. It may be that others stand there.
    pub(crate) recent: Vec<u32>,
    /// The numbers of words that were met last, by some of their bytes. It may be that others stand there.
    pub(crate) met: Vec<u32>,
}

// Proved here once: a derived drop is proved again in each crate that drops such a value.
impl Drop for Table<'_> {
    fn drop(self) {
        let Table {
            numbers: _,
            words: _,
            places: _,
            recent: _,
            met: _,
        } = self;
    }
}

/// The number at a place: any number where there is none.
fn number_at_place(numbers: &[u32], place: usize) -> u32 {
    match numbers.get(place) {
        None => 0,
        Some(number) => *number,
    }
}

/// A place below `RECENT` by the length of a word, its first byte, its last, and that in the middle.
fn place_by_bytes(word: &[u8]) -> usize {
    let length = word.len();
    if length == 0 {
        return 0;
    }
    let first = word[0] as usize;
    let middle = word[length / 2] as usize;
    let last = word[length - 1] as usize;
    (61 * first + 13 * middle + 7 * last + (length & 63)) & (RECENT - 1)
}

impl<'a> Table<'a> {
    /// No words.
    pub fn new(alloc: Global, keys: RandomState) -> Table<'a>
        ensures { IsSound result }
    {
        let keys = WordKeys::new(keys);
        Table {
            numbers: HashMap::with_hasher(alloc, keys),
            words: Vec::new(alloc),
            places: HashMap::with_hasher(alloc, keys),
            recent: Vec::new(alloc),
            met: Vec::new(alloc),
        }
    }

    /// How many words have a number.
    pub(crate) fn count(&self) -> usize {
        self.words.len()
    }

    /// The key of the hashes.
    pub(crate) fn keys(&self) -> WordKeys {
        *self.numbers.hasher()
    }

    /// The same words by the same numbers once more.
    ///
    /// # Errors
    ///
    /// Want of memory.
    pub fn copy(&self, alloc: Global) -> Result<Table<'a>, AllocError>
        requires { IsSound self.now }
        ensures sound { IfOk result IsSound }
        ensures same { IfOk result (λ t. words_of t ≡ words_of self.now) }
    {
        let keys = self.keys();
        let numbers = self.numbers.clone()?;
        let words = self.words.clone()?;
        Ok(Table {
            numbers,
            words,
            places: HashMap::with_hasher(alloc, keys),
            recent: Vec::new(alloc),
            met: Vec::new(alloc),
        })
    }

    /// The number of a word by its hash: it gets one if it has none. After an error nothing is said of the table.
    fn hashed_number(&mut self, word: &'a [u8]) -> Result<u32, AllocError>
        requires { IsSound self.old }
        ensures keeps { OnOk result (Keeps self.old self.new) }
        ensures named { IfOk result (λ n. Lasts (words_of self.new) (λ name. name n ≡ word.entry.now)) }
    {
        if let Some(number) = self.numbers.get(&word).copied() {
            return Ok(number);
        }
        let Ok(number) = u32::try_from(self.words.len()) else {
            return Err(AllocError);
        };
        self.words.push(word)?;
        self.numbers.insert(word, number)?;
        Ok(number)
    }

    /// The number of a word, which gets one if it has none: mostly that which was noted last for a word with such bytes, so that nothing is
    /// hashed. After an error nothing is said of the table.
    ///
    /// # Errors
    ///
    /// Want of memory. More words than a `u32` counts would be refused as if memory were wanting: no source has so many.
    pub(crate) fn number(&mut self, word: &'a [u8]) -> Result<u32, AllocError>
        requires { IsSound self.old }
        ensures keeps { OnOk result (Keeps self.old self.new) }
        ensures named { IfOk result (λ n. Lasts (words_of self.new) (λ name. name n ≡ word.entry.now)) }
    {
        let place = place_by_bytes(word);
        let last = number_at_place(self.met.as_slice(), place);
        if self.is_number_of(last, word) {
            return Ok(last);
        }
        let number = self.hashed_number(word)?;
        self.note_met(place, number)?;
        Ok(number)
    }

    /// The words of a list by their numbers. After an error nothing is said of the table.
    ///
    /// # Errors
    ///
    /// Want of memory.
    pub fn numbers(&mut self, alloc: Global, words: &[&'a [u8]]) -> Result<Vec<u32>, AllocError>
        requires { IsSound self.old }
        ensures keeps { OnOk result (Keeps self.old self.new) }
        ensures named { IfOk result (λ ns. Lasts (words_of self.new) (λ name. map name ns.items ≡ seen_words words.now)) }
    {
        let mut numbers = Vec::with_capacity(alloc, words.len())?;
        for word in words {
            numbers.push(self.number(*word)?)?;
        }
        Ok(numbers)
    }

    /// Whether a number is that of a word.
    fn is_number_of(&self, number: u32, word: &[u8]) -> bool
        ensures { result ≡ true → slice_get (words_of self.now) number ≡ Some word.now }
    {
        let place = number as usize;
        if place < self.words.len() {
            self.words[place] == word
        } else {
            false
        }
    }

    /// Notes the number of a word that was met, at the place for its bytes.
    fn note_met(&mut self, place: usize, number: u32) -> Result<(), AllocError>
        ensures numbers { self.new.numbers ≡ self.old.numbers }
        ensures words { self.new.words ≡ self.old.words }
    {
        if self.met.is_empty() {
            self.met.resize(RECENT, 0)?;
        }
        if place < self.met.len() {
            self.met[place] = number;
        }
        Ok(())
    }

    /// Notes the number of the variable of the active hypothesis at a place.
    fn note_recent(&mut self, place: usize, number: u32) -> Result<(), AllocError>
        ensures numbers { self.new.numbers ≡ self.old.numbers }
        ensures words { self.new.words ≡ self.old.words }
    {
        if place < self.recent.len() {
            self.recent[place] = number;
            return Ok(());
        }
        self.recent.push(number)?;
        Ok(())
    }

    /// The number of the variable of the active hypothesis at a place: that of the one that was met there last, if it is the same word; so
    /// mostly nothing is looked up. After an error nothing is said of the table.
    ///
    /// # Errors
    ///
    /// Want of memory.
    pub(crate) fn number_at(&mut self, place: usize, word: &'a [u8]) -> Result<u32, AllocError>
        requires { IsSound self.old }
        ensures keeps { OnOk result (Keeps self.old self.new) }
        ensures named { IfOk result (λ n. Lasts (words_of self.new) (λ name. name n ≡ word.entry.now)) }
    {
        let last = number_at_place(self.recent.as_slice(), place);
        if self.is_number_of(last, word) {
            return Ok(last);
        }
        let number = self.number(word)?;
        self.note_recent(place, number)?;
        Ok(number)
    }

    /// Where the hypothesis with a label was found last.
    pub fn last_place(&self, label: &[u8]) -> Option<usize> {
        self.places.get(&label).copied()
    }

    /// Notes where the hypothesis with a label was found.
    pub fn note_place(&mut self, label: &'a [u8], place: usize) -> Result<(), AllocError>
        ensures numbers { self.new.numbers ≡ self.old.numbers }
        ensures words { self.new.words ≡ self.old.words }
    {
        self.places.insert(label, place)?;
        Ok(())
    }
}
