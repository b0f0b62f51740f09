//! Words as a text, which remembers where they stand in the script.

ghost use Rattle.std.specs.Prelude.{◌≡◌, ◌++◌, ◌∷◌, [], IfOk, OnOk, List, map, length};
ghost use Rattle.std.specs.Fmt.{decimal};
ghost use Rattle.mmtext.specs.Text.{Token as Word};
ghost use Rattle.mmtext.specs.Views.{seen};
ghost use Rattle.spreading.specs.Words.{place_at, word_at};
ghost use Rattle.expanding.specs.Views.{IsLaid, with_beginning};

use mmtext::Token;
use std::alloc::{AllocError, Global};

/// A word of a text that a blank follows.
#[derive(Clone, Copy)]
struct Stretch {
    /// How many bytes it has, without the blank.
    length: usize,
    /// The byte of the script at which the word stands for which it stands.
    place: usize,
}

/// The text of a script in which no form of a source is left.
#[derive(Drop)]
pub struct Laid {
    /// The words, and a blank behind each.
    pub text: Vec<u8>,
    words: Vec<Stretch>,
    /// The bytes of the script at which its transactions begin, in order.
    pub beginnings: Vec<usize>,
}

impl Laid {
    /// No words.
    pub fn new(alloc: Global) -> Laid
        ensures laid { IsLaid [] result }
        ensures beginnings { result.beginnings.items ≡ [] }
    {
        Laid {
            text: Vec::new(alloc),
            words: Vec::new(alloc),
            beginnings: Vec::new(alloc),
        }
    }

    /// A transaction begins at a place of the script, if there is one.
    pub(crate) fn begin_at(&mut self, place: Option<usize>) -> Result<(), AllocError>
        ensures words { (ts : List Word) → IsLaid ts self.old → IsLaid ts self.new }
        ensures beginnings { OnOk result (self.new.beginnings.items ≡ with_beginning self.old.beginnings.items place) }
    {
        if let Some(place) = place {
            self.beginnings.push(place)?;
        }
        Ok(())
    }

    /// Puts a word, which stands for the word of a script at a place.
    ///
    /// # Errors
    ///
    /// Want of memory.
    pub fn put_word(&mut self, word: &[u8], place: usize) -> Result<(), AllocError>
        ensures laid { OnOk result ((ts : List Word) → IsLaid ts self.old → IsLaid (ts ++ word_at place word.now ∷ []) self.new) }
        ensures beginnings { OnOk result (self.new.beginnings.items ≡ self.old.beginnings.items) }
    {
        self.text.extend_from_slice(word)?;
        self.text.push(b' ')?;
        let length = word.len();
        self.words.push(Stretch { length, place })?;
        Ok(())
    }

    /// Puts the number of a rank, which stands for the word of a script at a place.
    pub(crate) fn put_rank(
        &mut self,
        alloc: Global,
        rank: u128,
        place: usize,
    ) -> Result<(), AllocError>
        ensures laid { OnOk result ((ts : List Word) → IsLaid ts self.old → IsLaid (ts ++ word_at place (decimal rank) ∷ []) self.new) }
        ensures beginnings { OnOk result (self.new.beginnings.items ≡ self.old.beginnings.items) }
    {
        let number = format!(in alloc; "{rank}")?;
        self.put_word(number.as_bytes(), place)
    }

    /// Puts words of the script.
    ///
    /// # Errors
    ///
    /// Want of memory.
    pub fn put_words(&mut self, words: &[Token<'_>]) -> Result<(), AllocError>
        ensures laid { OnOk result ((ts : List Word) → IsLaid ts self.old → IsLaid (ts ++ map seen words.now) self.new) }
        ensures beginnings { OnOk result (self.new.beginnings.items ≡ self.old.beginnings.items) }
    {
        for word in words {
            self.put_word(word.text, word.place)?;
        }
        Ok(())
    }

    /// The words, each with the place in the script of the word for which it stands.
    ///
    /// # Errors
    ///
    /// Want of memory.
    pub fn words(&self, alloc: Global) -> Result<Vec<Token<'_>>, AllocError>
        ensures { (ts : List Word) → IsLaid ts self.now → IfOk result (λ words. map seen words.items ≡ ts) }
    {
        let mut words = Vec::with_capacity(alloc, self.words.len())?;
        let mut rest = self.text.as_slice();
        for word in self.words.as_slice() {
            let (text, behind) = rest.split_at(word.length.min(rest.len()));
            let place = word.place;
            words.push(Token { place, text })?;
            rest = &behind[behind.len().min(1)..];
        }
        Ok(words)
    }

    /// The byte of the script at which the word stands in which, or behind which, a byte of the text stands; behind all of them `end`, the
    /// length of the script.
    pub fn place_of(&self, end: usize, byte: usize) -> usize
        ensures { (ts : List Word) → IsLaid ts self.now → result ≡ place_at ts end byte }
    {
        let mut left = byte;
        for word in self.words.as_slice() {
            if left <= word.length {
                return word.place;
            }
            left -= word.length + 1;
        }
        end
    }
}
