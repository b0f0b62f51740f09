//! The phrases by which a comment discourages something.

ghost use Rattle.std.specs.Prelude.{◌≡◌, ◌∷◌, []};
ghost use Rattle.remarks.specs.Remarks.{begins_phrase};
ghost use Rattle.remarks.specs.Views.{phrase_of, behind_window};

/// What a comment may discourage.
#[derive(Clone, Copy, Debug, PartialEq, Eq)]
pub(crate) enum Phrase {
    /// Another proof of the theorem: `(Proof modification is discouraged.)`.
    Modification,
    /// A proof that cites the assertion anew: `(New usage is discouraged.)`.
    Usage,
}

impl Phrase {
    /// The first word of the phrase.
    fn first(self) -> &'static [u8]
        ensures { result.now ≡ (phrase_of self).first }
    {
        match self {
            Phrase::Modification => b"(Proof".as_slice(),
            Phrase::Usage => b"(New".as_slice(),
        }
    }

    /// Its second word.
    fn second(self) -> &'static [u8]
        ensures { result.now ≡ (phrase_of self).second }
    {
        match self {
            Phrase::Modification => b"modification".as_slice(),
            Phrase::Usage => b"usage".as_slice(),
        }
    }
}

/// The last three words in front of a word, in order. An empty word stands where none is: no phrase begins with an empty word.
#[derive(Clone, Copy)]
pub(crate) struct Window<'s> {
    /// The first word.
    pub first: &'s [u8],
    /// The second word.
    pub second: &'s [u8],
    /// The last word.
    pub third: &'s [u8],
}

impl<'s> Window<'s> {
    /// No words.
    pub fn new() -> Window<'static>
        ensures first { result.first.now ≡ [] }
        ensures second { result.second.now ≡ [] }
        ensures third { result.third.now ≡ [] }
    {
        let none = b"".as_slice();
        Window {
            first: none,
            second: none,
            third: none,
        }
    }

    /// The last three words in front of the word behind one more.
    pub fn behind(self, word: &'s [u8]) -> Window<'s>
        ensures first { result.first.now ≡ self.entry.second.now }
        ensures second { result.second.now ≡ self.entry.third.now }
        ensures third { result.third.now ≡ word.now }
    {
        Window {
            first: self.second,
            second: self.third,
            third: word,
        }
    }

    /// Whether these words and one more are a phrase. The last word is tested first, since few words can end a phrase.
    pub fn ends(self, phrase: Phrase, word: &[u8]) -> bool
        ensures { result ≡ begins_phrase (phrase_of phrase) (behind_window self.entry (word.now ∷ [])) }
    {
        word.starts_with(b"discouraged.)")
            && self.third == b"is".as_slice()
            && self.second == phrase.second()
            && self.first.ends_with(phrase.first())
    }
}
