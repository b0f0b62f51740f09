//! Words that are read from the front.

ghost use Rattle.std.specs.Prelude.{◌≡◌, ◌≤◌, ℕ, List, ◌∷◌, [], length, take, drop};

use std::marker::Model;

/// The words of a body that are not read yet. Contracts see them as a list.
#[derive(Drop)]
pub(crate) struct Cursor<'a> {
    rest: &'a [u64],
}

impl<'a> Model for Cursor<'a> {
    ghost use Rattle.std.specs.Prelude.{List, ℕ};

    ghost Value = { List ℕ };

    ghost view = { λ c. c.rest.now };
}

impl<'a> Cursor<'a> {
    pub(crate) fn new(words: &'a [u64]) -> Self
        ensures { result ≡ words.now }
    {
        Cursor { rest: words }
    }

    /// The next word, which is then read; 0 where all are.
    pub(crate) fn next(&mut self) -> u64
        ensures more { (w : ℕ) (ws : List ℕ) → self.old ≡ w ∷ ws → (result ≡ w) × (self.new ≡ ws) }
        ensures none { self.old ≡ [] → (result ≡ 0) × (self.new ≡ []) }
    {
        match self.rest {
            [first, rest @ ..] => {
                self.rest = rest;
                *first
            }
            [] => 0,
        }
    }

    /// The next word as a number of things that are still to be read: at most as many as there are words behind it.
    pub(crate) fn count(&mut self) -> usize
        ensures more { (w : ℕ) (ws : List ℕ) → self.old ≡ w ∷ ws → w ≤ length ws → (result ≡ w) × (self.new ≡ ws) }
        ensures few { result ≤ length self.new }
    {
        let word = self.next();
        if word <= self.rest.len() as u64 {
            word as usize
        } else {
            self.rest.len()
        }
    }

    /// The next words, so many, or all where there are fewer; they are read then.
    pub(crate) fn take(&mut self, count: usize) -> &'a [u64]
        ensures words { result.now ≡ take count self.old }
        ensures rest { self.new ≡ drop count self.old }
    {
        let (words, rest) = self.rest.split_at(count.min(self.rest.len()));
        self.rest = rest;
        words
    }
}
