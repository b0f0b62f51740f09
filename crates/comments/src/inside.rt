//! What is read of the inside of a block whose assertions were deleted.

ghost use Rattle.std.specs.Prelude.{◌≡◌, ℕ, List, [], ◌∷◌, IfSome, IsTrue};
ghost use Rattle.mmtext.specs.Text.{Token};
ghost use Rattle.comments.specs.Deleted.{asserts, open_behind};
ghost use Rattle.comments.specs.Insides.{labels_in, IsGoneLabel, IsReadInside, EndsInside, LeadsInside};

use giving::LabelMap;

/// Whether a word is `$a` or `$p`.
pub(crate) fn asserts(word: &[u8]) -> bool
    ensures { result ≡ asserts word.now }
{
    word == b"$a".as_slice() || word == b"$p".as_slice()
}

/// How many blocks are open behind a word, where so many are before it. None where one is closed that isn't open.
fn depth_behind(depth: usize, word: &[u8]) -> Option<usize>
    ensures { IfSome result (λ n. (t : Token) (ts : List Token) → t.text ≡ word.now → open_behind depth (t ∷ ts) ≡ open_behind n ts) }
{
    if word == b"${".as_slice() {
        return depth.checked_add(1);
    }
    if word == b"$}".as_slice() {
        return depth.checked_sub(1);
    }
    Some(depth)
}

/// Whether there is a word, and it is a label that is gone.
pub(crate) fn is_gone(gone: &LabelMap<'_>, word: Option<&[u8]>) -> bool
    ensures { IsTrue result → IsGoneLabel (labels_in gone.now) word.entry }
{
    match word {
        Some(label) => gone.text_for(label).is_some(),
        None => false,
    }
}

/// How far a block was read, outside of comments: each assertion in it so far was deleted.
#[derive(Clone, Copy)]
pub(crate) struct Inside<'s> {
    /// How many blocks in it are open.
    pub depth: usize,
    /// The last token, if there was one.
    pub last: Option<&'s [u8]>,
    /// Whether an assertion stood there.
    pub found: bool,
}

impl<'s> Inside<'s> {
    /// Before any token.
    pub(crate) fn new() -> Inside<'s>
        ensures { (gone : List (List ℕ)) → IsReadInside gone [] result }
    {
        Inside {
            depth: 0,
            last: None,
            found: false,
        }
    }

    /// Whether a word ends the block, and an assertion stood in it.
    pub(crate) fn is_ended_by(self, word: &[u8]) -> bool
        ensures { IsTrue result → EndsInside self.entry word.now }
    {
        self.depth == 0 && self.found && word == b"$}".as_slice()
    }

    /// One more word: whether each assertion so far was deleted.
    pub(crate) fn take(&mut self, gone: &LabelMap<'_>, word: &'s [u8]) -> bool
        ensures { IsTrue result → LeadsInside (labels_in gone.now) self.old word.now self.new }
    {
        let is_mark = asserts(word);
        if is_mark && !is_gone(gone, self.last) {
            return false;
        }
        let Some(depth) = depth_behind(self.depth, word) else {
            return false;
        };
        self.depth = depth;
        self.last = Some(word);
        self.found = self.found || is_mark;
        true
    }
}
