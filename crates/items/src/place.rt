//! A place among the words of an item, in a comment or outside of them, and how the next word reads with changed labels.

ghost use Rattle.std.specs.Prelude.{◌≡◌, None, Some};
ghost use Rattle.commentwords.specs.Views.{text_of};
ghost use Rattle.items.specs.Machine.{TakesWord};

use crate::part::Part;
use commentwords::{CommentPlace, Reading};
use giving::LabelMap;

/// Before a word of an item.
#[derive(Clone, Copy)]
pub(crate) struct WordPlace {
    /// Where the words of the comment stand that is open, if one is.
    pub comment: Option<CommentPlace>,
    /// The part of the statement that is next outside of comments.
    pub part: Part,
}

impl WordPlace {
    /// At the beginning of an item, of which this part is next.
    pub(crate) fn at(part: Part) -> WordPlace
        ensures comment { result.comment ≡ None }
        ensures part { result.part ≡ part }
    {
        WordPlace {
            comment: None,
            part,
        }
    }

    /// A word of a comment as it reads then, and the place behind it.
    fn take_in<'w>(
        self,
        changes: &'w LabelMap<'_>,
        standing: CommentPlace,
        word: &'w [u8],
    ) -> (Reading<'w>, WordPlace)
        requires { self.comment ≡ Some standing }
        ensures { TakesWord changes.now self word.now (text_of result.0) result.1 }
    {
        if word == b"$)".as_slice() {
            return (Reading::of(word), WordPlace::at(self.part));
        }
        let place = WordPlace {
            comment: Some(standing.behind(word)),
            part: self.part,
        };
        (standing.word_then(changes, word), place)
    }

    /// A word outside of comments as it reads then, and the place behind it.
    fn take_outside<'w>(self, changes: &'w LabelMap<'_>, word: &'w [u8]) -> (Reading<'w>, WordPlace)
        requires { self.comment ≡ None }
        ensures { TakesWord changes.now self word.now (text_of result.0) result.1 }
    {
        if word == b"$(".as_slice() {
            let place = WordPlace {
                comment: Some(CommentPlace::at_first()),
                part: self.part,
            };
            return (Reading::of(word), place);
        }
        let (now, part) = self.part.take(changes, word);
        (Reading::of(now), WordPlace::at(part))
    }

    /// The next word as it reads then, and the place behind it.
    pub(crate) fn take<'w>(
        self,
        changes: &'w LabelMap<'_>,
        word: &'w [u8],
    ) -> (Reading<'w>, WordPlace)
        ensures { TakesWord changes.now self word.now (text_of result.0) result.1 }
    {
        match self.comment {
            Some(standing) => self.take_in(changes, standing, word),
            None => self.take_outside(changes, word),
        }
    }
}
