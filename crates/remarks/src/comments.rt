//! What a comment discourages.

ghost use Rattle.std.specs.Prelude.{◌≡◌, ◌≤◌, ◌<◌, ◌∷◌, [], ◌||◌, false, length};
ghost use Rattle.items.specs.Items.{Item as Pieces, words};
ghost use Rattle.items.specs.Reading.{IsItemAt, Stands};
ghost use Rattle.remarks.specs.Remarks.{modification, usage, begins_phrase};
ghost use Rattle.remarks.specs.Views.{behind_window, SayThese, IsRemark};

use crate::phrases::{Phrase, Window};
use items::{Item, Kind};
use mmtext::next_token;

/// What a comment discourages.
#[derive(Clone, Copy)]
pub(crate) struct Remark {
    /// Another proof of the theorem behind it.
    pub modification: bool,
    /// To cite the assertion behind it anew.
    pub usage: bool,
}

impl Remark {
    /// Nothing is discouraged.
    pub fn nothing() -> Remark
        ensures modification { result.modification ≡ false }
        ensures usage { result.usage ≡ false }
    {
        Remark {
            modification: false,
            usage: false,
        }
    }

    /// What so much of a comment discourages with one more word, behind its last three.
    fn with(self, window: Window<'_>, word: &[u8]) -> Remark
        ensures modification { result.modification
            ≡ (self.modification || begins_phrase modification (behind_window window.entry (word.now ∷ []))) }
        ensures usage { result.usage ≡ (self.usage || begins_phrase usage (behind_window window.entry (word.now ∷ []))) }
    {
        Remark {
            modification: self.modification || window.ends(Phrase::Modification, word),
            usage: self.usage || window.ends(Phrase::Usage, word),
        }
    }
}

/// What the words of an item say that begins behind a byte of a text. Each word is looked at once, with the three in front of it.
fn said_in(text: &[u8], from: usize, item: Item<'_>) -> Remark
    requires within { item.end ≤ length text.now }
    requires stands { IsItemAt text.now from item }
    ensures { (x : Pieces) → Stands text.now from x item.entry.end → SayThese (words x) result }
{
    let mut remark = Remark::nothing();
    let mut window = Window::new();
    let mut at = from;
    while at < item.end {
        let Some(token) = next_token(text, at) else {
            unreachable!()
        };
        remark = remark.with(window, token.text);
        window = window.behind(token.text);
        at = token.place + token.text.len();
    }
    remark
}

/// What an item discourages that begins behind a byte of a text: nothing, unless the item is a comment.
pub(crate) fn remark_of(text: &[u8], from: usize, item: Item<'_>) -> Remark
    requires within { item.end ≤ length text.now }
    requires stands { IsItemAt text.now from item }
    ensures { (is : IsItemAt text.now from item.entry) → IsRemark is.item result }
{
    match item.kind {
        Kind::Comment => said_in(text, from, item),
        _ => Remark::nothing(),
    }
}
