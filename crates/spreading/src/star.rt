//! The command `replace * OLD NEW`, and words in the stead of others.

ghost use Rattle.std.specs.Prelude.{◌≡◌, ◌++◌, ◌∷◌, [], OnOk, map, option_map, codes};
ghost use Rattle.mmtext.specs.Views.{seen};
ghost use Rattle.spreading.specs.Words.{word_at};
ghost use Rattle.spreading.specs.Spreading.{star_of, replaced_in};
ghost use Rattle.spreading.specs.Views.{seen_star};

use mmtext::Token;
use std::alloc::AllocError;

/// The words of `replace * OLD NEW`.
#[derive(Clone, Copy)]
pub(crate) struct Star<'a> {
    /// `replace`.
    pub verb: Token<'a>,
    /// The `*`.
    pub star: Token<'a>,
    /// The label that is cited.
    pub old: Token<'a>,
    /// The label that is cited in its stead then.
    pub new: Token<'a>,
}

/// The command `replace *`, if a part is one.
pub(crate) fn star_of<'a>(part: &[Token<'a>]) -> Option<Star<'a>>
    ensures { option_map seen_star result ≡ star_of (map seen part.now) }
{
    let [verb, star, old, new] = part else {
        return None;
    };
    if verb.text != b"replace".as_slice() || star.text != b"*".as_slice() {
        return None;
    }
    Some(Star {
        verb: *verb,
        star: *star,
        old: *old,
        new: *new,
    })
}

/// A word that stands at the place of another.
pub(crate) fn word_at<'a>(place: usize, text: &'a [u8]) -> Token<'a>
    ensures { seen result ≡ word_at place text.now }
{
    Token { place, text }
}

impl<'a> Star<'a> {
    /// Puts the same in the theorem with a label.
    pub(crate) fn put_in(self, label: &'a [u8], out: &mut Vec<Token<'a>>) -> Result<(), AllocError>
        ensures { OnOk result (map seen out.new.items ≡ map seen out.old.items ++ replaced_in (seen_star self.entry) label.now) }
    {
        out.push(self.verb)?;
        out.push(word_at(self.star.place, label))?;
        out.push(self.old)?;
        out.push(self.new)?;
        Ok(())
    }

    /// Ends a transaction, and begins the next.
    pub(crate) fn begin_next(self, out: &mut Vec<Token<'a>>) -> Result<(), AllocError>
        ensures { OnOk result (map seen out.new.items ≡ map seen out.old.items
            ++ (word_at self.entry.verb.place (codes "commit") ∷ word_at self.entry.verb.place (codes "begin") ∷ [])) }
    {
        out.push(word_at(self.verb.place, b"commit"))?;
        out.push(word_at(self.verb.place, b"begin"))?;
        Ok(())
    }
}
