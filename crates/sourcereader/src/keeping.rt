//! What the reader of sources keeps.

ghost use Rattle.std.specs.Prelude.{◌≡◌, OnOk};
ghost use Rattle.mmtext.specs.Takings.{TakesWord};
ghost use Rattle.mmtext.specs.Views.{seen};
ghost use Rattle.source.specs.Faults.{source_language};
ghost use Rattle.sourcereader.specs.Standing.{IsReadySource};
ghost use Rattle.sourcereader.specs.Views.{seen_at};
ghost use Rattle.sourcereader.specs.declared.place.Place.{Place as CodePlace};

use crate::place::Place;
use crate::words::take_word;
use mmtext::{Stop, Token};
use source::Standing;
use std::mem;

/// What keeps a place: the place itself. A type parameter stands for it in the type of the reader, which so names no lifetime: where a type
/// argument names the lifetime of a bound, as in `Standing<'a>`, a call of a generic function gets no proof.
pub(crate) trait KeepsPlace<'a, S: Standing<'a>>: Drop {
    // the place
    ghost kept: { Self → CodePlace };

    /// Keeps another place, and gives the one that was kept.
    fn replace(&mut self, next: Place<'a>) -> Place<'a>
        ensures old { result ≡ kept self.old }
        ensures new { kept self.new ≡ next.entry };

    /// Takes a word without `$` where the place lies, if that is an expression or a proof: whether it did.
    fn take_word(&mut self, standing: &mut S, token: Token<'a>) -> Result<bool, Stop>
        requires { IsReadySource (S.stand standing.old) (S.marks standing.old) (kept self.old) }
        ensures ready { OnOk result (IsReadySource (S.stand standing.new) (S.marks standing.new) (kept self.new)) }
        ensures taken { TakesWord source_language (seen_at (S.stand standing.old) (kept self.old)) (seen token.entry)
            (seen_at (S.stand standing.new) (kept self.new)) result };
}

impl<'a, S: Standing<'a>> KeepsPlace<'a, S> for Place<'a> {
    ghost kept = { λ place. place };

    fn replace(&mut self, next: Place<'a>) -> Place<'a> {
        mem::replace(self, next)
    }

    fn take_word(&mut self, standing: &mut S, token: Token<'a>) -> Result<bool, Stop> {
        take_word(standing, self, token)
    }
}

/// How far a source was read, outside of comments.
#[derive(Drop)]
pub(crate) struct SourceReader<S, P> {
    /// What stands there.
    pub standing: S,
    /// The place there.
    pub place: P,
}
