//! Where labels stand in a statement: in front of `$a` or `$p`, and in a proof its steps, or the labels in parentheses, and not the letters
//! behind them (Metamath book, section 4.2.8 and appendix B).

ghost use Rattle.std.specs.Prelude.{◌≡◌};
ghost use Rattle.items.specs.Machine.{TakesSaid};

use commentwords::changed;
use giving::LabelMap;

/// Which part of a statement is next, outside of comments.
#[derive(Clone, Copy)]
pub(crate) enum Part {
    /// The label of an assertion.
    Label,
    /// `$a` or `$p`, or symbols up to `$=`.
    Symbols,
    /// The first word of a proof.
    Proof,
    /// Labels in parentheses.
    Labels,
    /// Steps of a normal proof.
    Steps,
    /// What stays: letters, and all words of a statement that is no assertion.
    Fixed,
}

impl Part {
    /// A word of this part as it reads then, and the part behind it.
    pub(crate) fn take<'w>(self, changes: &'w LabelMap<'_>, word: &'w [u8]) -> (&'w [u8], Part)
        ensures { TakesSaid changes.now self word.now result.0.now result.1 }
    {
        match self {
            Part::Label => (changed(changes, word), Part::Symbols),
            Part::Symbols if word == b"$=".as_slice() => (word, Part::Proof),
            Part::Symbols => (word, Part::Symbols),
            Part::Proof if word == b"(".as_slice() => (word, Part::Labels),
            Part::Labels if word == b")".as_slice() => (word, Part::Fixed),
            Part::Labels => (changed(changes, word), Part::Labels),
            Part::Proof | Part::Steps => (changed(changes, word), Part::Steps),
            Part::Fixed => (word, Part::Fixed),
        }
    }
}
