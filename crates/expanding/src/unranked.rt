//! Why what a script puts beside assertions of a source gets no rank.

use mmtext::Token;
use std::alloc::AllocError;

/// Why what a script puts beside assertions of a source gets no rank.
#[derive(Clone, Copy, Debug)]
pub enum Unranked<'a> {
    /// The `behind` or `before` puts something where 99 were put before.
    Crowded(Token<'a>),
    /// Memory ran out.
    NoMemory,
}

impl<'a> From<AllocError> for Unranked<'a> {
    ghost use Rattle.std.specs.Prelude.{◌≡◌};
    ghost use Rattle.expanding.specs.declared.unranked.Unranked.TheVariants.{NoMemory};

    ghost from_gives = { λ _ why. why ≡ NoMemory };

    fn from(_error: AllocError) -> Unranked<'a> {
        Unranked::NoMemory
    }
}
