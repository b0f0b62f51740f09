//! Why a proof of a script is none of the source.

use mmtext::{FaultKind, Token};
use std::alloc::AllocError;

/// Why a script isn't pasted.
#[derive(Clone, Copy, Debug)]
pub enum Unpasted<'w> {
    /// A compressed proof is none at its theorem: the word at which that is told, and what is wrong.
    Faulty(Token<'w>, FaultKind),
    /// Memory ran out.
    NoMemory,
}

impl<'w> From<AllocError> for Unpasted<'w> {
    ghost use Rattle.std.specs.Prelude.{◌≡◌};
    ghost use Rattle.pasting.specs.declared.unpasted.Unpasted.TheVariants.{NoMemory};

    ghost from_gives = { λ _ why. why ≡ NoMemory };

    fn from(_error: AllocError) -> Unpasted<'w> {
        Unpasted::NoMemory
    }
}
