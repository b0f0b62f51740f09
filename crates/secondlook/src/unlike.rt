//! Why a source with edits isn't as it should be.

use std::alloc::AllocError;

/// Why a source with edits isn't as it should be: the first of these that holds.
#[derive(Clone, Copy)]
pub enum Unlike {
    /// No library is taken of it by the labels that the assertions of the edited one have then.
    Untaken,
    /// Another library than the edited one is taken: its assertions read otherwise.
    AnotherLibrary,
    /// Another one is taken: a `$f` of it isn't one of the edited library.
    AnotherPrelude,
    /// An assertion that isn't the library's doesn't stay: its number among these in the source, counted from 0. None has this number
    /// where there are more of them in the text.
    AnotherAssertion(usize),
    /// Memory ran out.
    NoMemory,
}

impl From<AllocError> for Unlike {
    ghost use Rattle.std.specs.Prelude.{◌≡◌};
    ghost use Rattle.secondlook.specs.declared.unlike.Unlike.TheVariants.{NoMemory};

    ghost from_gives = { λ _ why. why ≡ NoMemory };

    fn from(_error: AllocError) -> Unlike {
        Unlike::NoMemory
    }
}
