//! Why a call over cells ends early.

use std::alloc::{AllocError, AllocFailed};
use thiserror::Error;

/// Why a call over cells ends early: each but want of memory has its cause in the run, and none is answered without it. What was kept
/// aside by then is the caller's to throw away.
#[derive(Clone, Copy, Debug, PartialEq, Eq, Error)]
pub enum Halt {
    /// A read of the run met another session. The run knows with whom.
    #[error("the run met another session")]
    Conflict,
    /// The store had no room for words that the run was to stage.
    #[error("the store has no room for the words")]
    StoreFull,
    /// Memory ran out, in a call on the cells or beside them.
    #[error("out of memory")]
    NoMemory,
}

impl From<AllocError> for Halt {
    ghost use Rattle.std.specs.Prelude.{◌≡◌};
    ghost use Rattle.cells.specs.declared.halt.Halt.TheVariants.{NoMemory};

    ghost from_gives = { λ _ e. e ≡ NoMemory };

    fn from(_error: AllocError) -> Self {
        Halt::NoMemory
    }
}

impl<T: Drop> From<AllocFailed<T>> for Halt {
    ghost use Rattle.std.specs.Prelude.{◌≡◌};
    ghost use Rattle.cells.specs.declared.halt.Halt.TheVariants.{NoMemory};

    ghost from_gives = { λ _ e. e ≡ NoMemory };

    fn from(_error: AllocFailed<T>) -> Self {
        Halt::NoMemory
    }
}
