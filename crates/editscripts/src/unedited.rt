//! Why a source isn't edited.

use std::alloc::{AllocError, AllocFailed};

/// Why nothing is printed.
#[derive(Debug, Drop)]
pub enum Unedited {
    /// Nothing is printed but this line.
    Refused(String),
    /// Memory ran out.
    NoMemory,
}

impl From<AllocError> for Unedited {
    ghost use Rattle.std.specs.Prelude.{◌≡◌};
    ghost use Rattle.editscripts.specs.declared.unedited.Unedited.TheVariants.{NoMemory};

    ghost from_gives = { λ _ why. why ≡ NoMemory };

    fn from(_error: AllocError) -> Unedited {
        Unedited::NoMemory
    }
}

impl<T: Drop> From<AllocFailed<T>> for Unedited {
    ghost use Rattle.std.specs.Prelude.{◌≡◌};
    ghost use Rattle.editscripts.specs.declared.unedited.Unedited.TheVariants.{NoMemory};

    ghost from_gives = { λ _ why. why ≡ NoMemory };

    fn from(_error: AllocFailed<T>) -> Unedited {
        Unedited::NoMemory
    }
}
