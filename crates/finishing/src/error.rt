//! Why a library has no whole history.

use std::alloc::AllocError;
use thiserror::Error;

/// Why a library has no whole history.
#[derive(Clone, Copy, Debug, PartialEq, Eq, Error)]
pub enum FinishError {
    /// This number, from 1, was drawn by no session that was handed in; it is the least.
    #[error("missing {0}")]
    Missing(u64),
    /// The lock of this cell, from 0, is held; it is the least. A session that was not handed in holds it, in the middle of a run.
    #[error("held {0}")]
    Held(usize),
    /// Memory ran out.
    #[error("out of memory")]
    NoMemory,
}

impl From<AllocError> for FinishError {
    ghost use Rattle.std.specs.Prelude.{◌≡◌};
    ghost use Rattle.finishing.specs.declared.error.FinishError.TheVariants.{NoMemory};

    ghost from_gives = { λ _ e. e ≡ NoMemory };

    fn from(_error: AllocError) -> Self {
        FinishError::NoMemory
    }
}

impl FinishError {
    ghost use Rattle.std.specs.Prelude.{◌≡◌};
    ghost use Rattle.finishing.specs.Names.{number_of, name_of};

    /// The number of the reason, from 1 to 3.
    pub fn number(self) -> u32
        ensures { result ≡ number_of self }
    {
        match self {
            FinishError::Missing(_) => 1,
            FinishError::Held(_) => 2,
            FinishError::NoMemory => 3,
        }
    }

    /// The name of the reason, without the number or the cell.
    pub fn name(self) -> &'static str
        ensures { result.now ≡ name_of self }
    {
        match self {
            FinishError::Missing(_) => "Missing",
            FinishError::Held(_) => "Held",
            FinishError::NoMemory => "NoMemory",
        }
    }
}
