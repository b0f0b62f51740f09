//! Why scripts weren't run to their end.

use std::alloc::AllocError;
use thiserror::Error;

/// Why scripts weren't run to their end. What was committed stays in the library.
#[derive(Clone, Copy, Debug, PartialEq, Eq, Error)]
pub enum WorkError {
    /// Memory ran out.
    #[error("out of memory")]
    NoMemory,
    /// A thread can't be had.
    #[error("no thread")]
    NoThread,
}

impl From<AllocError> for WorkError {
    ghost use Rattle.std.specs.Prelude.{◌≡◌};
    ghost use Rattle.workers.specs.declared.error.WorkError.TheVariants.{NoMemory};

    ghost from_gives = { λ _ error. error ≡ NoMemory };

    fn from(_error: AllocError) -> Self {
        WorkError::NoMemory
    }
}

impl WorkError {
    ghost use Rattle.std.specs.Prelude.{◌≡◌};
    ghost use Rattle.workers.specs.Names.{number_of, name_of};

    /// The number of the reason, from 1 to 2.
    pub fn number(self) -> u32
        ensures { result ≡ number_of self }
    {
        match self {
            WorkError::NoMemory => 1,
            WorkError::NoThread => 2,
        }
    }

    /// The name of the reason.
    pub fn name(self) -> &'static str
        ensures { result.now ≡ name_of self }
    {
        match self {
            WorkError::NoMemory => "NoMemory",
            WorkError::NoThread => "NoThread",
        }
    }
}
