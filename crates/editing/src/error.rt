//! Why scripts leave no history.

use finishing::FinishError;
use thiserror::Error;
use workers::WorkError;

/// Why scripts leave no history.
#[derive(Clone, Copy, Debug, PartialEq, Eq, Error)]
pub enum EditError {
    /// This number, from 1, was drawn by no session.
    #[error("missing {0}")]
    Missing(u64),
    /// The lock of this cell, from 0, is held.
    #[error("held {0}")]
    Held(usize),
    /// Memory ran out.
    #[error("out of memory")]
    NoMemory,
    /// A thread can't be had.
    #[error("no thread")]
    NoThread,
}

impl EditError {
    ghost use Rattle.std.specs.Prelude.{◌≡◌};
    ghost use Rattle.editing.specs.Names.{number_of, name_of};

    /// The number of the reason, from 1 to 4; that of a `FinishError` is the same.
    pub fn number(self) -> u32
        ensures { result ≡ number_of self }
    {
        match self {
            EditError::Missing(_) => 1,
            EditError::Held(_) => 2,
            EditError::NoMemory => 3,
            EditError::NoThread => 4,
        }
    }

    /// The name of the reason, without the number or the cell.
    pub fn name(self) -> &'static str
        ensures { result.now ≡ name_of self }
    {
        match self {
            EditError::Missing(_) => "Missing",
            EditError::Held(_) => "Held",
            EditError::NoMemory => "NoMemory",
            EditError::NoThread => "NoThread",
        }
    }
}

impl From<WorkError> for EditError {
    ghost use Rattle.std.specs.Prelude.{◌≡◌};
    ghost use Rattle.editing.specs.Edits.{from_work};

    ghost from_gives = { λ error e. e ≡ from_work error };

    fn from(error: WorkError) -> Self {
        match error {
            WorkError::NoThread => EditError::NoThread,
            WorkError::NoMemory => EditError::NoMemory,
        }
    }
}

impl From<FinishError> for EditError {
    ghost use Rattle.std.specs.Prelude.{◌≡◌};
    ghost use Rattle.editing.specs.Edits.{from_finish};

    ghost from_gives = { λ error e. e ≡ from_finish error };

    fn from(error: FinishError) -> Self {
        match error {
            FinishError::Missing(number) => EditError::Missing(number),
            FinishError::Held(cell) => EditError::Held(cell),
            FinishError::NoMemory => EditError::NoMemory,
        }
    }
}
