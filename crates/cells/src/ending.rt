//! Why a command or a transaction over cells has no reply.

use crate::halt::Halt;
use library::{Reason, Refused};
use std::alloc::{AllocError, AllocFailed};
use thiserror::Error;

/// Why a command over cells has no reply. What was kept aside by then is the caller's to throw away.
#[derive(Clone, Copy, Debug, PartialEq, Eq, Error)]
pub enum CommandError {
    /// A call over cells ended early.
    #[error("{0}")]
    Halted(Halt),
    /// The command is refused. It kept nothing aside, and staged nothing.
    #[error("{0}")]
    Refused(Reason),
}

/// Why a transaction over cells has no replies. What was kept aside by then is the caller's to throw away.
#[derive(Clone, Copy, Debug, PartialEq, Eq, Error)]
pub enum RunError {
    /// A call over cells ended early.
    #[error("{0}")]
    Halted(Halt),
    /// A command was refused, and with it the transaction.
    #[error("{0}")]
    Refused(Refused),
}

impl CommandError {
    ghost use Rattle.std.specs.Prelude.{◌≡◌};
    ghost use Rattle.cells.specs.Answers.{error_at};

    /// Why a transaction ends whose command with this number, counted from 1, ends so.
    pub fn at(self, index: usize) -> RunError
        ensures { result ≡ error_at index self }
    {
        match self {
            CommandError::Halted(halt) => RunError::Halted(halt),
            CommandError::Refused(reason) => RunError::Refused(Refused { index, reason }),
        }
    }
}

impl From<Halt> for CommandError {
    ghost use Rattle.std.specs.Prelude.{◌≡◌};
    ghost use Rattle.cells.specs.declared.ending.CommandError.TheVariants.{Halted};

    ghost from_gives = { λ halt e. e ≡ Halted halt };

    fn from(halt: Halt) -> Self {
        CommandError::Halted(halt)
    }
}

impl From<Reason> for CommandError {
    ghost use Rattle.std.specs.Prelude.{◌≡◌};
    ghost use Rattle.cells.specs.declared.ending.CommandError.TheVariants.{Refused};

    ghost from_gives = { λ reason e. e ≡ Refused reason };

    fn from(reason: Reason) -> Self {
        CommandError::Refused(reason)
    }
}

impl From<AllocError> for CommandError {
    ghost use Rattle.std.specs.Prelude.{◌≡◌};
    ghost use Rattle.cells.specs.declared.halt.Halt.TheVariants.{NoMemory};
    ghost use Rattle.cells.specs.declared.ending.CommandError.TheVariants.{Halted};

    ghost from_gives = { λ _ e. e ≡ Halted NoMemory };

    fn from(_error: AllocError) -> Self {
        CommandError::Halted(Halt::NoMemory)
    }
}

impl<T: Drop> From<AllocFailed<T>> for CommandError {
    ghost use Rattle.std.specs.Prelude.{◌≡◌};
    ghost use Rattle.cells.specs.declared.halt.Halt.TheVariants.{NoMemory};
    ghost use Rattle.cells.specs.declared.ending.CommandError.TheVariants.{Halted};

    ghost from_gives = { λ _ e. e ≡ Halted NoMemory };

    fn from(_error: AllocFailed<T>) -> Self {
        CommandError::Halted(Halt::NoMemory)
    }
}

impl From<AllocError> for RunError {
    ghost use Rattle.std.specs.Prelude.{◌≡◌};
    ghost use Rattle.cells.specs.declared.halt.Halt.TheVariants.{NoMemory};
    ghost use Rattle.cells.specs.declared.ending.RunError.TheVariants.{Halted};

    ghost from_gives = { λ _ e. e ≡ Halted NoMemory };

    fn from(_error: AllocError) -> Self {
        RunError::Halted(Halt::NoMemory)
    }
}

impl<T: Drop> From<AllocFailed<T>> for RunError {
    ghost use Rattle.std.specs.Prelude.{◌≡◌};
    ghost use Rattle.cells.specs.declared.halt.Halt.TheVariants.{NoMemory};
    ghost use Rattle.cells.specs.declared.ending.RunError.TheVariants.{Halted};

    ghost from_gives = { λ _ e. e ≡ Halted NoMemory };

    fn from(_error: AllocFailed<T>) -> Self {
        RunError::Halted(Halt::NoMemory)
    }
}
