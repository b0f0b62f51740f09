//! Why an export fails.

use std::alloc::AllocError;
use thiserror::Error;

/// Why a library was not exported, or not whole.
#[derive(Clone, Copy, Debug, PartialEq, Eq, Error)]
pub enum ExportError {
    /// A `write` of the writer failed, or took 0 bytes. The writer took the first `written` bytes of the text, and no other.
    #[error("the writer stopped after {written} bytes")]
    Write {
        /// How many bytes the writer took: fewer than the text has.
        written: usize,
    },
    /// Memory ran out before the text was made. Nothing was written.
    #[error("out of memory")]
    NoMemory,
}

impl ExportError {
    ghost use Rattle.std.specs.Prelude.{◌≡◌};
    ghost use Rattle.export.specs.Errors.{number_of, name_of};

    /// The number of the error, 1 or 2.
    pub fn number(self) -> u32
        ensures { result ≡ number_of self }
    {
        match self {
            ExportError::Write { .. } => 1,
            ExportError::NoMemory => 2,
        }
    }

    /// The name of the error, as messages print it.
    pub fn name(self) -> &'static str
        ensures { result.now ≡ name_of self }
    {
        match self {
            ExportError::Write { .. } => "Write",
            ExportError::NoMemory => "NoMemory",
        }
    }
}

impl From<AllocError> for ExportError {
    ghost use Rattle.std.specs.Prelude.{◌≡◌};
    ghost use Rattle.export.specs.declared.error.ExportError.TheVariants.{NoMemory};

    ghost from_gives = { λ _ e. e ≡ NoMemory };

    fn from(_e: AllocError) -> ExportError {
        ExportError::NoMemory
    }
}
