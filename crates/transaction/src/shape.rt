//! How a library is laid out, and why it is not opened.

use derivation::ProofFault;
use std::alloc::AllocError;
use thiserror::Error;

/// How a library is laid out in words, and for how many sessions.
#[derive(Clone, Copy, Debug, PartialEq, Eq)]
pub struct Shape {
    /// How many assertions there may be: 1 to 4,096.
    pub slots: usize,
    /// How many words the store of bodies has: at most 16,777,216.
    pub room: usize,
    /// How many sessions there are: 1 to 64.
    pub sessions: usize,
}

/// Why a library is not opened, in the order of the numbers from 1.
#[derive(Clone, Copy, Debug, PartialEq, Eq, Error)]
pub enum OpenError {
    /// The shape is outside the limits.
    #[error("not 1 to 4096 slots, a room of at most 16777216 words, and 1 to 64 sessions")]
    BadShape,
    /// The database has more assertions than slots.
    #[error("more assertions than slots")]
    TooMany,
    /// The proof of the assertion with this number, counted from 1, is the first that has a fault.
    #[error("the proof of the assertion {0} has a fault: {1}")]
    ProofFails(usize, ProofFault),
    /// The bodies of the assertions have more words than the room.
    #[error("the bodies of the assertions have more words than the room")]
    StoreFull,
    /// Memory ran out.
    #[error("out of memory")]
    NoMemory,
}

impl OpenError {
    ghost use Rattle.std.specs.Prelude.{◌≡◌};
    ghost use Rattle.transaction.specs.ReasonNames.{open_number_of, open_name_of};

    /// The number of the reason, from 1 to 5.
    pub fn number(self) -> u32
        ensures { result ≡ open_number_of self }
    {
        match self {
            OpenError::BadShape => 1,
            OpenError::TooMany => 2,
            OpenError::ProofFails(..) => 3,
            OpenError::StoreFull => 4,
            OpenError::NoMemory => 5,
        }
    }

    /// The name of the reason.
    pub fn name(self) -> &'static str
        ensures { result.now ≡ open_name_of self }
    {
        match self {
            OpenError::BadShape => "BadShape",
            OpenError::TooMany => "TooMany",
            OpenError::ProofFails(..) => "ProofFails",
            OpenError::StoreFull => "StoreFull",
            OpenError::NoMemory => "NoMemory",
        }
    }
}

impl From<AllocError> for OpenError {
    ghost use Rattle.std.specs.Prelude.{◌≡◌};
    ghost use Rattle.transaction.specs.declared.shape.OpenError.TheVariants.{NoMemory};

    ghost from_gives = { λ _ e. e ≡ NoMemory };

    fn from(_error: AllocError) -> Self {
        OpenError::NoMemory
    }
}

impl From<plaincells::OpenError> for OpenError {
    ghost use Rattle.std.specs.Prelude.{◌≡◌};
    ghost use Rattle.transaction.specs.Openings.{from_cells};

    ghost from_gives = { λ error e. e ≡ from_cells error };

    fn from(error: plaincells::OpenError) -> Self {
        match error {
            plaincells::OpenError::TooMany => OpenError::TooMany,
            plaincells::OpenError::StoreFull => OpenError::StoreFull,
            plaincells::OpenError::NoMemory => OpenError::NoMemory,
        }
    }
}
