//! Why a text is not read.

ghost use Rattle.std.specs.Prelude.{◌≡◌};
ghost use Rattle.mmtext.specs.declared.fault.Stop.TheVariants.{Fault};

use crate::token::Token;
use std::alloc::{AllocError, AllocFailed};
use std::{error, fmt};
use thiserror::Error;

/// The kind of a fault of a text, in the order of their numbers from 1.
#[derive(Clone, Copy, Debug, PartialEq, Eq)]
pub enum FaultKind {
    /// A byte that is neither printable ASCII nor white space.
    BadByte,
    /// A token that may not stand at its place.
    BadToken,
    /// The text ends inside a statement or a comment.
    Unfinished,
    /// Metamath that the profile leaves out.
    OutOfProfile,
    /// A symbol that is not declared, or not of the wanted sort.
    UnknownSymbol,
    /// A label or a symbol that stands already.
    RepeatedLabel,
    /// A label that no assertion or `$f` may have.
    BadLabel,
    /// A variable without a `$f`.
    NoTypeFor,
    /// A limit is passed.
    TooLong,
    /// Memory ran out.
    NoMemory,
    /// A label `L.k` beside the label L.
    LabelClashes,
    /// A label in a proof that nothing before it has. Of texts in the whole language alone.
    UnknownLabel,
    /// A name that is declared before, and not here. Of texts in the whole language alone.
    NotActive,
}

/// The first fault of a text.
#[derive(Clone, Copy, Debug, PartialEq, Eq)]
pub struct TextFault {
    /// The byte at which the token at fault begins, counted from 0. For `BadByte` the first bad byte; for `Unfinished` the length of
    /// the text; for a text that is too long the most
    /// bytes that it may have; for `NoMemory` 0, whatever was read.
    pub place: usize,
    pub kind: FaultKind,
}

impl FaultKind {
    ghost use Rattle.std.specs.Prelude.{◌≡◌};
    ghost use Rattle.mmtext.specs.FaultNames.{number_of, name_of};

    /// The number of the kind, from 1 to 13.
    pub fn number(self) -> u32
        ensures { result ≡ number_of self }
    {
        match self {
            FaultKind::BadByte => 1,
            FaultKind::BadToken => 2,
            FaultKind::Unfinished => 3,
            FaultKind::OutOfProfile => 4,
            FaultKind::UnknownSymbol => 5,
            FaultKind::RepeatedLabel => 6,
            FaultKind::BadLabel => 7,
            FaultKind::NoTypeFor => 8,
            FaultKind::TooLong => 9,
            FaultKind::NoMemory => 10,
            FaultKind::LabelClashes => 11,
            FaultKind::UnknownLabel => 12,
            FaultKind::NotActive => 13,
        }
    }

    /// The name of the kind, as messages print it.
    pub fn name(self) -> &'static str
        ensures { result.now ≡ name_of self }
    {
        match self {
            FaultKind::BadByte => "BadByte",
            FaultKind::BadToken => "BadToken",
            FaultKind::Unfinished => "Unfinished",
            FaultKind::OutOfProfile => "OutOfProfile",
            FaultKind::UnknownSymbol => "UnknownSymbol",
            FaultKind::RepeatedLabel => "RepeatedLabel",
            FaultKind::BadLabel => "BadLabel",
            FaultKind::NoTypeFor => "NoTypeFor",
            FaultKind::TooLong => "TooLong",
            FaultKind::NoMemory => "NoMemory",
            FaultKind::LabelClashes => "LabelClashes",
            FaultKind::UnknownLabel => "UnknownLabel",
            FaultKind::NotActive => "NotActive",
        }
    }
}

/// The number and the name of the kind, as in `2 BadToken`.
impl fmt::Display for FaultKind {
    ghost use Rattle.std.specs.Prelude.{Some};
    ghost use Rattle.mmtext.specs.FaultNames.{printed_kind};

    ghost output = { λ kind. Some (printed_kind kind) };

    fn fmt<W: fmt::Write>(&self, f: &mut fmt::Formatter<W>) -> fmt::Result {
        let number = self.number();
        let name = self.name();
        write!(f, "{number} {name}")
    }
}

/// The kind and the byte, as in `2 BadToken at byte 6`.
impl fmt::Display for TextFault {
    ghost use Rattle.std.specs.Prelude.{Some};
    ghost use Rattle.mmtext.specs.FaultNames.{printed_fault};

    ghost output = { λ fault. Some (printed_fault fault) };

    fn fmt<W: fmt::Write>(&self, f: &mut fmt::Formatter<W>) -> fmt::Result {
        let number = self.kind.number();
        let name = self.kind.name();
        let place = self.place;
        write!(f, "{number} {name} at byte {place}")
    }
}

impl error::Error for FaultKind {}

impl error::Error for TextFault {}

/// Why a step of reading fails.
#[derive(Debug, Drop, Error)]
pub enum Stop {
    /// Memory ran out.
    #[error("out of memory")]
    Memory,
    /// The text has this fault.
    #[error("{0}")]
    Fault(TextFault),
}

/// The fault of a kind at a token.
pub fn fault_at(token: Token<'_>, kind: FaultKind) -> Stop
    ensures { result ≡ Fault (record { place = token.entry.place; kind = kind }) }
{
    Stop::Fault(TextFault {
        place: token.place,
        kind,
    })
}

impl From<AllocError> for Stop {
    ghost use Rattle.std.specs.Prelude.{◌≡◌};
    ghost use Rattle.mmtext.specs.declared.fault.Stop.TheVariants.{Memory};

    ghost from_gives = { λ _ e. e ≡ Memory };

    fn from(_e: AllocError) -> Stop {
        Stop::Memory
    }
}

impl<T: Drop> From<AllocFailed<T>> for Stop {
    ghost use Rattle.std.specs.Prelude.{◌≡◌};
    ghost use Rattle.mmtext.specs.declared.fault.Stop.TheVariants.{Memory};

    ghost from_gives = { λ _ e. e ≡ Memory };

    fn from(_e: AllocFailed<T>) -> Stop {
        Stop::Memory
    }
}
