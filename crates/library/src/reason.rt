//! Why commands are refused.

ghost use Rattle.std.specs.Prelude.{◌≡◌};

use derivation::ProofFault;
use std::{error, fmt};
use thiserror::Error;

/// Why a command is refused.
#[derive(Clone, Copy, Debug, PartialEq, Eq)]
pub enum Reason {
    /// No assertion has the label.
    UnknownLabel,
    /// Another assertion has the label.
    LabelTaken,
    /// No assertion may have the label.
    BadLabel,
    /// A rank of 0.
    BadRank,
    /// A step cites a label that no assertion has.
    CitesUnknown,
    /// A step cites an assertion that isn't below the rank of the citing one.
    CitedNotLower,
    /// An assertion that cites this one isn't above the new rank.
    CiterNotHigher,
    /// So many assertions, at least one, cite this one in their proofs.
    StillCited(u64),
    /// An axiom has no proof.
    NotATheorem,
    /// An axiom can't be added.
    AxiomNotAllowed,
    /// The first fault of the proof.
    ProofFails(ProofFault),
    /// The library has as many assertions as slots.
    LibraryFull,
    /// The hypotheses or the statements of two assertions differ, or the one that is to be cited restricts a pair that the other doesn't.
    NotAlike,
    /// The label is `L.k` of another assertion's label L, or another's is `L.k` of this one, for some k from 1 to 1,000.
    LabelClashes,
}

impl Reason {
    ghost use Rattle.library.specs.Reasons.{number_of, name_of};

    /// The number of the reason, from 1 to 14.
    pub fn number(self) -> u32
        ensures { result ≡ number_of self }
    {
        match self {
            Reason::UnknownLabel => 1,
            Reason::LabelTaken => 2,
            Reason::BadLabel => 3,
            Reason::BadRank => 4,
            Reason::CitesUnknown => 5,
            Reason::CitedNotLower => 6,
            Reason::CiterNotHigher => 7,
            Reason::StillCited(_) => 8,
            Reason::NotATheorem => 9,
            Reason::AxiomNotAllowed => 10,
            Reason::ProofFails(_) => 11,
            Reason::LibraryFull => 12,
            Reason::NotAlike => 13,
            Reason::LabelClashes => 14,
        }
    }

    /// The name of the reason, as reports print it.
    pub fn name(self) -> &'static str
        ensures { result.now ≡ name_of self }
    {
        match self {
            Reason::UnknownLabel => "UnknownLabel",
            Reason::LabelTaken => "LabelTaken",
            Reason::BadLabel => "BadLabel",
            Reason::BadRank => "BadRank",
            Reason::CitesUnknown => "CitesUnknown",
            Reason::CitedNotLower => "CitedNotLower",
            Reason::CiterNotHigher => "CiterNotHigher",
            Reason::StillCited(_) => "StillCited",
            Reason::NotATheorem => "NotATheorem",
            Reason::AxiomNotAllowed => "AxiomNotAllowed",
            Reason::ProofFails(_) => "ProofFails",
            Reason::LibraryFull => "LibraryFull",
            Reason::NotAlike => "NotAlike",
            Reason::LabelClashes => "LabelClashes",
        }
    }
}

/// The number and the name of the reason, and what it says besides, as in `2 LabelTaken` and `8 StillCited 3`.
impl fmt::Display for Reason {
    ghost use Rattle.std.specs.Prelude.{Some};
    ghost use Rattle.library.specs.Reasons.{printed_reason};

    ghost output = { λ reason. Some (printed_reason reason) };

    fn fmt<W: fmt::Write>(&self, f: &mut fmt::Formatter<W>) -> fmt::Result {
        let number = self.number();
        let name = self.name();
        match self {
            Reason::StillCited(citers) => write!(f, "{number} {name} {citers}"),
            Reason::ProofFails(fault) => write!(f, "{number} {name} {fault}"),
            _ => write!(f, "{number} {name}"),
        }
    }
}

impl error::Error for Reason {}

/// The first command of a transaction that is refused. It refuses the whole transaction.
#[derive(Clone, Copy, Debug, PartialEq, Eq, Error)]
#[error("command {index} is refused: {reason}")]
pub struct Refused {
    /// Which command, counted from 1.
    pub index: usize,
    pub reason: Reason,
}
