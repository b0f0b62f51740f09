//! Why edits are not given back.

use checking::Fault;
use mmsyntax::Label;
use mmtext::{FaultKind, TextFault};
use sourceediting::Refusal as Unwritten;
use std::alloc::{AllocError, AllocFailed};

/// Why the edits of a history are not given back into the source that its library was taken of: the first of these that holds.
#[derive(Debug, Drop)]
pub enum Refusal {
    /// The text of the source has this fault.
    Source(TextFault),
    /// The text of the library isn't what `take` prints of the source.
    NotTaken,
    /// The library or the history has this fault, as `replay` tells it.
    Replay(Fault),
    /// An assertion would get this label in the source, which is a name there already, of something that keeps it.
    NameTaken(Label),
    /// The edits can't be written into the source.
    Edits(Unwritten),
    /// With these edits an assertion stands behind one that isn't the library's own and cites it.
    StandsBehind {
        /// The label of the cited one then.
        label: Label,
        /// That of the one that cites it.
        by: Label,
    },
    /// The text with these edits has this fault.
    Unread(TextFault),
    /// With these edits an assertion changes that isn't the library's own: its label in the source.
    Changes(Label),
    /// With these edits an assertion is there that isn't the library's own and wasn't in the source.
    AnotherAssertion,
    /// The library can't be taken again of the text with these edits.
    Untaken,
    /// Another library is taken of it.
    AnotherLibrary,
    /// With these edits a comment would be lost.
    CommentLost,
    /// Memory ran out.
    NoMemory,
}

impl From<AllocError> for Refusal {
    ghost use Rattle.std.specs.Prelude.{◌≡◌};
    ghost use Rattle.givetext.specs.declared.refusal.Refusal.TheVariants.{NoMemory};

    ghost from_gives = { λ _ why. why ≡ NoMemory };

    fn from(_error: AllocError) -> Refusal {
        Refusal::NoMemory
    }
}

impl<T: Drop> From<AllocFailed<T>> for Refusal {
    ghost use Rattle.std.specs.Prelude.{◌≡◌};
    ghost use Rattle.givetext.specs.declared.refusal.Refusal.TheVariants.{NoMemory};

    ghost from_gives = { λ _ why. why ≡ NoMemory };

    fn from(_error: AllocFailed<T>) -> Refusal {
        Refusal::NoMemory
    }
}

impl From<TextFault> for Refusal {
    ghost use Rattle.std.specs.Prelude.{◌≢◌, ℕ, List};
    ghost use Rattle.mmtext.specs.declared.fault.FaultKind.TheVariants.{NoMemory as OutOfMemory};
    ghost use Rattle.source.specs.Faults.{FaultySource};
    ghost use Rattle.givetext.specs.Parts.{IsSourceRefusal};

    // so is a text whose fault it is
    ghost from_gives = { λ fault why. (text : List ℕ) → (fault.kind ≢ OutOfMemory → FaultySource text fault)
        → IsSourceRefusal text why };

    fn from(fault: TextFault) -> Refusal {
        if fault.kind == FaultKind::NoMemory {
            return Refusal::NoMemory;
        }
        Refusal::Source(fault)
    }
}

impl From<Unwritten> for Refusal {
    ghost use Rattle.givetext.specs.Parts.{IsEditsRefusal};

    ghost from_gives = { IsEditsRefusal };

    fn from(why: Unwritten) -> Refusal {
        match why {
            Unwritten::NoMemory => Refusal::NoMemory,
            other => Refusal::Edits(other),
        }
    }
}
