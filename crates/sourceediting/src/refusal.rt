//! Why the edits of a history are not written into a source.

use arranging::Side;
use mmsyntax::Label;
use std::alloc::{AllocError, AllocFailed};

/// Why the edits of a history are not written into a source.
#[derive(Debug, Drop)]
pub enum Refusal {
    /// An assertion was deleted, by its label in the source, and the proof of one that isn't the library's own still cites it.
    StillCited {
        /// That of the deleted one.
        label: Label,
        /// That of the one that cites it.
        by: Label,
    },
    /// An assertion that is put in stands in front of a neighbour in the library, which keeps its place in the source, and what declares a
    /// name of it stands behind that.
    InFront {
        /// The label in the library of what is put in.
        label: Label,
        /// That of its neighbour.
        next: Label,
        /// The name: a constant, a variable, or the label of a `$f`.
        name: Label,
    },
    /// The proof of a theorem of the edited library, by its label there, can't be written.
    Unwritten(Label),
    /// An assertion that is put in can't stand beside its neighbour in the library, which keeps its place in the source: a heading stands
    /// on that side of the neighbour, in the block around it.
    Unplaced {
        /// The label in the library of what is put in.
        label: Label,
        /// That of its neighbour.
        next: Label,
        /// The side of the neighbour that it would stand on.
        side: Side,
    },
    /// An assertion that has no proof in the source is to have another one.
    Bare,
    /// Memory ran out.
    NoMemory,
}

impl From<AllocError> for Refusal {
    ghost use Rattle.std.specs.Prelude.{◌≡◌};
    ghost use Rattle.sourceediting.specs.declared.refusal.Refusal.TheVariants.{NoMemory};

    ghost from_gives = { λ _ e. e ≡ NoMemory };

    fn from(_error: AllocError) -> Refusal {
        Refusal::NoMemory
    }
}

impl<T: Drop> From<AllocFailed<T>> for Refusal {
    ghost use Rattle.std.specs.Prelude.{◌≡◌};
    ghost use Rattle.sourceediting.specs.declared.refusal.Refusal.TheVariants.{NoMemory};

    ghost from_gives = { λ _ e. e ≡ NoMemory };

    fn from(_error: AllocFailed<T>) -> Refusal {
        Refusal::NoMemory
    }
}
