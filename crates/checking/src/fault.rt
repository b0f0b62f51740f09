//! Why a job prints nothing.

ghost use Rattle.checking.specs.Parts.{IsTextFaultOf};

use mmstatement::{FaultKind, Label, TextFault};
use proofcheck::ProofFault;
use std::alloc::{AllocError, AllocFailed};

/// Why a job prints nothing. Its text is the program's line, without the path of the file at fault.
#[derive(Debug, Drop)]
pub enum Fault {
    /// A text is not read. Texts count from 0: the database, then each script, or the history.
    Text { file: usize, fault: TextFault },
    /// The proof of the theorem with a label has a fault.
    Proof { label: Label, fault: ProofFault },
    /// An entry of the history, counted from 1, is the first whose replies aren't the library's.
    Differs(usize),
    /// The store has no room for the labels, statements and proofs of the database.
    StoreFull,
    /// No worker drew this number of the history, counted from 1.
    Missing(u64),
    /// The lock of this cell, from 0, is held at the end.
    Held(usize),
    /// A thread for a worker can't be had.
    NoThread,
    /// Memory ran out.
    NoMemory,
}

impl From<AllocError> for Fault {
    ghost use Rattle.std.specs.Prelude.{◌≡◌};
    ghost use Rattle.checking.specs.declared.fault.Fault.TheVariants.{NoMemory};

    ghost from_gives = { λ _ f. f ≡ NoMemory };

    fn from(_error: AllocError) -> Fault {
        Fault::NoMemory
    }
}

impl<T: Drop> From<AllocFailed<T>> for Fault {
    ghost use Rattle.std.specs.Prelude.{◌≡◌};
    ghost use Rattle.checking.specs.declared.fault.Fault.TheVariants.{NoMemory};

    ghost from_gives = { λ _ f. f ≡ NoMemory };

    fn from(_error: AllocFailed<T>) -> Fault {
        Fault::NoMemory
    }
}

/// The fault of a text, or want of memory.
pub(crate) fn text_fault(file: usize, fault: TextFault) -> Fault
    ensures { IsTextFaultOf file fault result }
{
    if fault.kind == FaultKind::NoMemory {
        Fault::NoMemory
    } else {
        Fault::Text { file, fault }
    }
}
