//! Why a proof is refused.

ghost use Rattle.std.specs.Prelude.{◌≡◌};

use std::alloc::AllocError;
use std::error::Error;
use std::fmt;

/// The test that a proof fails, in the order of their numbers from 1.
#[derive(Clone, Copy, Debug, PartialEq, Eq)]
pub enum ProofFaultKind {
    /// A step names nothing: no assertion that may be cited, or a place without `$f` or `$e`.
    UnknownStep,
    /// Fewer expressions stand than the cited assertion has mandatory hypotheses.
    StackShort,
    /// The expression of a `$f` doesn't begin with its type.
    WrongType,
    /// The expression of a `$e` isn't what the substitution makes of it.
    HypothesisDiffers,
    /// Two substitutes that have to stay apart share a variable, or have two that aren't restricted.
    NotDisjoint,
    /// At the end there isn't just one expression.
    NotOneLeft,
    /// The one that is left isn't the statement.
    StatementDiffers,
    /// A citation would give an expression of more than 65,535 symbols.
    TooLong,
    /// Memory ran out.
    NoMemory,
}

/// The first fault of a proof.
#[derive(Clone, Copy, Debug, PartialEq, Eq)]
pub struct ProofFault {
    /// The step at fault, counted from 1. For `NotOneLeft` and `StatementDiffers` the number of steps, which is 0 of an empty
    /// proof; for `NoMemory` it says nothing.
    pub step: usize,
    pub kind: ProofFaultKind,
}

impl ProofFaultKind {
    ghost use Rattle.std.specs.Prelude.{◌≡◌};
    ghost use Rattle.derivation.specs.FaultNames.{number_of, name_of};

    /// The number of the kind, from 1 to 9.
    pub fn number(self) -> u32
        ensures { result ≡ number_of self }
    {
        match self {
            ProofFaultKind::UnknownStep => 1,
            ProofFaultKind::StackShort => 2,
            ProofFaultKind::WrongType => 3,
            ProofFaultKind::HypothesisDiffers => 4,
            ProofFaultKind::NotDisjoint => 5,
            ProofFaultKind::NotOneLeft => 6,
            ProofFaultKind::StatementDiffers => 7,
            ProofFaultKind::TooLong => 8,
            ProofFaultKind::NoMemory => 9,
        }
    }

    /// The name of the kind, as messages print it.
    pub fn name(self) -> &'static str
        ensures { result.now ≡ name_of self }
    {
        match self {
            ProofFaultKind::UnknownStep => "UnknownStep",
            ProofFaultKind::StackShort => "StackShort",
            ProofFaultKind::WrongType => "WrongType",
            ProofFaultKind::HypothesisDiffers => "HypothesisDiffers",
            ProofFaultKind::NotDisjoint => "NotDisjoint",
            ProofFaultKind::NotOneLeft => "NotOneLeft",
            ProofFaultKind::StatementDiffers => "StatementDiffers",
            ProofFaultKind::TooLong => "TooLong",
            ProofFaultKind::NoMemory => "NoMemory",
        }
    }
}

/// The number and the name of the kind, as in `6 NotOneLeft`.
impl fmt::Display for ProofFaultKind {
    ghost use Rattle.std.specs.Prelude.{Some};
    ghost use Rattle.derivation.specs.FaultNames.{printed_kind};

    ghost output = { λ kind. Some (printed_kind kind) };

    fn fmt<W: fmt::Write>(&self, f: &mut fmt::Formatter<W>) -> fmt::Result {
        let number = self.number();
        let name = self.name();
        write!(f, "{number} {name}")
    }
}

/// The step and the kind, as in `step 3: 6 NotOneLeft`.
impl fmt::Display for ProofFault {
    ghost use Rattle.std.specs.Prelude.{Some};
    ghost use Rattle.derivation.specs.FaultNames.{printed_proof_fault};

    ghost output = { λ fault. Some (printed_proof_fault fault) };

    fn fmt<W: fmt::Write>(&self, f: &mut fmt::Formatter<W>) -> fmt::Result {
        let step = self.step;
        let number = self.kind.number();
        let name = self.kind.name();
        write!(f, "step {step}: {number} {name}")
    }
}

impl Error for ProofFaultKind {}

impl Error for ProofFault {}

impl From<AllocError> for ProofFaultKind {
    ghost use Rattle.std.specs.Prelude.{◌≡◌};
    ghost use Rattle.derivation.specs.declared.fault.ProofFaultKind.TheVariants.{NoMemory};

    ghost from_gives = { λ _ kind. kind ≡ NoMemory };

    fn from(_e: AllocError) -> ProofFaultKind {
        ProofFaultKind::NoMemory
    }
}
