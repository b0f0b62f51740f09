//! Why a source isn't said to verify.

use derivation::ProofFault;
use explaining::Finding;
use mmtext::{FaultKind, TextFault};

/// Why a source isn't said to verify.
#[derive(Debug, Drop)]
pub enum Refusal<'a> {
    /// The text declares no source: its fault.
    Source(TextFault),
    /// The label of the first theorem whose proof has a fault, the first fault of that proof, and what the step at fault finds.
    Proof(&'a [u8], ProofFault, Finding<'a>),
    /// The label of a theorem whose proof makes expressions of over 268,435,456 symbols.
    TooLong(&'a [u8]),
    /// Memory ran out.
    NoMemory,
}

impl<'a> From<TextFault> for Refusal<'a> {
    ghost use Rattle.std.specs.Prelude.{◌≢◌, ℕ, List};
    ghost use Rattle.mmtext.specs.declared.fault.FaultKind.TheVariants.{NoMemory as OutOfMemory};
    ghost use Rattle.source.specs.Faults.{FaultySource};
    ghost use Rattle.verifytext.specs.Verdicts.{IsRefused};

    // so is a text refused whose fault it is
    ghost from_gives = { λ fault why. (text : List ℕ) → (fault.kind ≢ OutOfMemory → FaultySource text fault) → IsRefused text why };

    fn from(fault: TextFault) -> Refusal<'a> {
        if fault.kind == FaultKind::NoMemory {
            return Refusal::NoMemory;
        }
        Refusal::Source(fault)
    }
}
