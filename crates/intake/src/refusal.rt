//! Why nothing is taken of a source.

use derivation::ProofFault;
use drafts::Limit;
use mmsyntax::Label;
use mmtext::{FaultKind, TextFault};
use std::alloc::AllocError;

/// Why nothing is taken of a source: the first of these that holds.
#[derive(Debug, Drop)]
pub enum Refusal<'a, 'w> {
    /// The text declares no source: its fault.
    Source(TextFault),
    /// No assertion of the source has this label of the wish.
    UnknownLabel(&'w [u8]),
    /// The first label of the wish stands behind the second.
    Backwards,
    /// So many assertions would be taken: more than 4,096.
    TooMany(usize),
    /// More than 65,535 constants, or as many `$f`, would be taken.
    TooWide,
    /// The profile doesn't allow this name, and none of a thousand candidates for it is free.
    NoFreshName(&'a [u8]),
    /// What is taken passes a limit of the profile: at the constant, `$f` or assertion with this name in the source, if it is at one.
    Passes(Limit, Option<&'a [u8]>),
    /// What is taken breaks another rule of the profile.
    Unlawful,
    /// The listing of the proof of this theorem of the library doesn't check: so does its proof in the source not. Its fault isn't that an
    /// expression is too long: such a theorem is taken as an axiom.
    Proof(Label, ProofFault),
    /// Memory ran out.
    NoMemory,
}

impl<'a, 'w> From<AllocError> for Refusal<'a, 'w> {
    ghost use Rattle.std.specs.Prelude.{◌≡◌};
    ghost use Rattle.intake.specs.declared.refusal.Refusal.TheVariants.{NoMemory};

    ghost from_gives = { λ _ e. e ≡ NoMemory };

    fn from(_e: AllocError) -> Refusal<'a, 'w> {
        Refusal::NoMemory
    }
}

impl<'a, 'w> From<TextFault> for Refusal<'a, 'w> {
    ghost use Rattle.std.specs.Prelude.{◌≢◌, ℕ, List};
    ghost use Rattle.mmtext.specs.declared.fault.FaultKind.TheVariants.{NoMemory as OutOfMemory};
    ghost use Rattle.source.specs.Faults.{FaultySource};
    ghost use Rattle.choosing.specs.declared.wish.Wish.{Wish};
    ghost use Rattle.intake.specs.Intakes.{IsRefused};
    ghost use Rattle.intake.specs.declared.refusal.Refusal.TheVariants.{NoMemory};

    // so is a text refused whose fault it is
    ghost from_gives = { λ fault why. (text : List ℕ) (w : Wish) → (fault.kind ≢ OutOfMemory → FaultySource text fault)
        → why ≢ NoMemory → IsRefused text w why };

    fn from(fault: TextFault) -> Refusal<'a, 'w> {
        if fault.kind == FaultKind::NoMemory {
            return Refusal::NoMemory;
        }
        Refusal::Source(fault)
    }
}
