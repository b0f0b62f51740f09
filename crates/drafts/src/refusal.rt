//! Why a name, a `$f` or an assertion can't be put behind those before it.

use crate::draft::Undeclared;
use std::alloc::AllocError;

/// Why something of a draft isn't declared behind what stands before it.
#[derive(Clone, Copy)]
pub(crate) enum Refusal {
    /// No text declares it there.
    Unlawful,
    /// Memory ran out.
    NoMemory,
}

impl From<AllocError> for Refusal {
    ghost use Rattle.std.specs.Prelude.{◌≡◌};
    ghost use Rattle.drafts.specs.declared.refusal.Refusal.TheVariants.{NoMemory};

    ghost from_gives = { λ _ refusal. refusal ≡ NoMemory };

    fn from(_error: AllocError) -> Refusal {
        Refusal::NoMemory
    }
}

impl From<Refusal> for Undeclared {
    ghost use Rattle.std.specs.Prelude.{◌≡◌};
    ghost use Rattle.drafts.specs.Refusals.{told_of};

    ghost from_gives = { λ refusal why. why ≡ told_of refusal };

    fn from(refusal: Refusal) -> Undeclared {
        match refusal {
            Refusal::Unlawful => Undeclared::Unlawful,
            Refusal::NoMemory => Undeclared::NoMemory,
        }
    }
}
