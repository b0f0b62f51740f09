//! A step that is lent.

ghost use Rattle.std.specs.Prelude.{◌≡◌, ◌↔◌, IsTrue};
ghost use Rattle.mmsyntax.specs.ProofWords.{seen_step, IsSmall};

use crate::proof::PLACES;

/// A step of a proof, with the label where it lies.
#[derive(Clone, Copy)]
pub enum StepRef<'a> {
    /// The `$f` at this place of the prelude, counted from 0.
    Float(u32),
    /// The hypothesis at this place of the assertion being proved, counted from 0.
    Hyp(u32),
    /// An assertion, by its label.
    Cite(&'a [u8]),
}

impl<'a> StepRef<'a> {
    /// Whether a proof can hold the step: its place is below 2^30.
    pub fn is_small(self) -> bool
        ensures { IsTrue result ↔ IsSmall (seen_step self.entry) }
    {
        match self {
            StepRef::Float(place) | StepRef::Hyp(place) => place < PLACES,
            StepRef::Cite(_) => true,
        }
    }
}

/// Whether two steps are the same.
pub fn is_same_step(a: StepRef<'_>, b: StepRef<'_>) -> bool
    ensures { IsTrue result ↔ (seen_step a.entry ≡ seen_step b.entry) }
{
    match (a, b) {
        (StepRef::Float(i), StepRef::Float(j)) => i == j,
        (StepRef::Hyp(i), StepRef::Hyp(j)) => i == j,
        (StepRef::Cite(i), StepRef::Cite(j)) => i == j,
        _ => false,
    }
}
