//! A step of a proof as the store keeps it: a cited assertion by its slot.

ghost use Rattle.std.specs.Prelude.{◌≡◌};
ghost use Rattle.bodystore.specs.Bodies.{step_word, stored_step, IsSmallStep};

use crate::words::PLACES;

/// A step of a proof in the store.
#[derive(Clone, Copy, Debug, PartialEq, Eq)]
pub enum StoredStep {
    /// The `$f` at this place of the prelude, counted from 0.
    Float(u32),
    /// The hypothesis at this place of the assertion being proved, counted from 0.
    Hyp(u32),
    /// The assertion in this slot, counted from 0.
    Slot(u32),
}

impl StoredStep {
    /// The word of the step.
    pub fn word(self) -> u64
        ensures { result ≡ step_word self }
    {
        match self {
            StoredStep::Float(place) => 3 * place as u64,
            StoredStep::Hyp(place) => 3 * place as u64 + 1,
            StoredStep::Slot(slot) => 3 * slot as u64 + 2,
        }
    }

    /// The step of a word. A word that no step has gives some step.
    pub fn of_word(word: u64) -> StoredStep
        ensures step { result ≡ stored_step word }
        ensures own { (x : _) → IsSmallStep x → step_word x ≡ word → result ≡ x }
    {
        let place = (word / 3 % PLACES) as u32;
        match word % 3 {
            0 => StoredStep::Float(place),
            1 => StoredStep::Hyp(place),
            _ => StoredStep::Slot(place),
        }
    }
}
