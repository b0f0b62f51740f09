//! Slots that the steps of a proof cite again: hints where they were cited before.

use bodystore::StoredStep;
use std::alloc::{AllocError, Global};
use std::mem;

/// The place that is noted where no step was: behind the steps of each proof.
const NOWHERE: u32 = u32::MAX;

/// How many places are kept for each step of a proof, so that few slots share one.
const PLACES_A_STEP: usize = 4;

/// Places of steps that cited slots, the last of each; slots that share a place hide one another's. Whoever takes a hint compares what
/// stands there, so that a wrong one costs a look-up and nothing else.
#[derive(Drop)]
pub(crate) struct Hints {
    /// By the slot, modulo their number.
    places: Vec<u32>,
}

impl Hints {
    /// No place yet, for a proof of so many steps over so many slots: a short proof costs nothing by the slots.
    pub(crate) fn new(alloc: Global, steps: usize, slots: usize) -> Result<Hints, AllocError> {
        let count = steps.saturating_mul(PLACES_A_STEP).min(slots);
        Ok(Hints {
            places: vec![in alloc; NOWHERE; count]?,
        })
    }

    /// The place that was noted for the slot that a step cites, in whose stead the step's own is; its own, where it cites none.
    pub(crate) fn exchange(&mut self, step: StoredStep, place: u32) -> u32 {
        match step {
            StoredStep::Slot(slot) if !self.places.is_empty() => {
                let at = slot as usize % self.places.len();
                mem::replace(&mut self.places[at], place)
            }
            _ => place,
        }
    }
}
