//! A library in which nothing has a place: for what is asked of proofs before there is one.

use mmsyntax::Step;
use std::alloc::{AllocError, Global};
use taking::StepPlaces;

/// Nothing has a place.
pub(crate) struct NoPlaces;

impl StepPlaces for NoPlaces {
    ghost use Rattle.choosing.specs.Places.{nowhere};

    ghost places = { λ _. nowhere };

    fn step(&self, _alloc: Global, _label: &[u8]) -> Result<Option<Step>, AllocError> {
        Ok(None)
    }
}
