//! What a label of a proof names, and its step in the library.

ghost use Rattle.std.specs.Prelude.{◌≡◌, None, IfOk};
ghost use Rattle.taking.specs.Names.{Map, label_in, float_in};
ghost use Rattle.taking.specs.Listings.{own_step};

use mmsyntax::{Sequence, Step};
use std::alloc::{AllocError, Global};

/// What a label of a proof names: a hypothesis or an earlier assertion.
#[derive(Debug, Drop)]
pub struct Named {
    /// Whether each of its mandatory hypotheses is a `$f`, in order of appearance. A hypothesis has none.
    pub floats: Sequence<bool>,
    /// The step that names it in the library: nothing where it isn't taken.
    pub step: Option<Step>,
}

/// Which steps the labels of `$f` and of assertions have in the library.
pub trait StepPlaces {
    // what has a place there
    ghost places: { Self → Map };

    /// The step of a label that is not that of a `$e`: of a `$f` by its place, or of an assertion by its label in the library.
    fn step(&self, alloc: Global, label: &[u8]) -> Result<Option<Step>, AllocError>
        ensures { IfOk result (λ step. step ≡ own_step None (float_in (places self.now) label.now)
            (label_in (places self.now) label.now)) };
}
