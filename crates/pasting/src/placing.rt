//! The steps that labels of a source have in the library that is taken of it.

ghost use Rattle.std.specs.Prelude.{◌≡◌};
ghost use Rattle.std.specs.Option.{option_map};
ghost use Rattle.taking.specs.Names.{label_in};
ghost use Rattle.pasting.specs.Places.{places_of};

use crate::additions::Additions;
use mmsyntax::{Database, Label, Step};
use sites::Sites;
use std::alloc::{AllocError, Global};
use taking::StepPlaces;

/// What has a place in a library: with the library, whose assertions have the labels, and with what scripts add to it.
#[derive(Clone, Copy)]
pub(crate) struct Placed<'p, 'a, 'x> {
    /// What of the source has a place.
    pub sites: &'p Sites<'a>,
    /// The library.
    pub database: &'p Database,
    /// What scripts add.
    pub additions: &'p Additions<'x>,
}

impl<'p, 'a, 'x> Placed<'p, 'a, 'x> {
    /// The label in the library of the assertion with a label in the source, if it is taken: one look-up.
    fn label(&self, label: &[u8]) -> Option<&Label>
        ensures { option_map (λ l. l.now) result
            ≡ label_in (places_of self.now.sites.now.floats self.now.sites.now.labels self.now.database.now) label.now }
    {
        let place = self.sites.label(label)?;
        let assertion = self.database.assertions().get(place)?;
        Some(&assertion.label)
    }
}

impl<'p, 'a, 'x> StepPlaces for Placed<'p, 'a, 'x> {
    ghost use Rattle.pasting.specs.Views.{places_behind};

    ghost places = { λ p. places_behind p };

    fn step(&self, alloc: Global, label: &[u8]) -> Result<Option<Step>, AllocError> {
        if let Some(place) = self.sites.float(label) {
            return Ok(Some(Step::Float(place)));
        }
        match self.label(label) {
            Some(name) => Ok(Some(Step::Cite(name.copy(alloc)?))),
            None if self.additions.have(label) => {
                Ok(Some(Step::Cite(Label::from_slice(alloc, label)?)))
            }
            None => Ok(None),
        }
    }
}
