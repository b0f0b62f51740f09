//! The steps that labels have in the library.

ghost use Rattle.std.specs.Prelude.{◌≡◌};
ghost use Rattle.std.specs.Option.{option_map};
ghost use Rattle.taking.specs.Names.{label_in};
ghost use Rattle.gathering.specs.Placed.{map_of};

use mmsyntax::{Label, Step};
use sites::{LibraryNames, Sites};
use std::alloc::{AllocError, Global};
use taking::StepPlaces;

/// What has a place in the library, with its names there.
#[derive(Clone, Copy)]
pub struct Placed<'s, 'a> {
    /// What of the source has a place.
    pub sites: &'s Sites<'a>,
    /// The names of these places in the library.
    pub names: &'s LibraryNames,
}

impl<'s, 'a> Placed<'s, 'a> {
    /// The label in the library of the assertion with a label in the source, if it is taken: one look-up.
    pub(crate) fn label(&self, label: &[u8]) -> Option<&Label>
        ensures { option_map (λ l. l.now) result ≡ label_in (map_of self.now.sites.now self.now.names.now) label.now }
    {
        let place = self.sites.label(label)?;
        self.names.labels.as_slice().get(place)
    }
}

impl<'s, 'a> StepPlaces for Placed<'s, 'a> {
    ghost use Rattle.gathering.specs.Placed.{map_of};

    ghost places = { λ p. map_of p.sites.now p.names.now };

    fn step(&self, alloc: Global, label: &[u8]) -> Result<Option<Step>, AllocError> {
        if let Some(place) = self.sites.float(label) {
            return Ok(Some(Step::Float(place)));
        }
        match self.label(label) {
            None => Ok(None),
            Some(name) => Ok(Some(Step::Cite(name.copy(alloc)?))),
        }
    }
}
