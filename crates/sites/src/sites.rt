//! The sites of what is taken of a source, with fast look-ups.

ghost use Rattle.std.specs.Prelude.{◌≡◌, length};
ghost use Rattle.std.specs.Str.{bytes_eq};
ghost use Rattle.mmsyntax.specs.Tables.{place_of};
ghost use Rattle.source.specs.Views.{seen_words};
ghost use Rattle.sites.specs.Indexes.{HasRoom};

use crate::indexed::Indexed;
use std::marker::Model;

/// What has the places 0, 1, .. of a library: constants, `$f` and assertions, by their names in the source. There are at most 65,535
/// constants, and as many `$f`.
pub struct Sites<'a> {
    constants: Indexed<'a>,
    floats: Indexed<'a>,
    types: Vec<u32>,
    variables: Vec<&'a [u8]>,
    labels: Indexed<'a>,
}

// Proved here once: a derived drop is proved again in each crate that drops such a value.
impl<'a> Drop for Sites<'a> {
    fn drop(self) {
        let Sites {
            constants: _,
            floats: _,
            types: _,
            variables: _,
            labels: _,
        } = self;
    }
}

impl<'a> Model for Sites<'a> {
    ghost use Rattle.source.specs.Views.{seen_words};
    ghost use Rattle.sites.specs.Indexes.{HasRoom};
    ghost use Rattle.sites.specs.Sites.{Sited};

    ghost Value = { Sited };

    ghost view = { λ s. record {
      constants = s.constants;
      floats = s.floats;
      types = s.types.items;
      variables = seen_words s.variables.items;
      labels = s.labels;
    } };

    ghost invariant = { λ s. HasRoom s.constants s.floats };
}

impl<'a> Sites<'a> {
    /// Sites of these constants, `$f` with their types and variables, and labels.
    pub(crate) fn new(
        constants: Indexed<'a>,
        floats: Indexed<'a>,
        types: Vec<u32>,
        variables: Vec<&'a [u8]>,
        labels: Indexed<'a>,
    ) -> Sites<'a>
        requires { HasRoom constants floats }
        ensures { result ≡ record {
          constants = constants.entry;
          floats = floats.entry;
          types = types.items;
          variables = seen_words variables.entry.items;
          labels = labels.entry;
        } }
    {
        Sites {
            constants,
            floats,
            types,
            variables,
            labels,
        }
    }

    /// The constants, by their places.
    pub fn constants(&self) -> &[&'a [u8]]
        ensures words { seen_words result.now ≡ self.now.constants }
        ensures room { HasRoom self.now.constants self.now.floats }
    {
        self.constants.words()
    }

    /// The labels of the `$f`, by their places.
    pub fn floats(&self) -> &[&'a [u8]]
        ensures words { seen_words result.now ≡ self.now.floats }
        ensures room { HasRoom self.now.constants self.now.floats }
    {
        self.floats.words()
    }

    /// The places of the types of the `$f`.
    pub fn types(&self) -> &[u32]
        ensures { result.now ≡ self.now.types }
    {
        self.types.as_slice()
    }

    /// The variables of the `$f`.
    pub fn variables(&self) -> &[&'a [u8]]
        ensures { seen_words result.now ≡ self.now.variables }
    {
        self.variables.as_slice()
    }

    /// The labels of the assertions, in their order.
    pub fn labels(&self) -> &[&'a [u8]]
        ensures { seen_words result.now ≡ self.now.labels }
    {
        self.labels.words()
    }

    /// The place of a constant, if it has one: one look-up.
    pub fn constant(&self, word: &[u8]) -> Option<u32>
        ensures { result ≡ place_of (bytes_eq word.now) self.now.constants }
    {
        let place = self.constants.place(word)?;
        Some(place as u32)
    }

    /// The place of the `$f` with a label, if it has one: one look-up.
    pub fn float(&self, label: &[u8]) -> Option<u32>
        ensures { result ≡ place_of (bytes_eq label.now) self.now.floats }
    {
        let place = self.floats.place(label)?;
        Some(place as u32)
    }

    /// The place of the assertion with a label, if it has one: one look-up.
    pub fn label(&self, label: &[u8]) -> Option<usize>
        ensures { result ≡ place_of (bytes_eq label.now) self.now.labels }
    {
        self.labels.place(label)
    }
}
