//! A library in running words.

use lawful::{Given, LibraryLaw};
use lending::{Kit, Live};
use mmsyntax::Prelude;
use std::alloc::Global;
use std::marker::Model;
use tlwords::{Mode, Words};

/// A library in words that sessions share. Contracts see the opening that it is of.
pub struct Library {
    pub(crate) prelude: Prelude,
    pub(crate) given: Given,
    pub(crate) words: Words<LibraryLaw>,
}

// Proved here once: a derived drop is proved again in each crate that drops such a value.
impl Drop for Library {
    fn drop(self) {
        let Library {
            prelude: _,
            given: _,
            words: _,
        } = self;
    }
}

impl Model for Library {
    ghost use Rattle.std.specs.Prelude.{◌≡◌};
    ghost use Rattle.tlwords.specs.Callers.{home_of};
    ghost use Rattle.transaction.specs.Members.{Home};
    ghost use Rattle.transaction.specs.Openings.{IsLibraryOf};

    ghost Value = { Home };

    ghost view = { λ l. record {
      given = l.given;
      words = home_of l.words;
      store = l.words.table.shared.key.store.value.items;
      sessions =
          l.words.table.shared.key.sessions;
    } };

    ghost invariant = { λ l. IsLibraryOf l.prelude (record {
      given = l.given;
      words = home_of l.words;
      store =
          l.words.table.shared.key.store.value.items;
      sessions = l.words.table.shared.key.sessions;
    }) };
}

impl Library {
    ghost use Rattle.std.specs.Prelude.{◌≡◌, Some};
    ghost use Rattle.tlwords.specs.Callers.{home_of};
    ghost use Rattle.lawful.specs.Lawful.{setting_given};
    ghost use Rattle.lawful.specs.Laws.{IsPassOn};
    ghost use Rattle.lending.specs.Lent.{Lends};
    ghost use Rattle.transaction.specs.Openings.{IsLibraryOf};

    /// Its prelude, what was given at its opening, and its words.
    pub(crate) fn into_parts(self) -> (Prelude, Given, Words<LibraryLaw>)
        ensures is { record {
          given = result.1;
          words = home_of result.2;
          store = result.2.table.shared.key.store.value.items;
          sessions =
              result.2.table.shared.key.sessions;
        } ≡ self }
        ensures stands { IsLibraryOf result.0 self }
    {
        let Library {
            prelude,
            given,
            words,
        } = self;
        (prelude, given, words)
    }

    /// Begins a run of a session on its words, to read only or to write too, that may stage words or not.
    pub(crate) fn begin(&self, alloc: Global, kit: Kit, mode: Mode, may_stage: bool) -> Live<'_>
        requires own { kit.pass.home ≡ self.now.words }
        requires on { IsPassOn self.now.given kit.pass }
        ensures { Lends self.now.given kit mode may_stage result.run }
    {
        Live::begin(alloc, &self.words, &self.given, kit, mode, may_stage)
    }

    /// The prelude of the library's assertions.
    pub fn prelude(&self) -> &Prelude
        ensures value { result.now ≡ (setting_given self.now.given).prelude }
        // the words were opened with what the library was given
        ensures setting { self.now.words.setting ≡ Some self.now.given }
    {
        &self.prelude
    }

    /// How many assertions it may hold.
    pub fn slots(&self) -> usize
        ensures { result ≡ self.now.given.slots }
    {
        self.given.slots
    }
}
