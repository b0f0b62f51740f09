//! A session of a library.

ghost use Rattle.std.specs.Prelude.{◌≡◌};
ghost use Rattle.transaction.specs.Members.{IsSessionOf};
ghost use Rattle.transaction.specs.Looks.{SessionsLearn};

use crate::outcome::Record;
use crate::running::Library;
use lawful::{Given, LibraryLaw};
use lending::Kit;
use std::marker::Model;
use std::snapshot::Snapshot;
use tlwords::{Pass, learn};

/// A session of a library: one transaction after another, on one thread at a time. Contracts see what it knows: what it has seen of the
/// history, its calls, the numbers that it drew, their records, what is staged since its last Committed, and whether the store had no room
/// for words that its last run was to stage.
pub struct Session {
    // none only while a run has it
    pub(crate) kit: Option<Kit>,
    pub(crate) records: Vec<Record>,
    pub(crate) given: Snapshot<Given>,
}

// Proved here once: a derived drop is proved again in each crate that drops such a value.
impl Drop for Session {
    fn drop(self) {
        let Session {
            kit: _,
            records: _,
            given: _,
        } = self;
    }
}

impl Model for Session {
    ghost use Rattle.std.specs.Prelude.{◌≡◌, true, is_some};
    ghost use Rattle.std.specs.Coded.{codes};
    ghost use Rattle.lending.specs.Lent.{staged_code};
    ghost use Rattle.transaction.specs.Members.{Member, IsMember};
    ghost use Rattle.transaction.specs.Kits.{known_in, staged_in, lacked_in};

    ghost Value = { Member };

    ghost coded = { Prim.hlevel (codes, staged_code) };

    ghost view = { λ s. record {
      given = s.given.value;
      known = known_in s.kit;
      records = s.records.items;
      staged = staged_in s.kit;
      lacked_room = lacked_in s.kit;
    } };

    ghost invariant = { λ s. (is_some s.kit ≡ true)
        × IsMember (record {
          given = s.given.value;
          known = known_in s.kit;
          records = s.records.items;
          staged = staged_in s.kit;
          lacked_room = lacked_in s.kit;
        }) };
}

impl Session {
    ghost use Rattle.transaction.specs.Members.{IsSoundMember, IsMember};

    /// Its pass, and its records. What was staged is forgotten.
    pub(crate) fn into_parts(self) -> (Pass<LibraryLaw>, Vec<Record>)
        ensures pass { result.0 ≡ self.known }
        ensures records { result.1.items ≡ self.records }
        ensures member { IsMember self }
    {
        let Session {
            kit,
            records,
            given: _,
        } = self;
        let Some(kit) = kit else { unreachable!() };
        (kit.into_pass(), records)
    }

    /// The records of the numbers that the session drew, in order: what became of each.
    pub fn records(&self) -> &[Record]
        ensures value { result.now ≡ self.now.records }
        ensures stands { IsSoundMember self.now }
    {
        self.records.as_slice()
    }

    /// Tells this session what another one has seen by now: it will not read what is older. It waits for nobody, and takes no memory.
    pub fn learn(&mut self, library: &Library, other: &mut Session)
        requires own { IsSessionOf library.now self.old }
        requires other { IsSessionOf library.now other.old }
        ensures { SessionsLearn self.old other.old self.new other.new }
    {
        let Some(mut kit) = self.kit.take() else {
            unreachable!()
        };
        let Some(mut others) = other.kit.take() else {
            unreachable!()
        };
        learn(&library.words, &mut kit.pass, &mut others.pass);
        self.kit = Some(kit);
        other.kit = Some(others);
    }
}
