//! A library during a transaction: all that was done to it can be taken back, and that takes no memory.

ghost use Rattle.mmsyntax.specs.declared.limits.TheConstants.{MOST_ASSERTIONS};
ghost use Rattle.std.specs.Prelude.{◌≡◌, ◌≤◌, length, map, IfOk, vec_len, vec_capacity};
ghost use Rattle.std.specs.Str.{bytes_eq};
ghost use Rattle.mmsyntax.specs.Assertions.{Distinct};
ghost use Rattle.library.specs.Library.{Verifies, ShowsInOrder, label_of, ranked_from};
ghost use Rattle.catalog.specs.Entries.{living};
ghost use Rattle.history.specs.Drafts.{now_in, IsOpened, Settles};

use catalog::{
    Citers, Note, Places, Trunks, drop_notes, open_citers, open_entries, open_frames, take_all_back,
};
use library::{PlainLibrary, Ranked};
use mmsyntax::{Assertion, Frame, Prelude};
use std::alloc::{AllocError, Global};
use std::hash::RandomState;
use std::marker::Model;

mod changes;
mod edits;

/// A clause sees the setting, the library as the transaction found it, the assertions now by their places, their frames, who may cite
/// them, and the changes noted since.
#[derive(Drop)]
pub(crate) struct Draft {
    prelude: Prelude,
    slots: usize,
    /// A place whose assertion was deleted is empty.
    entries: Vec<Option<Ranked>>,
    /// The frame of each assertion, at its place.
    frames: Vec<Frame>,
    places: Places,
    /// The labels of the form `L.k`, by L.
    trunks: Trunks,
    /// Lists only grow, so that taking changes back leaves them as they are.
    citers: Citers,
    /// How many assertions there are.
    count: usize,
    /// How many there were at the start of the transaction.
    start_count: usize,
    notes: Vec<Note>,
    /// Room for the whole library, so that showing it takes no memory.
    shelf: Vec<Ranked>,
}

impl Model for Draft {
    ghost use Rattle.catalog.specs.Entries.{living};
    ghost use Rattle.catalog.specs.Trunks.{AreTrunks};
    ghost use Rattle.catalog.specs.Changes.{undone};
    ghost use Rattle.history.specs.Drafts.{Drafted, IsDraft, AreCiters, IsCounted, IsShelf};

    ghost Value = { Drafted };

    ghost view = { λ d. record {
      setting = record { prelude = d.prelude; slots = d.slots };
      start = living (undone d.notes.items d.entries.items);
      entries = d.entries.items;
      frames = d.frames.items;
      citers = d.citers.items;
      noted = d.notes.items;
    } };

    ghost invariant = { λ d. IsDraft d.prelude d.places d.frames.items d.notes.items d.entries.items
        × IsCounted d.count d.start_count d.notes.items d.entries.items
        × IsShelf d.slots d.shelf
        × AreCiters d.citers.items d.notes.items d.entries.items
        × AreTrunks d.trunks d.places };
}

impl Draft {
    /// The opening library of these assertions, before any command, with room for `slots` of them.
    pub fn open(
        alloc: Global,
        keys: RandomState,
        prelude: Prelude,
        slots: usize,
        assertions: &[Assertion],
    ) -> Result<Draft, AllocError>
        requires few { length assertions.now ≤ MOST_ASSERTIONS }
        requires distinct { Distinct bytes_eq (map label_of (ranked_from 1 assertions.now)) }
        ensures { IfOk result (IsOpened (record { prelude = prelude; slots = slots }) (ranked_from 1 assertions.now)) }
    {
        let (entries, places, trunks) = open_entries(alloc, keys, assertions)?;
        let frames = open_frames(alloc, &prelude, assertions)?;
        let citers = open_citers(alloc, entries.as_slice(), &places)?;
        Ok(Draft {
            prelude,
            slots,
            entries,
            frames,
            places,
            trunks,
            citers,
            count: assertions.len(),
            start_count: assertions.len(),
            notes: Vec::new(alloc),
            shelf: Vec::with_capacity(alloc, slots)?,
        })
    }

    /// The prelude of the library.
    pub fn prelude(&self) -> &Prelude
        ensures { result.now ≡ self.now.setting.prelude }
    {
        &self.prelude
    }

    /// How many assertions the library may have at a time.
    pub fn slots(&self) -> usize
        ensures { result ≡ self.now.setting.slots }
    {
        self.slots
    }

    /// How many assertions the library has now.
    pub fn assertion_count(&self) -> usize
        ensures { result ≡ length (now_in self.now) }
    {
        self.count
    }

    /// Takes back all that was done since the start.
    pub fn undo(&mut self)
        ensures { Settles self.old self.old.start self.new }
    {
        take_all_back(
            self.entries.as_mut_slice(),
            &mut self.places,
            self.notes.as_mut_slice(),
        );
        drop_notes(
            self.entries.as_slice(),
            &mut self.places,
            &mut self.trunks,
            &mut self.notes,
        );
        self.count = self.start_count;
    }

    /// Makes the library now the start of what follows.
    pub fn settle(&mut self)
        ensures { Settles self.old (now_in self.old) self.new }
    {
        drop_notes(
            self.entries.as_slice(),
            &mut self.places,
            &mut self.trunks,
            &mut self.notes,
        );
        self.start_count = self.count;
    }

    /// The library in export order.
    pub fn into_library(mut self) -> PlainLibrary
        requires { Verifies self.setting (now_in self) }
        ensures setting { result.setting ≡ self.setting }
        ensures shown { ShowsInOrder (now_in self) result.entries }
    {
        shelve(self.entries, &mut self.shelf);
        PlainLibrary::sorted(self.prelude, self.slots, self.shelf)
    }
}

/// Puts all assertions, in the order of their places, on a shelf that has room for them.
fn shelve(entries: Vec<Option<Ranked>>, shelf: &mut Vec<Ranked>)
    requires room { length (living entries.items) ≤ vec_capacity shelf.old }
    requires empty { vec_len shelf.old ≡ 0 }
    ensures { shelf.new.items ≡ living entries.items }
{
    for place in entries {
        if let Some(entry) = place {
            shelf.push_reserved(entry);
        }
    }
}
