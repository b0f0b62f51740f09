//! What is kept of each cell: a list of the cells that were read, and for each cell where it stands there.
#![tactic(auto)]

ghost use Rattle.std.specs.Prelude.{◌≡◌, ℕ, ◌%◌, ◌^◌, ◌<◌, ◌≤◌, length, map, true, IfOk};
ghost use Rattle.std.specs.Vec.{vec_capacity};
ghost use Rattle.tlwords.specs.Runs.{word_seen, value_kept, was_read, IsBlank, HasNoted, HasKept};
ghost use Rattle.tlwords.specs.Walks.{IsPlan};
ghost use Rattle.tlwords.specs.Commits.{HasForgotten};
ghost use Rattle.tlwords.specs.Entries.{IsIndexed, unwritten, IsWiped, picked};

use crate::log::{Slot, Touched};
use std::alloc::{AllocError, Global};
use std::marker::Model;

/// What is kept of a cell that was read.
#[derive(Clone, Copy)]
pub(crate) struct Entry {
    pub(crate) cell: usize,
    /// The lock word that the run saw at its newest read.
    pub(crate) word: u64,
    /// The value kept aside.
    pub(crate) kept: Option<u64>,
}

/// What is kept of each cell, at most 4,294,967,295 of them. It is seen as a slot for each cell.
#[derive(Drop)]
pub struct Slots {
    // For each cell one more than the index of its entry, or 0.
    places: Vec<u32>,
    // Those of the cells that were read, with room for every cell.
    entries: Vec<Entry>,
}

impl Model for Slots {
    ghost use Rattle.std.specs.Prelude.{List, length, ◌≤◌, ◌<◌, ◌^◌};
    ghost use Rattle.std.specs.Vec.{vec_capacity};
    ghost use Rattle.tlwords.specs.declared.log.Slot.{Slot as SlotValue};

    ghost Value = { List SlotValue };

    ghost use Rattle.tlwords.specs.Entries.{slots_of, IsIndexed};

    ghost view = { λ s. slots_of s.places.items s.entries.items };

    ghost invariant = { λ s. IsIndexed s.places.items s.entries.items × (length s.places.items ≤ vec_capacity s.entries)
        × (length s.places.items < 2 ^ 32) };
}

impl Slots {
    /// With nothing kept.
    pub(crate) fn new(alloc: Global, cells: usize) -> Result<Slots, AllocError>
        requires { cells < 2 ^ 32 }
        ensures { IfOk result (λ s. (length s ≡ cells) × IsBlank s) }
    {
        let mut places = Vec::new(alloc);
        places.resize(cells, 0)?;
        let entries = Vec::with_capacity(alloc, cells)?;
        Ok(Slots { places, entries })
    }

    /// What is kept of the cell.
    pub(crate) fn get(&self, cell: usize) -> Slot
        requires { cell < length self.now }
        ensures { (word_seen self.now cell ≡ result.word) × (value_kept self.now cell ≡ result.kept) }
    {
        let place = self.places[cell];
        if place == 0 {
            return Slot {
                word: None,
                kept: None,
            };
        }
        let entry = self.entries[place as usize - 1];
        Slot {
            word: Some(entry.word),
            kept: entry.kept,
        }
    }

    /// The cell was read under this lock word.
    pub(crate) fn note(&mut self, cell: usize, word: u64)
        requires cell { cell < length self.old }
        requires even { word % 2 ≡ 0 }
        ensures { HasNoted self.old self.new cell word }
    {
        let place = self.places[cell];
        if place == 0 {
            self.entries.push_reserved(Entry {
                cell,
                word,
                kept: None,
            });
            self.places[cell] = self.entries.len() as u32;
        } else {
            let index = place as usize - 1;
            let entry = self.entries[index];
            self.entries[index] = Entry {
                cell,
                word,
                kept: entry.kept,
            };
        }
    }

    /// Keeps a value aside for a cell that was read.
    pub(crate) fn keep(&mut self, cell: usize, value: u64)
        requires cell { cell < length self.old }
        requires read { was_read self.old cell ≡ true }
        ensures { HasKept self.old self.new cell value }
    {
        let index = self.places[cell] as usize - 1;
        let entry = self.entries[index];
        self.entries[index] = Entry {
            cell,
            word: entry.word,
            kept: Some(value),
        };
    }

    /// Throws away the values kept aside. It walks over the cells that were read.
    pub(crate) fn forget(&mut self)
        ensures { HasForgotten self.old self.new }
    {
        drop_values(self.entries.as_mut_slice());
    }

    /// Throws all away. It walks over the cells that were read.
    pub(crate) fn clear(&mut self)
        ensures blank { IsBlank self.new }
        ensures size { length self.new ≡ length self.old }
    {
        wipe(self.places.as_mut_slice(), self.entries.as_slice());
        self.entries.clear();
    }

    /// Lists the cells that were read, and are to be written or not, as `kept` says, in ascending order. It takes no memory.
    pub(crate) fn plan(&self, kept: bool, plan: &mut Vec<Touched>)
        requires room { length self.now ≤ vec_capacity plan.old }
        ensures plan { IsPlan self.now kept plan.new.items }
        ensures room { vec_capacity plan.new ≡ vec_capacity plan.old }
    {
        pick(self.entries.as_slice(), kept, plan);
        plan.sort_unstable_by_key(|touched| touched.cell);
    }
}

// Throws away the values kept aside.
fn drop_values(entries: &mut [Entry])
    ensures { entries.new ≡ map unwritten entries.old }
{
    for i in 0..entries.len() {
        let entry = entries[i];
        entries[i] = Entry {
            cell: entry.cell,
            word: entry.word,
            kept: None,
        };
    }
}

// Takes their places from the cells that have an entry.
fn wipe(places: &mut [u32], entries: &[Entry])
    requires indexed { IsIndexed places.old entries.now }
    requires small { length places.old < 2 ^ 32 }
    ensures { IsWiped places.old places.new }
{
    for i in 0..entries.len() {
        let cell = entries[i].cell;
        places[cell] = 0;
    }
}

// The cells that are to be written or not, as `kept` says, in place of what was listed.
fn pick(entries: &[Entry], kept: bool, plan: &mut Vec<Touched>)
    requires { length entries.now ≤ vec_capacity plan.old }
    ensures plan { plan.new.items ≡ picked kept entries.now }
    ensures room { vec_capacity plan.new ≡ vec_capacity plan.old }
{
    plan.clear();
    for i in 0..entries.len() {
        let entry = entries[i];
        if entry.kept.is_some() == kept {
            plan.push_reserved(Touched {
                cell: entry.cell,
                word: entry.word,
                value: entry.kept.unwrap_or(0),
            });
        }
    }
}
