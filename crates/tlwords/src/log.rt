//! What a pass keeps of the cells that its run touches, and lists for the steps of its commit, with a place for every cell.
#![tactic(auto)]

ghost use Rattle.std.specs.Prelude.{◌≡◌, ℕ, ◌%◌, ◌^◌, ◌<◌, ◌≤◌, length, IfOk, true, false};
ghost use Rattle.std.specs.Vec.{vec_capacity};
ghost use Rattle.tlwords.specs.Runs.{word_seen, value_kept, was_read, IsBlank, HasNoted, HasKept};
ghost use Rattle.tlwords.specs.Walks.{IsPlan};
ghost use Rattle.tlwords.specs.declared.mode.Mode.TheVariants.{Reading, Writing};
ghost use Rattle.tlwords.specs.Commits.{HasForgotten};

use crate::mode::Mode;
use crate::slots::Slots;
use std::alloc::{AllocError, Global};

/// What is kept of a cell: the lock word that the run saw at its newest read, and the value kept aside.
#[derive(Clone, Copy)]
pub struct Slot {
    pub(crate) word: Option<u64>,
    pub(crate) kept: Option<u64>,
}

/// A cell that a step of a commit is for.
#[derive(Clone, Copy)]
pub(crate) struct Touched {
    pub(crate) cell: usize,
    /// The lock word that the run saw at its newest read.
    pub(crate) word: u64,
    /// The value kept aside, or 0.
    pub(crate) value: u64,
}

/// What is kept of each cell, and two lists that a commit makes of it, with room for every cell.
#[derive(Drop)]
pub struct Log {
    pub(crate) slots: Slots,
    /// The cells to be written, in ascending order.
    pub(crate) writes: Vec<Touched>,
    /// The cells that were read and aren't written, in ascending order.
    pub(crate) checks: Vec<Touched>,
    pub ghost room: { (length slots ≤ vec_capacity writes) × (length slots ≤ vec_capacity checks) },
}

impl Log {
    /// With a place for so many cells, and nothing kept.
    pub(crate) fn new(alloc: Global, cells: usize) -> Result<Log, AllocError>
        requires { cells < 2 ^ 32 }
        ensures { IfOk result (λ l. (length l.slots ≡ cells) × IsBlank l.slots) }
    {
        Ok(Log {
            slots: Slots::new(alloc, cells)?,
            writes: Vec::with_capacity(alloc, cells)?,
            checks: Vec::with_capacity(alloc, cells)?,
        })
    }

    /// What is kept of the cell.
    pub(crate) fn slot(&self, cell: usize) -> Slot
        requires { cell < length self.now.slots }
        ensures { (word_seen self.now.slots cell ≡ result.word) × (value_kept self.now.slots cell ≡ result.kept) }
    {
        self.slots.get(cell)
    }

    /// Lists the cells to be written.
    pub(crate) fn plan_writes(&mut self)
        ensures same { self.new.slots ≡ self.old.slots }
        ensures plan { IsPlan self.new.slots true self.new.writes.items }
    {
        self.slots.plan(true, &mut self.writes);
    }

    /// Lists the cells that were read and aren't written.
    pub(crate) fn plan_checks(&mut self)
        ensures same { (self.new.slots ≡ self.old.slots) × (self.new.writes ≡ self.old.writes) }
        ensures plan { IsPlan self.new.slots false self.new.checks.items }
    {
        self.slots.plan(false, &mut self.checks);
    }

    /// The cell was read under this lock word, by a run in this mode.
    pub(crate) fn note(&mut self, mode: Mode, cell: usize, word: u64)
        requires cell { cell < length self.old.slots }
        requires even { word % 2 ≡ 0 }
        ensures reading { mode ≡ Reading → self.new ≡ self.old }
        ensures writing { mode ≡ Writing → HasNoted self.old.slots self.new.slots cell word }
    {
        match mode {
            Mode::Reading => {}
            Mode::Writing => self.slots.note(cell, word),
        }
    }

    /// Keeps a value aside for a cell that was read.
    pub(crate) fn keep(&mut self, cell: usize, value: u64)
        requires cell { cell < length self.old.slots }
        requires read { was_read self.old.slots cell ≡ true }
        ensures { HasKept self.old.slots self.new.slots cell value }
    {
        self.slots.keep(cell, value);
    }

    /// Throws away the values kept aside. It walks over the cells that were read.
    pub(crate) fn forget(&mut self)
        ensures { HasForgotten self.old.slots self.new.slots }
    {
        self.slots.forget();
    }

    /// Throws all away. It walks over the cells that were read.
    pub(crate) fn clear(&mut self)
        ensures blank { IsBlank self.new.slots }
        ensures size { length self.new.slots ≡ length self.old.slots }
    {
        self.slots.clear();
    }
}
