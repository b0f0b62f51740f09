//! The seats: where a run stands, what it has read, and what it holds.
#![tactic(auto)]

ghost use Rattle.std.specs.Prelude.{◌≡◌, IfOk};

use std::alloc::AllocError;
use std::marker::Model;

/// A read of a cell: an element of the read set.
#[derive(Clone, Copy)]
pub struct Read {
    /// The cell, from 0.
    pub cell: usize,
    /// The lock word that both looks found.
    pub word: u64,
    /// The value loaded between them.
    pub value: u64,
}

/// A cell that a run holds: an element of the write set.
#[derive(Clone, Copy)]
pub struct Held {
    /// The cell, from 0.
    pub cell: usize,
    /// The lock word that it had, which a release after a conflict gives back.
    pub word: u64,
    /// The value that is to be stored.
    pub value: u64,
    /// Whether the value is stored.
    pub stored: bool,
}

/// Where a seat stands in its run. An `entry` is the index of the run's entry in the history, from 0: its number less one.
#[derive(Clone, Copy)]
pub enum Phase {
    /// The seat runs nothing.
    Idle,
    /// The run is outside a read, and holds no cell.
    Reading,
    /// The first look at the cell passed, and found this lock word.
    Looked { cell: usize, word: u64 },
    /// And then this value was loaded.
    Loaded { cell: usize, word: u64, value: u64 },
    /// The run holds a cell and has no number yet.
    Taking,
    /// The run has drawn a number. Each cell below `upto` that it read and doesn't hold is checked.
    Checking { entry: usize, upto: usize },
    /// The run has stored a value, so its entry is Done.
    Storing { entry: usize },
    /// A conflict was met before the draw, and cells are still held.
    Failing,
    /// A conflict was met after the draw, and cells are still held.
    Voiding { entry: usize },
}

/// A seat: one that runs transactions, one after another.
#[derive(Drop)]
pub struct Seat {
    /// Where the seat stands.
    pub phase: Phase,
    /// The place of the run: the clock as its `Begin` found it.
    pub rv: u64,
    /// The read set, the newest read first.
    pub reads: Vec<Read>,
    /// The cells held, the newest first.
    pub held: Vec<Held>,
    /// Whether the last run met a conflict.
    pub conflicted: bool,
    /// What the loads of the clock found, the newest first.
    pub clocks: Vec<u64>,
    /// The cells that the seat has locked, in all its runs, the newest first.
    pub locked: Vec<usize>,
    /// The cell and the lock word that the last look, check or take since the last load of the clock found.
    pub looked: Option<(usize, u64)>,
}

impl Model for Seat {
    ghost use Rattle.tlcore.specs.Seats.{Seat as SeatValue};

    ghost Value = { SeatValue };

    ghost view = { λ a. record {
      phase = a.phase;
      rv = a.rv;
      reads = a.reads.items;
      held = a.held.items;
      conflicted = a.conflicted;
      clocks =
          a.clocks.items;
      locked = a.locked.items;
      looked = a.looked;
    } };
}

impl Seat {
    /// An equal seat.
    pub fn copy(&self) -> Result<Seat, AllocError>
        ensures { IfOk result (λ t. t ≡ self.now) }
    {
        Ok(Seat {
            phase: self.phase,
            rv: self.rv,
            reads: self.reads.clone()?,
            held: self.held.clone()?,
            conflicted: self.conflicted,
            clocks: self.clocks.clone()?,
            locked: self.locked.clone()?,
            looked: self.looked,
        })
    }
}
