//! The entries of the history.
#![tactic(auto)]

ghost use Rattle.std.specs.Prelude.{◌≡◌, IfOk};
ghost use Rattle.tlcore.specs.History.{settle as settled_at};

use std::alloc::AllocError;
use std::marker::Model;

/// How an entry stands: Open from its draw on, and then Done or Void once and for all.
#[derive(Clone, Copy)]
pub enum Status {
    /// Nobody knows yet whether the run commits.
    Open,
    /// The run met a conflict after its draw, and has changed no value word.
    Void,
    /// The run has stored a value.
    Done,
}

/// An entry of the history: what its run read and is to write, from the draw on.
#[derive(Drop)]
pub struct Entry {
    /// How the entry stands.
    pub status: Status,
    /// The cells that were read, with the values read.
    pub reads: Vec<(usize, u64)>,
    /// The cells that were taken, with the values to be stored.
    pub writes: Vec<(usize, u64)>,
}

impl Model for Entry {
    ghost use Rattle.tlcore.specs.History.{WordsEntry};

    ghost Value = { WordsEntry };

    ghost view = { λ a. record { status = a.status; reads = a.reads.items; writes = a.writes.items } };
}

impl Entry {
    /// An equal entry.
    pub fn copy(&self) -> Result<Entry, AllocError>
        ensures { IfOk result (λ e. e ≡ self.now) }
    {
        Ok(Entry {
            status: self.status,
            reads: self.reads.clone()?,
            writes: self.writes.clone()?,
        })
    }
}

/// Gives the entry at this index a new status; past the end nothing changes.
pub fn settle(history: &mut [Entry], index: usize, status: Status)
    ensures { history.new ≡ settled_at history.old index status }
{
    if index < history.len() {
        let entry = &mut history[index];
        entry.status = status;
    }
}
