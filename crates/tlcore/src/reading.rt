//! The events of a run that reads: begin, look, load, relook.
//!
//! Each function answers whether the event is lawful where the seat stands; where it isn't, nothing changes.
#![tactic(auto)]

ghost use Rattle.std.specs.Prelude.{List, IfOk};
ghost use Rattle.tlcore.specs.History.{WordsEntry};
ghost use Rattle.tlcore.specs.Machine.{Begin, Look, Load, Relook};
ghost use Rattle.tlcore.specs.Steps.{Acts};

use crate::cells::Cell;
use crate::entries::Entry;
use crate::seats::{Phase, Read, Seat};
use crate::sets::passes;
use std::alloc::{AllocError, Global};

/// Samples the clock, which is the length of the history.
pub fn begin(
    alloc: Global,
    cells: &[Cell],
    seat: &mut Seat,
    history: &[Entry],
) -> Result<bool, AllocError>
    ensures { IfOk result (λ b. Acts cells.now seat.old history.now Begin b cells.now seat.new history.now) }
{
    match seat.phase {
        Phase::Idle | Phase::Reading => {
            let clock = history.len() as u64;
            seat.clocks.insert(0, clock)?;
            seat.looked = None;
            seat.phase = Phase::Reading;
            seat.rv = clock;
            seat.reads = Vec::new(alloc);
            seat.held = Vec::new(alloc);
            seat.conflicted = false;
            Ok(true)
        }
        _ => Ok(false),
    }
}

/// The first look at the lock word.
pub fn look(cells: &[Cell], seat: &mut Seat, cell: usize) -> bool
    ensures { (h : List WordsEntry) → Acts cells.now seat.old h (Look cell) result cells.now seat.new h }
{
    match seat.phase {
        Phase::Reading => {
            if cell >= cells.len() {
                return false;
            }
            let word = cells[cell].lock;
            seat.looked = Some((cell, word));
            if passes(word, seat.rv) {
                seat.phase = Phase::Looked { cell, word };
            } else {
                seat.phase = Phase::Idle;
                seat.conflicted = true;
            }
            true
        }
        _ => false,
    }
}

/// The load of the value word.
pub fn load(cells: &[Cell], seat: &mut Seat, cell: usize) -> bool
    ensures { (h : List WordsEntry) → Acts cells.now seat.old h (Load cell) result cells.now seat.new h }
{
    match seat.phase {
        Phase::Looked { cell: looked, word } => {
            if looked != cell || cell >= cells.len() {
                return false;
            }
            seat.phase = Phase::Loaded {
                cell,
                word,
                value: cells[cell].value,
            };
            true
        }
        _ => false,
    }
}

/// The second look at the lock word: the cell is read where the word is the same.
pub fn relook(cells: &[Cell], seat: &mut Seat, cell: usize) -> Result<bool, AllocError>
    ensures { IfOk result (λ b. (h : List WordsEntry) → Acts cells.now seat.old h (Relook cell) b cells.now seat.new h) }
{
    match seat.phase {
        Phase::Loaded {
            cell: loaded,
            word,
            value,
        } => {
            if loaded != cell || cell >= cells.len() {
                return Ok(false);
            }
            seat.looked = Some((cell, cells[cell].lock));
            if cells[cell].lock == word {
                seat.reads.insert(0, Read { cell, word, value })?;
                seat.phase = Phase::Reading;
            } else {
                seat.phase = Phase::Idle;
                seat.conflicted = true;
            }
            Ok(true)
        }
        _ => Ok(false),
    }
}
