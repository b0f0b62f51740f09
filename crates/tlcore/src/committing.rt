//! The events of a run that commits: take, draw, check, store, release.
//!
//! Each function answers whether the event is lawful where the seat stands; where it isn't, nothing changes.
#![tactic(auto)]

ghost use Rattle.std.specs.Prelude.{◌≡◌, ◌<◌, ◌*◌, ◌+◌, ℕ, List, IfOk, length, Some};
ghost use Rattle.tlcore.specs.History.{WordsEntry};
ghost use Rattle.tlcore.specs.Seats.{Read as ReadValue, find_read as find_read_of};
ghost use Rattle.tlcore.specs.Machine.{Take, Draw, Check, Store, Release};
ghost use Rattle.tlcore.specs.Steps.{Acts, Releases};

use crate::cells::Cell;
use crate::entries::{Entry, Status, settle};
use crate::seats::{Held, Phase, Seat};
use crate::sets::{
    all_below, all_settled, find_held, find_read, is_held, passes, read_pairs, settled_below,
    stored, without, write_pairs,
};
use std::alloc::{AllocError, Global};

/// One try to lock a cell that the run has read, above each cell that it holds.
pub fn take(
    cells: &mut [Cell],
    seat: &mut Seat,
    cell: usize,
    value: u64,
) -> Result<bool, AllocError>
    requires { (r : ReadValue) → find_read_of cell seat.old.reads ≡ Some r → r.word < 18446744073709551615 }
    ensures { IfOk result (λ b. (h : List WordsEntry) → Acts cells.old seat.old h (Take cell value) b cells.new seat.new h) }
{
    match seat.phase {
        Phase::Reading => {}
        Phase::Taking => {
            if !all_below(cell, &seat.held) {
                return Ok(false);
            }
        }
        _ => return Ok(false),
    }
    let Some(read) = find_read(cell, &seat.reads) else {
        return Ok(false);
    };
    if cell >= cells.len() {
        return Ok(false);
    }
    seat.looked = Some((cell, cells[cell].lock));
    if cells[cell].lock == read.word {
        seat.held.insert(
            0,
            Held {
                cell,
                word: read.word,
                value,
                stored: false,
            },
        )?;
        seat.locked.insert(0, cell)?;
        cells[cell].lock = read.word + 1;
        seat.phase = Phase::Taking;
    } else {
        seat.phase = if seat.held.is_empty() {
            Phase::Idle
        } else {
            Phase::Failing
        };
        seat.conflicted = true;
    }
    Ok(true)
}

/// Draws a number: a new Open entry, with the run's reads and writes.
pub fn draw(
    alloc: Global,
    cells: &[Cell],
    seat: &mut Seat,
    history: &mut Vec<Entry>,
) -> Result<bool, AllocError>
    ensures { IfOk result (λ b. Acts cells.now seat.old history.old.items Draw b cells.now seat.new history.new.items) }
{
    let Phase::Taking = seat.phase else {
        return Ok(false);
    };
    let entry = history.len();
    let reads = read_pairs(alloc, &seat.reads)?;
    let writes = write_pairs(alloc, &seat.held)?;
    history.push(Entry {
        status: Status::Open,
        reads,
        writes,
    })?;
    seat.phase = Phase::Checking { entry, upto: 0 };
    Ok(true)
}

/// The look of the check, at the smallest cell that is due. Where rv + 1 = wv no cell is.
pub fn check(cells: &[Cell], seat: &mut Seat, cell: usize) -> bool
    ensures { (h : List WordsEntry) → Acts cells.now seat.old h (Check cell) result cells.now seat.new h }
{
    match seat.phase {
        Phase::Checking { entry, upto } => {
            if seat.rv == entry as u64
                || is_held(cell, &seat.held)
                || cell < upto
                || !settled_below(cell, &seat.held, upto, &seat.reads)
            {
                return false;
            }
            if find_read(cell, &seat.reads).is_none() || cell >= cells.len() {
                return false;
            }
            let word = cells[cell].lock;
            seat.looked = Some((cell, word));
            if passes(word, seat.rv) {
                seat.phase = Phase::Checking {
                    entry,
                    upto: cell + 1,
                };
            } else {
                seat.phase = Phase::Voiding { entry };
                seat.conflicted = true;
            }
            true
        }
        _ => false,
    }
}

/// The store of a value word; the first one makes the entry Done.
pub fn store(
    alloc: Global,
    cells: &mut [Cell],
    seat: &mut Seat,
    history: &mut [Entry],
    cell: usize,
) -> Result<bool, AllocError>
    ensures { IfOk result (λ b. Acts cells.old seat.old history.old (Store cell) b cells.new seat.new history.new) }
{
    let entry = match seat.phase {
        Phase::Checking { entry, upto } => {
            // Where rv + 1 = wv nobody drew a number in between, so nothing is to be checked.
            if seat.rv != entry as u64 && !all_settled(&seat.held, upto, &seat.reads) {
                return Ok(false);
            }
            entry
        }
        Phase::Storing { entry } => entry,
        _ => return Ok(false),
    };
    let Some(held) = find_held(cell, &seat.held) else {
        return Ok(false);
    };
    if cell >= cells.len() {
        return Ok(false);
    }
    seat.held = stored(alloc, cell, &seat.held)?;
    seat.phase = Phase::Storing { entry };
    cells[cell].value = held.value;
    settle(history, entry, Status::Done);
    Ok(true)
}

/// Sets the lock word of a cell that the seat holds; the run is over where it holds nothing more.
fn give_back(
    alloc: Global,
    cells: &mut [Cell],
    seat: &mut Seat,
    cell: usize,
    word: u64,
) -> Result<(), AllocError>
    requires { cell < length cells.old }
    ensures { IfOk result (λ _. (h g : List WordsEntry) → length g ≡ length h
        → Releases cells.old seat.old h cell word cells.new seat.new g) }
{
    cells[cell].lock = word;
    seat.held = without(alloc, cell, &seat.held)?;
    if seat.held.is_empty() {
        seat.phase = Phase::Idle;
    }
    Ok(())
}

/// The store of a lock word: of the new version after the cell's store, and of the old word after a conflict.
pub fn release(
    alloc: Global,
    cells: &mut [Cell],
    seat: &mut Seat,
    history: &mut [Entry],
    cell: usize,
) -> Result<bool, AllocError>
    requires { (entry : ℕ) → seat.old.phase ≡ Phase.Storing entry → entry < 4611686018427387904 }
    ensures { IfOk result (λ b. Acts cells.old seat.old history.old (Release cell) b cells.new seat.new history.new) }
{
    let Some(held) = find_held(cell, &seat.held) else {
        return Ok(false);
    };
    if cell >= cells.len() {
        return Ok(false);
    }
    match seat.phase {
        Phase::Storing { entry } => {
            if !held.stored {
                return Ok(false);
            }
            give_back(alloc, cells, seat, cell, 2 * (entry as u64 + 1))?;
            Ok(true)
        }
        Phase::Failing => {
            give_back(alloc, cells, seat, cell, held.word)?;
            Ok(true)
        }
        Phase::Voiding { entry } => {
            give_back(alloc, cells, seat, cell, held.word)?;
            settle(history, entry, Status::Void);
            Ok(true)
        }
        _ => Ok(false),
    }
}
