//! Tests on lock words, on the read set and on the cells that are held.
#![tactic(auto)]

ghost use Rattle.std.specs.Prelude.{◌≡◌, IfOk};
ghost use Rattle.tlcore.specs.Seats.{passes as passes_of, find_read as find_read_of, reads_of};
ghost use Rattle.tlcore.specs.Seats.{find_held as find_held_of, is_held as is_held_of, all_below as all_below_of, without as without_of, with_stored, writes_of};
ghost use Rattle.tlcore.specs.Seats.{all_settled as all_settled_of, settled_below as settled_below_of};

use crate::seats::{Held, Read};
use std::alloc::{AllocError, Global};

/// Whether a look at the lock word passes: it is free, and of version at most rv.
pub fn passes(word: u64, rv: u64) -> bool
    ensures { result ≡ passes_of word rv }
{
    word % 2 == 0 && word / 2 <= rv
}

/// The newest read of a cell.
pub fn find_read(cell: usize, reads: &[Read]) -> Option<Read>
    ensures { result ≡ find_read_of cell reads.now }
{
    reads.iter().copied().find(|r| r.cell == cell)
}

/// The cell among those held.
pub fn find_held(cell: usize, held: &[Held]) -> Option<Held>
    ensures { result ≡ find_held_of cell held.now }
{
    held.iter().copied().find(|k| k.cell == cell)
}

/// Whether the cell is held.
pub fn is_held(cell: usize, held: &[Held]) -> bool
    ensures { result ≡ is_held_of cell held.now }
{
    held.iter().any(|k| k.cell == cell)
}

/// Whether each cell held is below this one.
pub fn all_below(cell: usize, held: &[Held]) -> bool
    ensures { result ≡ all_below_of cell held.now }
{
    held.iter().all(|k| k.cell < cell)
}

/// Whether each cell that was read is held or below `upto`.
pub fn all_settled(held: &[Held], upto: usize, reads: &[Read]) -> bool
    ensures { result ≡ all_settled_of held.now upto reads.now }
{
    reads.iter().all(|r| is_held(r.cell, held) || r.cell < upto)
}

/// Whether each cell below `bound` that was read is held or below `upto`.
pub fn settled_below(bound: usize, held: &[Held], upto: usize, reads: &[Read]) -> bool
    ensures { result ≡ settled_below_of bound held.now upto reads.now }
{
    reads.iter().all(|r| bound <= r.cell || (is_held(r.cell, held) || r.cell < upto))
}

/// What is held but the cell.
pub fn without(alloc: Global, cell: usize, held: &[Held]) -> Result<Vec<Held>, AllocError>
    ensures { IfOk result (λ v. v.items ≡ without_of cell held.now) }
{
    held.iter()
        .filter(|k| k.cell != cell)
        .copied()
        .collect(alloc)
}

/// What is held, the cell's value being stored.
pub fn stored(alloc: Global, cell: usize, held: &[Held]) -> Result<Vec<Held>, AllocError>
    ensures { IfOk result (λ v. v.items ≡ with_stored cell held.now) }
{
    held.iter()
        .map(|k| if k.cell == cell {
            Held { stored: true, ..*k }
        } else {
            *k
        })
        .collect(alloc)
}

/// The reads as cells and values.
pub fn read_pairs(alloc: Global, reads: &[Read]) -> Result<Vec<(usize, u64)>, AllocError>
    ensures { IfOk result (λ v. v.items ≡ reads_of reads.now) }
{
    reads.iter().map(|r| (r.cell, r.value)).collect(alloc)
}

/// The cells held, with the values to be stored.
pub fn write_pairs(alloc: Global, held: &[Held]) -> Result<Vec<(usize, u64)>, AllocError>
    ensures { IfOk result (λ v. v.items ≡ writes_of held.now) }
{
    held.iter().map(|k| (k.cell, k.value)).collect(alloc)
}
