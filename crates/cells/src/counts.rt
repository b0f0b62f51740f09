//! Counts the citers of the assertions that a proof cites.

ghost use Rattle.std.specs.Prelude.{◌≡◌, ◌<◌, true, All, IfOk, IfErr};
ghost use Rattle.cells.specs.Sight.{Sight, IsCaused, Onward, TakesAtMost, ReadsWithin};
ghost use Rattle.cells.specs.Counts.{CountsAnyIn, CountsAnyOut, AreOnlyIn};
ghost use Rattle.std.specs.List.Sorted.{IsStrictlyIncreasing};
ghost use Rattle.cells.specs.Aside.{KeepsAside, IsCitersOf};

use crate::cells::Cells;
use crate::halt::Halt;
use crate::places::{citers_cell, slot_count};
use std::alloc::{AllocError, Global};

/// Those of these slots that aren't among the others, in their order. Both are listed ascending.
///
/// # Errors
///
/// Want of memory.
pub fn only_in(alloc: Global, slots: &[usize], others: &[usize]) -> Result<Vec<usize>, AllocError>
    requires slots { IsStrictlyIncreasing slots.now }
    requires others { IsStrictlyIncreasing others.now }
    ensures { IfOk result (λ made. AreOnlyIn slots.now others.now made.items) }
{
    let mut only = Vec::new(alloc);
    for slot in slots {
        if others.binary_search(slot).is_err() {
            only.push(*slot)?;
        }
    }
    Ok(only)
}

/// Counts one citer more for each of these slots.
///
/// # Errors
///
/// The run halts.
pub fn count_in<C: Cells>(cells: &mut C, cited: &[usize]) -> Result<(), Halt>
    requires may { (C.sight cells.old).may_write ≡ true }
    requires slots { All (λ i. i < (C.sight cells.old).setting.slots) cited.now }
    ensures onward { Onward (C.sight cells.old) (C.sight cells.new) }
    ensures ok { IfOk result (λ _. CountsAnyIn cited.now (C.sight cells.old) (C.sight cells.new)) }
    ensures halts { IfErr result (IsCaused (C.sight cells.new)) }
    ensures taken { TakesAtMost 0 (C.sight cells.old) (C.sight cells.new) }
    ensures keeps { IfOk result (λ _. KeepsAside (IsCitersOf cited.now) (C.sight cells.old) (C.sight cells.new)) }
    ensures reads { ReadsWithin (IsCitersOf cited.now) (C.sight cells.old) (C.sight cells.new) }
{
    for slot in cited {
        let count = cells.read(citers_cell(*slot))?;
        cells.write(citers_cell(*slot), count.saturating_add(1));
    }
    Ok(())
}

/// Counts one citer less for each of these slots. What is no slot is passed over.
///
/// # Errors
///
/// The run halts.
pub fn count_out<C: Cells>(cells: &mut C, cited: &[usize]) -> Result<(), Halt>
    requires { (C.sight cells.old).may_write ≡ true }
    ensures onward { Onward (C.sight cells.old) (C.sight cells.new) }
    ensures ok { IfOk result (λ _. CountsAnyOut cited.now (C.sight cells.old) (C.sight cells.new)) }
    ensures halts { IfErr result (IsCaused (C.sight cells.new)) }
    ensures taken { TakesAtMost 0 (C.sight cells.old) (C.sight cells.new) }
    ensures keeps { IfOk result (λ _. KeepsAside (IsCitersOf cited.now) (C.sight cells.old) (C.sight cells.new)) }
    ensures reads { ReadsWithin (IsCitersOf cited.now) (C.sight cells.old) (C.sight cells.new) }
{
    let slots = slot_count(cells);
    for slot in cited {
        if *slot < slots {
            let count = cells.read(citers_cell(*slot))?;
            cells.write(citers_cell(*slot), count.saturating_sub(1));
        }
    }
    Ok(())
}
