//! Puts slots into the chains of label buckets, and takes them out.

ghost use Rattle.std.specs.Prelude.{◌≡◌, ◌<◌, true, IfOk, IfErr};
ghost use Rattle.cells.specs.Sight.{Sight, IsCaused, Onward, TakesAtMost, ReadsWithin};
ghost use Rattle.cells.specs.Footprints.{ReadsWhere, IsOfTakingOut};
ghost use Rattle.cells.specs.Aside.{KeepsAside, IsOfFront};
ghost use Rattle.chains.specs.Chains.{PutsIn, TakesOut, GoesToFront, KeepsLeaving};

use cells::{Cells, Halt, bucket, bucket_cell, link, next_cell, slot_count};

/// Puts a slot that is in no chain at the front of the chain of a label's bucket.
///
/// # Errors
///
/// The run halts.
pub fn put_in<C: Cells>(cells: &mut C, slot: usize, label: &[u8]) -> Result<(), Halt>
    requires may { (C.sight cells.old).may_write ≡ true }
    requires slot { slot < (C.sight cells.old).setting.slots }
    ensures onward { Onward (C.sight cells.old) (C.sight cells.new) }
    ensures ok { IfOk result (λ _. PutsIn slot label.now (C.sight cells.old) (C.sight cells.new)) }
    ensures halts { IfErr result (IsCaused (C.sight cells.new)) }
    ensures taken { TakesAtMost 0 (C.sight cells.old) (C.sight cells.new) }
    ensures front { IfOk result (λ _. GoesToFront slot label.now (C.sight cells.old) (C.sight cells.new)) }
    ensures keeps { IfOk result (λ _. KeepsAside (IsOfFront (C.sight cells.old).setting.slots slot label.now) (C.sight cells.old)
        (C.sight cells.new)) }
    ensures reads { ReadsWithin (IsOfFront (C.sight cells.old).setting.slots slot label.now) (C.sight cells.old) (C.sight cells.new) }
{
    let slots = slot_count(cells);
    let front = bucket_cell(slots, bucket(label, slots));
    let first = cells.read(front)?;
    cells.read(next_cell(slots, slot))?;
    cells.write(next_cell(slots, slot), first);
    cells.write(front, slot as u64 + 1);
    Ok(())
}

/// Takes a slot out of the chain of its label's bucket.
///
/// # Errors
///
/// The run halts.
pub fn take_out<C: Cells>(cells: &mut C, slot: usize, label: &[u8]) -> Result<(), Halt>
    requires may { (C.sight cells.old).may_write ≡ true }
    requires slot { slot < (C.sight cells.old).setting.slots }
    ensures onward { Onward (C.sight cells.old) (C.sight cells.new) }
    ensures ok { IfOk result (λ _. TakesOut slot label.now (C.sight cells.old) (C.sight cells.new)) }
    ensures halts { IfErr result (IsCaused (C.sight cells.new)) }
    ensures taken { TakesAtMost 0 (C.sight cells.old) (C.sight cells.new) }
    ensures keeps { IfOk result (λ _. KeepsLeaving slot (C.sight cells.old) (C.sight cells.new)) }
    ensures reads { ReadsWhere (IsOfTakingOut (C.sight cells.old).setting.slots slot label.now) (C.sight cells.old) (C.sight cells.new) }
{
    let slots = slot_count(cells);
    let next = cells.read(next_cell(slots, slot))?;
    let mut before = bucket_cell(slots, bucket(label, slots));
    for _ in 0..slots {
        let word = cells.read(before)?;
        let Some(member) = link(word, slots) else {
            return Ok(());
        };
        if member == slot {
            cells.write(before, next);
            cells.write(next_cell(slots, slot), 0);
            return Ok(());
        }
        before = next_cell(slots, member);
    }
    Ok(())
}
