//! Looks for labels, and for empty slots.

ghost use Rattle.std.specs.Prelude.{◌≡◌, ◌<◌, IfOk, IfErr};
ghost use Rattle.cells.specs.Sight.{Sight, IsCaused, Looks, ReadsWithin};
ghost use Rattle.cells.specs.Slots.{name_cell};
ghost use Rattle.cells.specs.Footprints.{ReadsWhere, IsOfLook, IsOfRound};
ghost use Rattle.cells.specs.Lookups.{Finds, FindsFree, TellsLabel};

use crate::cells::Cells;
use crate::halt::Halt;
use crate::places::{bucket, bucket_cell, link, name_cell, next_cell, slot_count};
use crate::words::{has_words, range_of};

/// Whether the slot has the label.
pub(crate) fn has_label<C: Cells>(cells: &mut C, slot: usize, label: &[u8]) -> Result<bool, Halt>
    requires { slot < (C.sight cells.old).setting.slots }
    ensures looks { Looks (C.sight cells.old) (C.sight cells.new) }
    ensures ok { IfOk result (λ b. TellsLabel (C.sight cells.new) slot label.now b) }
    ensures halts { IfErr result (IsCaused (C.sight cells.new)) }
    ensures reads { ReadsWithin (λ c. c ≡ name_cell slot) (C.sight cells.old) (C.sight cells.new) }
{
    let word = cells.read(name_cell(slot))?;
    if word == 0 || label.is_empty() {
        return Ok(false);
    }
    let range = range_of(cells, word);
    Ok(has_words(cells, range, label))
}

/// The slot of the assertion that has the label, or none where no assertion has it.
///
/// It reads the cell of the label's bucket, and along its chain a name and a next cell for each member: of a member that has another
/// length, no word of its label.
///
/// # Errors
///
/// The run halts. What was kept aside stays.
pub fn find<C: Cells>(cells: &mut C, label: &[u8]) -> Result<Option<usize>, Halt>
    ensures looks { Looks (C.sight cells.old) (C.sight cells.new) }
    ensures ok { IfOk result (λ slot. Finds (C.sight cells.new) label.now slot) }
    ensures halts { IfErr result (IsCaused (C.sight cells.new)) }
    ensures reads { ReadsWhere (IsOfLook (C.sight cells.old).setting.slots label.now) (C.sight cells.old) (C.sight cells.new) }
{
    let slots = slot_count(cells);
    let mut word = cells.read(bucket_cell(slots, bucket(label, slots)))?;
    for _ in 0..slots {
        let Some(slot) = link(word, slots) else {
            return Ok(None);
        };
        if has_label(cells, slot, label)? {
            return Ok(Some(slot));
        }
        word = cells.read(next_cell(slots, slot))?;
    }
    Ok(None)
}

/// The first empty slot from a slot on, going round; or none where the library has as many assertions as slots.
///
/// It reads the name cells of the slots up to the empty one.
///
/// # Errors
///
/// The run halts. What was kept aside stays.
pub fn free_slot<C: Cells>(cells: &mut C, from: usize) -> Result<Option<usize>, Halt>
    requires { from < (C.sight cells.old).setting.slots }
    ensures looks { Looks (C.sight cells.old) (C.sight cells.new) }
    ensures ok { IfOk result (λ slot. FindsFree (C.sight cells.new) from slot) }
    ensures halts { IfErr result (IsCaused (C.sight cells.new)) }
    ensures reads { ReadsWhere (IsOfRound (C.sight cells.old).setting.slots from) (C.sight cells.old) (C.sight cells.new) }
{
    let slots = slot_count(cells);
    for steps in 0..slots {
        let slot = (from + steps) % slots;
        if cells.read(name_cell(slot))? == 0 {
            return Ok(Some(slot));
        }
    }
    Ok(None)
}
