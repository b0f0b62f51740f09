//! Reads labels back from slots.

ghost use Rattle.std.specs.Prelude.{◌≡◌, ◌<◌, IfOk, IfErr};
ghost use Rattle.cells.specs.Sight.{IsCaused, Looks, ReadsWithin};
ghost use Rattle.cells.specs.Slots.{name_cell};
ghost use Rattle.cells.specs.Lookups.{TellsLabelOf, IsNameAt};

use crate::cells::Cells;
use crate::halt::Halt;
use crate::places::name_cell;
use crate::words::words_of;
use bodystore::decode_label;
use mmsyntax::Label;
use std::alloc::Global;

/// The label of the assertion in the slot; none where it is empty.
///
/// # Errors
///
/// The run halts, here and below.
pub fn label<C: Cells>(alloc: Global, cells: &mut C, slot: usize) -> Result<Option<Label>, Halt>
    requires { slot < (C.sight cells.old).setting.slots }
    ensures looks { Looks (C.sight cells.old) (C.sight cells.new) }
    ensures ok { IfOk result (λ made. TellsLabelOf (C.sight cells.new) slot made) }
    ensures halts { IfErr result (IsCaused (C.sight cells.new)) }
    ensures reads { ReadsWithin (λ c. c ≡ name_cell slot) (C.sight cells.old) (C.sight cells.new) }
{
    let words = words_of(alloc, cells, name_cell(slot))?;
    if words.is_empty() {
        return Ok(None);
    }
    Ok(Some(decode_label(alloc, words.as_slice())?))
}

/// The label that the slot's name cell names, if it names one.
pub(crate) fn name_of<C: Cells>(alloc: Global, cells: &mut C, slot: usize) -> Result<Label, Halt>
    requires { slot < (C.sight cells.old).setting.slots }
    ensures looks { Looks (C.sight cells.old) (C.sight cells.new) }
    ensures ok { IfOk result (λ made. IsNameAt (C.sight cells.new) slot made) }
    ensures halts { IfErr result (IsCaused (C.sight cells.new)) }
    ensures reads { ReadsWithin (λ c. c ≡ name_cell slot) (C.sight cells.old) (C.sight cells.new) }
{
    let words = words_of(alloc, cells, name_cell(slot))?;
    Ok(decode_label(alloc, words.as_slice())?)
}
