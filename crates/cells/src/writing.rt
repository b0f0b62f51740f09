//! Writes cells: values, and the ranges of bodies.

ghost use Rattle.std.specs.Prelude.{◌≡◌, ◌≢◌, ◌<◌, [], length, true, false, IfOk, IfErr};
ghost use Rattle.cells.specs.State.{State, HasBody, with_value};
ghost use Rattle.cells.specs.Slots.{cell_count, is_ranged};
ghost use Rattle.cells.specs.Sight.{Sight, WasWritten, ForEachState, KeepsOthers, IsCaused, Onward, TakesAtMost, ReadsWithin, after};
ghost use Rattle.cells.specs.Aside.{KeepsAside};

use crate::cells::Cells;
use crate::halt::Halt;

/// Reads a cell and writes a value to it.
pub fn put<C: Cells>(cells: &mut C, cell: usize, value: u64) -> Result<(), Halt>
    requires may { (C.sight cells.old).may_write ≡ true }
    requires cell { cell < cell_count (C.sight cells.old).setting.slots }
    requires plain { is_ranged (C.sight cells.old).setting.slots cell ≡ false }
    ensures onward { Onward (C.sight cells.old) (C.sight cells.new) }
    ensures ok { IfOk result (λ _. (st : State) → after (C.sight cells.new) st ≡ with_value cell value (after (C.sight cells.old) st)) }
    ensures halts { IfErr result (IsCaused (C.sight cells.new)) }
    ensures written { IfOk result (λ _. WasWritten (C.sight cells.new) cell) }
    ensures taken { TakesAtMost 0 (C.sight cells.old) (C.sight cells.new) }
    ensures keeps { IfOk result (λ _. KeepsAside (λ c. c ≡ cell) (C.sight cells.old) (C.sight cells.new)) }
    ensures reads { ReadsWithin (λ c. c ≡ cell) (C.sight cells.old) (C.sight cells.new) }
{
    cells.read(cell)?;
    cells.write(cell, value);
    Ok(())
}

/// Stages words and has a cell name their range. It takes at most these words, and none where they were staged.
pub fn put_body<C: Cells>(cells: &mut C, cell: usize, words: &[u64]) -> Result<(), Halt>
    requires may { ((C.sight cells.old).may_write ≡ true) × ((C.sight cells.old).may_stage ≡ true) }
    requires cell { cell < cell_count (C.sight cells.old).setting.slots }
    requires some { words.now ≢ [] }
    ensures onward { Onward (C.sight cells.old) (C.sight cells.new) }
    ensures ok { IfOk result (λ _. ForEachState (C.sight cells.new) (λ st. HasBody st cell words.now)) }
    ensures halts { IfErr result (IsCaused (C.sight cells.new)) }
    ensures others { IfOk result (λ _. KeepsOthers cell (C.sight cells.old) (C.sight cells.new)) }
    ensures written { IfOk result (λ _. WasWritten (C.sight cells.new) cell) }
    ensures taken { TakesAtMost (length words.now) (C.sight cells.old) (C.sight cells.new) }
    ensures keeps { IfOk result (λ _. KeepsAside (λ c. c ≡ cell) (C.sight cells.old) (C.sight cells.new)) }
    ensures reads { ReadsWithin (λ c. c ≡ cell) (C.sight cells.old) (C.sight cells.new) }
{
    let range = cells.stage(words)?;
    cells.read(cell)?;
    cells.write(cell, range.word());
    Ok(())
}
