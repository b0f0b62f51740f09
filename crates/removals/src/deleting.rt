//! Removes an assertion.

ghost use Rattle.std.specs.Prelude.{◌≡◌, ◌<◌, true, IfOk, IfErr};
ghost use Rattle.library.specs.declared.command.Command.TheVariants as command;
ghost use Rattle.cells.specs.Sight.{IsCaused, Onward, TakesAtMost};
ghost use Rattle.cells.specs.Answers.{CommandAnswers, WritesSome};
ghost use Rattle.removals.specs.Changes.{DeletesAt};
ghost use Rattle.groundwork.specs.Takes.{TakesBodies};
ghost use Rattle.groundwork.specs.Touches.{KeepsTo};
ghost use Rattle.removals.specs.Changes.{DeletesWithin};
ghost use Rattle.groundwork.specs.Footprints.{ReadsFor, ReadsForFound};

use cells::{Cells, CommandError, Halt, cited_slots, citers, count_out, stored_proof};
use chains::{take_out, vacate};
use groundwork::known_slot;
use library::{Reason, Reply};
use mmsyntax::Label;
use std::alloc::Global;

/// Removes the assertion with the label, which no proof cites. It stages nothing.
///
/// # Errors
///
/// It is refused: nothing was kept aside or staged. The run halts.
pub fn delete<C: Cells>(alloc: Global, cells: &mut C, label: &Label) -> Result<Reply, CommandError>
    requires { (C.sight cells.old).may_write ≡ true }
    ensures onward { Onward (C.sight cells.old) (C.sight cells.new) }
    ensures answers { CommandAnswers (C.sight cells.old) (C.sight cells.new) (command.Delete label.now) result }
    ensures taken { TakesBodies (command.Delete label.now) (C.sight cells.old) (C.sight cells.new) }
    ensures keeps { IfOk result (λ _. KeepsTo (C.sight cells.old) (C.sight cells.new) (command.Delete label.now)) }
    ensures reads { ReadsFor (C.sight cells.old) (C.sight cells.new) (command.Delete label.now) }
{
    let slot = known_slot(cells, label)?;
    let citers = citers(cells, slot)?;
    if citers > 0 {
        return Err(Reason::StillCited(citers).into());
    }
    remove(alloc, cells, slot, label)?;
    Ok(Reply::Done)
}

/// Counts out what the proof in the slot cites, takes the slot out of its chain, and empties it.
fn remove<C: Cells>(alloc: Global, cells: &mut C, slot: usize, label: &Label) -> Result<(), Halt>
    requires may { (C.sight cells.old).may_write ≡ true }
    requires slot { slot < (C.sight cells.old).setting.slots }
    ensures onward { Onward (C.sight cells.old) (C.sight cells.new) }
    ensures written { IfOk result (λ _. WritesSome (C.sight cells.new)) }
    ensures ok { IfOk result (λ _. DeletesAt (C.sight cells.old) (C.sight cells.new) slot label.now) }
    ensures halts { IfErr result (IsCaused (C.sight cells.new)) }
    ensures taken { TakesAtMost 0 (C.sight cells.old) (C.sight cells.new) }
    ensures keeps { IfOk result (λ _. DeletesWithin (C.sight cells.old) (C.sight cells.new) slot label.now) }
    ensures reads { ReadsForFound (C.sight cells.old) (C.sight cells.new) slot label.now (command.Delete label.now) }
{
    let former = stored_proof(alloc, cells, slot)?;
    let cited = cited_slots(alloc, former.as_slice())?;
    count_out(cells, cited.as_slice())?;
    take_out(cells, slot, label.as_slice())?;
    vacate(cells, slot)
}
