//! Gives an assertion another label.

ghost use Rattle.std.specs.Prelude.{◌≡◌, ◌≢◌, ◌<◌, [], length, true, IfOk, IfErr};
ghost use Rattle.library.specs.declared.command.Command.TheVariants as command;
ghost use Rattle.cells.specs.Sight.{IsCaused, Onward, TakesAtMost};
ghost use Rattle.bodystore.specs.Bodies.{label_body};
ghost use Rattle.cells.specs.Answers.{CommandAnswers, WritesSome};
ghost use Rattle.newlabels.specs.Changes.{RenamesAt};
ghost use Rattle.groundwork.specs.Takes.{TakesBodies};
ghost use Rattle.groundwork.specs.Touches.{KeepsTo};
ghost use Rattle.newlabels.specs.Changes.{RenamesWithin};
ghost use Rattle.groundwork.specs.Footprints.{ReadsFor, ReadsForFound};

use crate::naming::test_new_label;
use bodystore::encode_label;
use cells::{Cells, CommandError, Halt, name_cell, put_body};
use chains::{put_in, take_out};
use groundwork::known_slot;
use library::Reply;
use mmsyntax::{Label, Prelude};
use std::alloc::Global;

/// Gives the assertion with the label `old` the label `new`. It reads the chain of the one and at most three for the other, and writes the
/// name of the slot and at most four cells of chains: no proof, since proofs cite slots.
///
/// # Errors
///
/// It is refused: nothing was kept aside or staged. The run halts.
pub fn rename<C: Cells>(
    alloc: Global,
    prelude: &Prelude,
    cells: &mut C,
    old: &Label,
    new: &Label,
) -> Result<Reply, CommandError>
    requires may { ((C.sight cells.old).may_write ≡ true) × ((C.sight cells.old).may_stage ≡ true) }
    requires prelude { prelude.now ≡ (C.sight cells.old).setting.prelude }
    ensures onward { Onward (C.sight cells.old) (C.sight cells.new) }
    ensures answers { CommandAnswers (C.sight cells.old) (C.sight cells.new) (command.Rename old.now new.now) result }
    ensures taken { TakesBodies (command.Rename old.now new.now) (C.sight cells.old) (C.sight cells.new) }
    ensures keeps { IfOk result (λ _. KeepsTo (C.sight cells.old) (C.sight cells.new) (command.Rename old.now new.now)) }
    ensures reads { ReadsFor (C.sight cells.old) (C.sight cells.new) (command.Rename old.now new.now) }
{
    let slot = known_slot(cells, old)?;
    test_new_label(prelude, cells, old.as_slice(), new.as_slice())?;
    let body = encode_label(alloc, new.as_slice())?;
    relabel(cells, slot, old, new, body.as_slice())?;
    Ok(Reply::Done)
}

/// Stages the body of another label of the slot, has the slot's name cell name it, and takes the slot from the one chain into the other.
fn relabel<C: Cells>(
    cells: &mut C,
    slot: usize,
    old: &Label,
    new: &Label,
    body: &[u64],
) -> Result<(), Halt>
    requires may { ((C.sight cells.old).may_write ≡ true) × ((C.sight cells.old).may_stage ≡ true) }
    requires slot { slot < (C.sight cells.old).setting.slots }
    requires body { body.now ≡ label_body new.now }
    requires some { new.now ≢ [] }
    ensures onward { Onward (C.sight cells.old) (C.sight cells.new) }
    ensures written { IfOk result (λ _. WritesSome (C.sight cells.new)) }
    ensures ok { IfOk result (λ _. RenamesAt (C.sight cells.old) (C.sight cells.new) slot old.now new.now) }
    ensures halts { IfErr result (IsCaused (C.sight cells.new)) }
    ensures taken { TakesAtMost (length body.now) (C.sight cells.old) (C.sight cells.new) }
    ensures keeps { IfOk result (λ _. RenamesWithin (C.sight cells.old) (C.sight cells.new) slot new.now) }
    ensures reads { ReadsForFound (C.sight cells.old) (C.sight cells.new) slot old.now (command.Rename old.now new.now) }
{
    put_body(cells, name_cell(slot), body)?;
    take_out(cells, slot, old.as_slice())?;
    put_in(cells, slot, new.as_slice())
}
