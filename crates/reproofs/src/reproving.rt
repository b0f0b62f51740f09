//! Gives a theorem another proof.

ghost use Rattle.std.specs.Prelude.{◌≡◌, ◌<◌, true, IfOk};
ghost use Rattle.library.specs.declared.command.Command.TheVariants as command;
ghost use Rattle.cells.specs.Sight.{Onward};
ghost use Rattle.cells.specs.Answers.{CommandAnswers};
ghost use Rattle.groundwork.specs.Takes.{TakesBodies};
ghost use Rattle.groundwork.specs.Touches.{KeepsTo};
ghost use Rattle.groundwork.specs.Footprints.{ReadsFor};

use cells::{Cells, CommandError, rank, statement};
use groundwork::{known_slot, put_steps, test_proof};
use library::{Reason, Reply};
use mmsyntax::{Kind, Label, Prelude, Proof};
use std::alloc::Global;

/// Gives the theorem with the label another proof, and stages it, even where it is equal to the former.
///
/// # Errors
///
/// It is refused: nothing was kept aside or staged. The run halts.
pub fn reprove<C: Cells>(
    alloc: Global,
    prelude: &Prelude,
    cells: &mut C,
    label: &Label,
    steps: &Proof,
) -> Result<Reply, CommandError>
    requires may { ((C.sight cells.old).may_write ≡ true) × ((C.sight cells.old).may_stage ≡ true) }
    requires prelude { prelude.now ≡ (C.sight cells.old).setting.prelude }
    ensures onward { Onward (C.sight cells.old) (C.sight cells.new) }
    ensures answers { CommandAnswers (C.sight cells.old) (C.sight cells.new) (command.Reprove label.now steps.now) result }
    ensures taken { TakesBodies (command.Reprove label.now steps.now) (C.sight cells.old) (C.sight cells.new) }
    ensures keeps { IfOk result (λ _. KeepsTo (C.sight cells.old) (C.sight cells.new) (command.Reprove label.now steps.now)) }
    ensures reads { ReadsFor (C.sight cells.old) (C.sight cells.new) (command.Reprove label.now steps.now) }
{
    let slot = known_slot(cells, label)?;
    let statement = statement(alloc, cells, slot)?;
    if let Kind::Axiom = statement.kind {
        return Err(Reason::NotATheorem.into());
    }
    let rank = rank(cells, slot)?;
    let proof = steps.copy(alloc)?;
    let theorem = statement.into_assertion(label.copy(alloc)?, proof);
    let kept = test_proof(alloc, prelude, cells, rank, &theorem)?;
    put_steps(alloc, cells, slot, kept.as_slice())?;
    Ok(Reply::Done)
}
