//! Adds a theorem.

ghost use Rattle.std.specs.Prelude.{◌≡◌, true, IfOk};
ghost use Rattle.library.specs.declared.command.Command.TheVariants as command;
ghost use Rattle.library.specs.Fitting.{CommandFits};
ghost use Rattle.cells.specs.Sight.{Onward};
ghost use Rattle.cells.specs.Answers.{CommandAnswers};
ghost use Rattle.groundwork.specs.Takes.{TakesBodies};
ghost use Rattle.groundwork.specs.Touches.{KeepsTo};
ghost use Rattle.groundwork.specs.Footprints.{ReadsFor};

use crate::naming::test_new_label;
use cells::{Cells, CommandError, bucket, free_slot, slot_count};
use chains::fill;
use groundwork::test_proof;
use library::{Reason, Reply};
use mmsyntax::{Assertion, Kind, Prelude};
use std::alloc::Global;

/// Adds a theorem with a rank, in the first empty slot from the number of its label's bucket on. It reads at most three chains for its
/// label, what its proof cites, and the names of the slots up to the empty one. It stages its label, its statement and its proof, in this
/// order.
///
/// # Errors
///
/// It is refused: nothing was kept aside or staged. The run halts.
pub fn add<C: Cells>(
    alloc: Global,
    prelude: &Prelude,
    cells: &mut C,
    rank: u32,
    assertion: &Assertion,
) -> Result<Reply, CommandError>
    requires may { ((C.sight cells.old).may_write ≡ true) × ((C.sight cells.old).may_stage ≡ true) }
    requires prelude { prelude.now ≡ (C.sight cells.old).setting.prelude }
    requires fits { CommandFits prelude.now (command.Add rank assertion.now) }
    ensures onward { Onward (C.sight cells.old) (C.sight cells.new) }
    ensures answers { CommandAnswers (C.sight cells.old) (C.sight cells.new) (command.Add rank assertion.now) result }
    ensures taken { TakesBodies (command.Add rank assertion.now) (C.sight cells.old) (C.sight cells.new) }
    ensures keeps { IfOk result (λ _. KeepsTo (C.sight cells.old) (C.sight cells.new) (command.Add rank assertion.now)) }
    ensures reads { ReadsFor (C.sight cells.old) (C.sight cells.new) (command.Add rank assertion.now) }
{
    let label = assertion.label.as_slice();
    if rank == 0 {
        return Err(Reason::BadRank.into());
    }
    test_new_label(prelude, cells, label, label)?;
    if let Kind::Axiom = assertion.kind {
        return Err(Reason::AxiomNotAllowed.into());
    }
    let kept = test_proof(alloc, prelude, cells, rank, assertion)?;
    let from = bucket(label, slot_count(cells));
    let Some(slot) = free_slot(cells, from)? else {
        return Err(Reason::LibraryFull.into());
    };
    fill(alloc, cells, slot, rank, assertion, kept.as_slice())?;
    Ok(Reply::Done)
}
