//! Has the proof of a theorem cite one assertion in place of another.

ghost use Rattle.std.specs.Prelude.{◌≡◌, ◌<◌, ◌⊎◌, true, IfOk, IfErr, map};
ghost use Rattle.library.specs.declared.command.Command.TheVariants as command;
ghost use Rattle.cells.specs.Sight.{IsCaused, Onward, Looks, ReadsWithin};
ghost use Rattle.cells.specs.Answers.{CommandAnswers};
ghost use Rattle.cells.specs.Slots.{statement_cell, rank_cell};
ghost use Rattle.groundwork.specs.Touches.{KeepsTo};
ghost use Rattle.groundwork.specs.Footprints.{ReadsFor};
ghost use Rattle.replacements.specs.Replacing.{TellsAlike, TellsNotLower, recited_step};
ghost use Rattle.groundwork.specs.Takes.{TakesBodies};

use bodystore::StoredStep;
use cells::{Cells, CommandError, Halt, frame, rank, slot_count, stored_proof};
use groundwork::{known_slot, put_steps};
use library::{Reason, Reply, is_alike};
use mmsyntax::{Label, Prelude};
use std::alloc::Global;

/// In the proof of the theorem with the label, has each citation of the assertion `old` cite the assertion `new`, and stages the proof,
/// even where it is equal to the former. It reads what a citation sees of the two, and checks no proof: `new` says the same, and so the
/// theorem is derived as before.
///
/// # Errors
///
/// It is refused: nothing was kept aside or staged. The run halts.
pub fn replace<C: Cells>(
    alloc: Global,
    prelude: &Prelude,
    cells: &mut C,
    label: &Label,
    old: &Label,
    new: &Label,
) -> Result<Reply, CommandError>
    requires may { ((C.sight cells.old).may_write ≡ true) × ((C.sight cells.old).may_stage ≡ true) }
    requires prelude { prelude.now ≡ (C.sight cells.old).setting.prelude }
    ensures onward { Onward (C.sight cells.old) (C.sight cells.new) }
    ensures answers { CommandAnswers (C.sight cells.old) (C.sight cells.new) (command.Replace label.now old.now new.now) result }
    ensures taken { TakesBodies (command.Replace label.now old.now new.now) (C.sight cells.old) (C.sight cells.new) }
    ensures keeps { IfOk result (λ _. KeepsTo (C.sight cells.old) (C.sight cells.new) (command.Replace label.now old.now new.now)) }
    ensures reads { ReadsFor (C.sight cells.old) (C.sight cells.new) (command.Replace label.now old.now new.now) }
{
    let slot = known_slot(cells, label)?;
    let former = known_slot(cells, old)?;
    let next = known_slot(cells, new)?;
    let mut kept = stored_proof(alloc, cells, slot)?;
    // A theorem has a step, and an axiom has none.
    if kept.is_empty() {
        return Err(Reason::NotATheorem.into());
    }
    if !are_alike(alloc, prelude, cells, former, next)? {
        return Err(Reason::NotAlike.into());
    }
    if is_not_lower(cells, slot, next)? {
        return Err(Reason::CitedNotLower.into());
    }
    recite(
        kept.as_mut_slice(),
        slot_count(cells),
        former as u32,
        next as u32,
    );
    put_steps(alloc, cells, slot, kept.as_slice())?;
    Ok(Reply::Done)
}

/// Whether the assertion in the slot `new` may stand where the one in the slot `old` is cited.
fn are_alike<C: Cells>(
    alloc: Global,
    prelude: &Prelude,
    cells: &mut C,
    old: usize,
    new: usize,
) -> Result<bool, Halt>
    requires old { old < (C.sight cells.old).setting.slots }
    requires new { new < (C.sight cells.old).setting.slots }
    ensures looks { Looks (C.sight cells.old) (C.sight cells.new) }
    ensures ok { IfOk result (λ b. TellsAlike (C.sight cells.new) prelude.now old new b) }
    ensures halts { IfErr result (IsCaused (C.sight cells.new)) }
    ensures reads { ReadsWithin (λ c. (c ≡ statement_cell old) ⊎ (c ≡ statement_cell new)) (C.sight cells.old) (C.sight cells.new) }
{
    let former = frame(alloc, prelude, cells, old)?;
    let next = frame(alloc, prelude, cells, new)?;
    Ok(is_alike(&former, &next))
}

/// Whether the assertion in the slot `cited` isn't of a lower rank than the one in the slot `citing`.
fn is_not_lower<C: Cells>(cells: &mut C, citing: usize, cited: usize) -> Result<bool, Halt>
    requires citing { citing < (C.sight cells.old).setting.slots }
    requires cited { cited < (C.sight cells.old).setting.slots }
    ensures looks { Looks (C.sight cells.old) (C.sight cells.new) }
    ensures ok { IfOk result (λ b. TellsNotLower (C.sight cells.new) citing cited b) }
    ensures halts { IfErr result (IsCaused (C.sight cells.new)) }
    ensures reads { ReadsWithin (λ c. (c ≡ rank_cell citing) ⊎ (c ≡ rank_cell cited)) (C.sight cells.old) (C.sight cells.new) }
{
    let limit = rank(cells, citing)?;
    Ok(limit <= rank(cells, cited)?)
}

/// Has each step that cites the slot `old` cite the slot `new`.
fn recite(steps: &mut [StoredStep], slots: usize, old: u32, new: u32)
    ensures { steps.new ≡ map (recited_step slots old new) steps.old }
{
    for i in 0..steps.len() {
        steps[i] = recited(steps[i], slots, old, new);
    }
}

/// The step, which cites the slot `new` where it cited `old`, or what is no slot, as no proof of a library does.
fn recited(step: StoredStep, slots: usize, old: u32, new: u32) -> StoredStep
    ensures { result ≡ recited_step slots old new step }
{
    match step {
        StoredStep::Slot(slot) if slot == old || slots <= slot as usize => StoredStep::Slot(new),
        StoredStep::Float(_) | StoredStep::Hyp(_) | StoredStep::Slot(_) => step,
    }
}
