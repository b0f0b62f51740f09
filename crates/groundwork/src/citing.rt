//! What a proof cites: whether that is below a rank, its frames, and what is wrong with the proof.

ghost use Rattle.std.specs.Prelude.{◌≡◌, ◌<◌, IfOk, IfErr, OnOk};
ghost use Rattle.mmsyntax.specs.declared.statement.Kind.TheVariants.{Theorem};
ghost use Rattle.cells.specs.Sight.{IsCaused, Looks, ReadsWithin};
ghost use Rattle.cells.specs.Slots.{statement_cell};
ghost use Rattle.cells.specs.Lookups.{AreWithin};
ghost use Rattle.groundwork.specs.Footprints.{IsRankOfSteps, IsStatementOfSteps, TestReads};
ghost use Rattle.groundwork.specs.Citing.{TellsNotBelow, TellsFrames, NotesFrame, Passes, TellsRefusal, frames_in};

use bodystore::StoredStep;
use cells::{Cells, CommandError, Halt, cited_slots, frame, rank, resolve, slot_count};
use derivation::ProofFaultKind;
use library::Reason;
use mmsyntax::{Assertion, Frame, Label, Prelude, Proof, StepRef};
use std::alloc::{AllocError, Global};
use std::collections::BTreeMap;
use stepcheck::{Frames, check};

/// Tests the proof of a theorem of a rank, and answers its steps as they are stored.
///
/// # Errors
///
/// In this order: a step cites a label that no assertion has, or one that isn't below the rank; the first fault of the proof. The run is
/// stopped, or memory ran out.
pub fn test_proof<C: Cells>(
    alloc: Global,
    prelude: &Prelude,
    cells: &mut C,
    rank: u32,
    theorem: &Assertion,
) -> Result<Vec<StoredStep>, CommandError>
    requires prelude { prelude.now ≡ (C.sight cells.old).setting.prelude }
    requires theorem { theorem.now.kind ≡ Theorem }
    ensures looks { Looks (C.sight cells.old) (C.sight cells.new) }
    ensures ok { IfOk result (λ kept. Passes (C.sight cells.new) rank theorem.now kept.items) }
    ensures err { IfErr result (λ error. TellsRefusal (C.sight cells.new) rank theorem.now error) }
    ensures reads { TestReads (C.sight cells.old) (C.sight cells.new) theorem.now.proof }
{
    let Some(kept) = resolve(alloc, cells, &theorem.proof)? else {
        return Err(Reason::CitesUnknown.into());
    };
    if cites_not_below(alloc, cells, rank, kept.as_slice())? {
        return Err(Reason::CitedNotLower.into());
    }
    let frames = cited_frames(alloc, prelude, cells, &theorem.proof, kept.as_slice())?;
    match check(alloc, prelude, &frames, theorem) {
        Ok(()) => Ok(kept),
        Err(fault) => match fault.kind {
            ProofFaultKind::NoMemory => Err(AllocError.into()),
            _ => Err(Reason::ProofFails(fault).into()),
        },
    }
}

/// Whether some step cites a slot whose assertion isn't below a rank. It reads the rank of each slot that the steps cite, once, up to the
/// first that isn't.
///
/// # Errors
///
/// The run halts.
pub fn cites_not_below<C: Cells>(
    alloc: Global,
    cells: &mut C,
    limit: u32,
    steps: &[StoredStep],
) -> Result<bool, Halt>
    ensures looks { Looks (C.sight cells.old) (C.sight cells.new) }
    ensures ok { IfOk result (λ b. TellsNotBelow (C.sight cells.new) limit steps.now b) }
    ensures halts { IfErr result (IsCaused (C.sight cells.new)) }
    ensures reads { ReadsWithin (IsRankOfSteps steps.now) (C.sight cells.old) (C.sight cells.new) }
{
    let slots = slot_count(cells);
    let cited = cited_slots(alloc, steps)?;
    for slot in cited.as_slice() {
        if *slot < slots && limit <= rank(cells, *slot)? {
            return Ok(true);
        }
    }
    Ok(false)
}

/// The frames of the assertions that a proof cites, by their labels.
#[derive(Drop)]
pub(crate) struct CitedFrames {
    by_label: BTreeMap<Vec<u8>, Frame>,
}

impl Frames for CitedFrames {
    ghost use Rattle.groundwork.specs.Citing.{frames_in};

    ghost frames = { λ s label. frames_in s.by_label label };

    fn frame(&self, label: &Label) -> Option<&Frame> {
        self.by_label.get(label.as_slice())
    }
}

/// The frames of the assertions that steps cite, with the slots that have their labels. Each is read once.
fn cited_frames<C: Cells>(
    alloc: Global,
    prelude: &Prelude,
    cells: &mut C,
    steps: &Proof,
    kept: &[StoredStep],
) -> Result<CitedFrames, Halt>
    requires { AreWithin (C.sight cells.old).setting.slots kept.now }
    ensures looks { Looks (C.sight cells.old) (C.sight cells.new) }
    ensures ok { IfOk result (λ made. TellsFrames (C.sight cells.new) prelude.now steps.now kept.now (frames_in made.by_label)) }
    ensures halts { IfErr result (IsCaused (C.sight cells.new)) }
    ensures reads { ReadsWithin (IsStatementOfSteps kept.now) (C.sight cells.old) (C.sight cells.new) }
{
    let mut by_label = BTreeMap::new(alloc);
    for i in 0..steps.len().min(kept.len()) {
        let StepRef::Cite(label) = steps.step(i) else {
            continue;
        };
        let StoredStep::Slot(slot) = kept[i] else {
            continue;
        };
        note_frame(alloc, prelude, cells, &mut by_label, label, slot as usize)?;
    }
    Ok(CitedFrames { by_label })
}

/// Notes the frame of the assertion in a slot by its label, unless the label has one.
fn note_frame<C: Cells>(
    alloc: Global,
    prelude: &Prelude,
    cells: &mut C,
    by_label: &mut BTreeMap<Vec<u8>, Frame>,
    label: &[u8],
    slot: usize,
) -> Result<(), Halt>
    requires { slot < (C.sight cells.old).setting.slots }
    ensures looks { Looks (C.sight cells.old) (C.sight cells.new) }
    ensures ok { OnOk result (NotesFrame (C.sight cells.new) prelude.now slot label.now (frames_in by_label.old) (frames_in by_label.new)) }
    ensures halts { IfErr result (IsCaused (C.sight cells.new)) }
    ensures reads { ReadsWithin (λ c. c ≡ statement_cell slot) (C.sight cells.old) (C.sight cells.new) }
{
    if by_label.contains_key(label) {
        return Ok(());
    }
    let key = Vec::from_slice(alloc, label)?;
    by_label.insert(key, frame(alloc, prelude, cells, slot)?)?;
    Ok(())
}
