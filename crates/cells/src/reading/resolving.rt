//! From the labels that a proof cites to their slots.

ghost use Rattle.std.specs.Prelude.{◌<◌, IfOk, IfErr, [], length, slice_index_or};
ghost use Rattle.mmsyntax.specs.ProofWords.{IsWithin, step_in};
ghost use Rattle.std.specs.Option.{option_map};
ghost use Rattle.cells.specs.Sight.{IsCaused, Looks};
ghost use Rattle.cells.specs.Footprints.{ReadsWhere, IsOfLook, IsOfStep, IsOfResolving};
ghost use Rattle.cells.specs.Lookups.{Finds, StoresStep, Resolves};
ghost use Rattle.cells.specs.Words.{AreFound};

use crate::cells::Cells;
use crate::finding::find;
use crate::halt::Halt;
use bodystore::StoredStep;
use mmsyntax::{Label, Proof, WordStep};
use std::alloc::Global;

/// The steps with each cited label as the slot that has it; none where some step cites a label that no assertion has. A label is looked
/// for at the first step that cites it, and not again.
pub fn resolve<C: Cells>(
    alloc: Global,
    cells: &mut C,
    steps: &Proof,
) -> Result<Option<Vec<StoredStep>>, Halt>
    ensures looks { Looks (C.sight cells.old) (C.sight cells.new) }
    ensures ok { IfOk result (λ kept. Resolves (C.sight cells.new) steps.now (option_map (λ v. v.items) kept)) }
    ensures halts { IfErr result (IsCaused (C.sight cells.new)) }
    ensures reads { ReadsWhere (IsOfResolving (C.sight cells.old).setting.slots steps.now) (C.sight cells.old) (C.sight cells.new) }
{
    let over = steps.word_steps();
    let count = over.words.len();
    let mut kept = Vec::with_capacity(alloc, count)?;
    let mut found = Vec::new(alloc);
    found.resize(over.cited.len(), None)?;
    for i in 0..count {
        let step = over.step(i);
        let Some(stored) = stored_step(cells, over.cited, &mut found, step)? else {
            return Ok(None);
        };
        kept.push(stored)?;
    }
    Ok(Some(kept))
}

/// The step with a cited label as the slot that has it; none where it cites a label that no assertion has. The labels are those of the
/// proof, with the slots of those that were found before.
fn stored_step<C: Cells>(
    cells: &mut C,
    labels: &[Label],
    found: &mut [Option<u32>],
    step: WordStep,
) -> Result<Option<StoredStep>, Halt>
    requires within { IsWithin (length labels.now) step }
    requires found { AreFound (C.sight cells.old) labels.now found.old }
    ensures looks { Looks (C.sight cells.old) (C.sight cells.new) }
    ensures found { AreFound (C.sight cells.new) labels.now found.new }
    ensures ok { IfOk result (λ kept. StoresStep (C.sight cells.new) (step_in labels.now step) kept) }
    ensures halts { IfErr result (IsCaused (C.sight cells.new)) }
    ensures reads { ReadsWhere (IsOfStep (C.sight cells.old).setting.slots (step_in labels.now step))
        (C.sight cells.old) (C.sight cells.new) }
{
    match step {
        WordStep::Float(place) => Ok(Some(StoredStep::Float(place))),
        WordStep::Hyp(place) => Ok(Some(StoredStep::Hyp(place))),
        WordStep::Cite(n) => match slot_of(cells, labels, found, n as usize)? {
            Some(slot) => Ok(Some(StoredStep::Slot(slot))),
            None => Ok(None),
        },
    }
}

/// The slot with the assertion that has the label at a place, or none where no assertion has it. Where it wasn't found before, it is
/// looked for, and noted.
fn slot_of<C: Cells>(
    cells: &mut C,
    labels: &[Label],
    found: &mut [Option<u32>],
    n: usize,
) -> Result<Option<u32>, Halt>
    requires within { n < length labels.now }
    requires found { AreFound (C.sight cells.old) labels.now found.old }
    ensures looks { Looks (C.sight cells.old) (C.sight cells.new) }
    ensures found { AreFound (C.sight cells.new) labels.now found.new }
    ensures ok { IfOk result (λ slot. Finds (C.sight cells.new) (slice_index_or labels.now n []) slot) }
    ensures halts { IfErr result (IsCaused (C.sight cells.new)) }
    ensures reads { ReadsWhere (IsOfLook (C.sight cells.old).setting.slots (slice_index_or labels.now n []))
        (C.sight cells.old) (C.sight cells.new) }
{
    if let Some(slot) = found[n] {
        return Ok(Some(slot));
    }
    let Some(slot) = find(cells, labels[n].as_slice())? else {
        return Ok(None);
    };
    found[n] = Some(slot as u32);
    Ok(Some(slot as u32))
}
