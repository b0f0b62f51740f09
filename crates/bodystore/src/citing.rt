//! The slots that the steps of a proof cite.

ghost use Rattle.std.specs.Prelude.{◌++◌, ◌∷◌, [], IfOk, OnOk};
ghost use Rattle.bodystore.specs.Citing.{AreCitedSlots};
ghost use Rattle.bodystore.specs.Listing.{AreSlotsOf, AreSameSlots, AreSeen};

use crate::stored::StoredStep;
use mmsyntax::MOST_ASSERTIONS;
use std::alloc::{AllocError, Global};

/// From how many steps on a proof's slots are looked up in a table before they are listed.
const LONG_PROOF: usize = 128;

/// The slots that the steps of a proof cite, each once, ascending.
///
/// # Errors
///
/// Want of memory.
pub fn cited_slots(alloc: Global, steps: &[StoredStep]) -> Result<Vec<usize>, AllocError>
    ensures { IfOk result (λ made. AreCitedSlots steps.now made.items) }
{
    let mut slots = listed_slots(alloc, steps)?;
    slots.sort_unstable();
    slots.dedup();
    Ok(slots)
}

/// The slots that the steps of a proof cite, in the order in which they are first cited; each once in a long proof, but what
/// is no slot of a library.
fn listed_slots(alloc: Global, steps: &[StoredStep]) -> Result<Vec<usize>, AllocError>
    ensures { IfOk result (λ made. AreSlotsOf steps.now made.items) }
{
    let mut seen = vec![in alloc; false; seen_for(steps.len())]?;
    let mut slots = Vec::new(alloc);
    for step in steps {
        if let StoredStep::Slot(slot) = step {
            list_slot(&mut slots, &mut seen, *slot as usize)?;
        }
    }
    Ok(slots)
}

/// For how many slots a table is kept of those that were seen, in a proof of so many steps: none in a short one, whose slots are listed as
/// often as they are cited.
fn seen_for(steps: usize) -> usize {
    if steps < LONG_PROOF {
        0
    } else {
        MOST_ASSERTIONS
    }
}

/// Lists a slot behind others, unless it was seen before; one that is too high for the table of those that were seen in any case.
fn list_slot(slots: &mut Vec<usize>, seen: &mut [bool], slot: usize) -> Result<(), AllocError>
    requires { AreSeen seen.old slots.old.items }
    ensures seen { OnOk result (AreSeen seen.new slots.new.items) }
    ensures listed { OnOk result (AreSameSlots (slots.old.items ++ slot ∷ []) slots.new.items) }
{
    if slot < seen.len() && seen[slot] {
        return Ok(());
    }
    slots.push(slot)?;
    if slot < seen.len() {
        seen[slot] = true;
    }
    Ok(())
}
