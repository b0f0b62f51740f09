//! Gives the theorem in a slot other steps.

ghost use Rattle.std.specs.Prelude.{◌≡◌, ◌≢◌, ◌<◌, [], true, List, length, IfOk, IfErr};
ghost use Rattle.bodystore.specs.Bodies.{proof_body};
ghost use Rattle.cells.specs.Sight.{IsCaused, Onward, TakesAtMost};
ghost use Rattle.cells.specs.Lookups.{AreWithin};
ghost use Rattle.cells.specs.Answers.{WritesSome};
ghost use Rattle.groundwork.specs.Changes.{AreExchanged, ReprovesAt};
ghost use Rattle.groundwork.specs.Touches.{ReprovesWithin};
ghost use Rattle.groundwork.specs.Footprints.{ReprovesReading};

use bodystore::{StoredStep, encode_proof};
use cells::{
    Cells, Halt, cited_slots, count_in, count_out, only_in, proof_cell, put_body, stored_proof,
};
use std::alloc::{AllocError, Global};

/// The slots that one of two proofs cites and the other doesn't.
#[derive(Drop)]
struct Exchanged {
    /// Cited by the former alone.
    dropped: Vec<usize>,
    /// Cited by the other alone.
    gained: Vec<usize>,
}

/// Which slots a former proof and another one don't both cite.
fn compare(
    alloc: Global,
    former: &[StoredStep],
    kept: &[StoredStep],
) -> Result<Exchanged, AllocError>
    ensures { IfOk result (λ e. AreExchanged former.now kept.now e.dropped.items e.gained.items) }
{
    let before = cited_slots(alloc, former)?;
    let now = cited_slots(alloc, kept)?;
    let dropped = only_in(alloc, before.as_slice(), now.as_slice())?;
    let gained = only_in(alloc, now.as_slice(), before.as_slice())?;
    Ok(Exchanged { dropped, gained })
}

/// Stages steps, has the proof cell of a slot name them, counts out what the former proof cites and these don't, and counts in what these
/// cite and the former proof doesn't. There is a step, and each that cites cites one of the slots.
///
/// # Errors
///
/// The run halts. What was kept aside by then is the caller's to throw away.
pub fn put_steps<C: Cells>(
    alloc: Global,
    cells: &mut C,
    slot: usize,
    kept: &[StoredStep],
) -> Result<(), Halt>
    requires may { ((C.sight cells.old).may_write ≡ true) × ((C.sight cells.old).may_stage ≡ true) }
    requires slot { slot < (C.sight cells.old).setting.slots }
    requires some { kept.now ≢ [] }
    requires within { AreWithin (C.sight cells.old).setting.slots kept.now }
    ensures onward { Onward (C.sight cells.old) (C.sight cells.new) }
    ensures written { IfOk result (λ _. WritesSome (C.sight cells.new)) }
    ensures ok { IfOk result (λ _. (label : List _) → ReprovesAt (C.sight cells.old) (C.sight cells.new) slot label kept.now) }
    ensures halts { IfErr result (IsCaused (C.sight cells.new)) }
    ensures taken { TakesAtMost (length (proof_body kept.now)) (C.sight cells.old) (C.sight cells.new) }
    ensures keeps { IfOk result (λ _. (label : List _) → ReprovesWithin (C.sight cells.old) (C.sight cells.new) slot label kept.now) }
    ensures reads { (label : List _) → ReprovesReading (C.sight cells.old) (C.sight cells.new) slot label kept.now }
{
    let former = stored_proof(alloc, cells, slot)?;
    let cited = compare(alloc, former.as_slice(), kept)?;
    let body = encode_proof(alloc, kept)?;
    put_body(cells, proof_cell(slot), body.as_slice())?;
    count_out(cells, cited.dropped.as_slice())?;
    count_in(cells, cited.gained.as_slice())
}
