//! Checks one theorem of a source.

ghost use Rattle.std.specs.Prelude.{◌≡◌, ◌<◌, ◌≤◌, false, length, map, OnOk, Some, slice_get, take};
ghost use Rattle.std.specs.List.{list_any};
ghost use Rattle.source.specs.Scopes.{Assertion};
ghost use Rattle.source.specs.Letters.{is_absent};
ghost use Rattle.source.specs.Proofs.{step_of, is_unfinished};
ghost use Rattle.source.specs.Views.{seen_words, seen_proof};
ghost use Rattle.source.specs.Whole.{IsWhole};
ghost use Rattle.sourceframes.specs.Names.{words_of, IsSound, Keeps, Lasts};
ghost use Rattle.sourceframes.specs.Frames.{AreFrames};
ghost use Rattle.sourcecheck.specs.Shown.{Tells, TellsProof, TellsAssertion};

use crate::naming::name_labels;
use crate::stack::Stack;
use crate::stepping::take_codes;
use derivation::{ProofFault, ProofFaultKind};
use source::{Declared, ProofWords};
use sourceframes::{Frame, Table, thesis_of};
use taking::{Counted, count_labels, is_unfinished};

/// A fault that no step has.
pub(crate) fn fault(kind: ProofFaultKind) -> ProofFault
    ensures { result.kind ≡ kind }
{
    ProofFault { step: 0, kind }
}

/// Checks the steps of a finished proof of the assertion at a place. After an error nothing is said of the table.
fn check_counted<'a, D: Declared<'a>>(
    table: &mut Table<'a>,
    room: &mut Stack,
    frames: &[Frame],
    declared: &D,
    place: usize,
    counted: Counted<'a>,
) -> Result<(), ProofFault>
    requires sound { IsSound table.old }
    requires whole { IsWhole (D.scope declared.now) }
    requires within { place < length (D.scope declared.now).assertions }
    requires many { place ≤ length frames.now }
    requires frames { Lasts (words_of table.old) (λ name. AreFrames name (take place (D.scope declared.now).assertions) frames.now) }
    ensures keeps { OnOk result (Keeps table.old table.new) }
    ensures tells { (x : Assertion) → slice_get (D.scope declared.now).assertions place ≡ Some x
        → list_any is_absent counted.entry.codes ≡ false
        → Tells (take place (D.scope declared.now).assertions) x (map (step_of (seen_words counted.entry.labels.items)) counted.entry.codes)
        result }
{
    let alloc = room.alloc();
    let Some(statement) = declared.statement(place) else {
        unreachable!()
    };
    let Ok(wanted) = table.numbers(alloc, statement) else {
        return Err(fault(ProofFaultKind::NoMemory));
    };
    let Ok(active) = declared.active(alloc, place) else {
        return Err(fault(ProofFaultKind::NoMemory));
    };
    let labels = counted.labels.as_slice();
    let Ok(named) = name_labels(alloc, table, declared, place, &active, labels) else {
        return Err(fault(ProofFaultKind::NoMemory));
    };
    let Ok(thesis) = thesis_of(alloc, table, declared, place, active) else {
        return Err(fault(ProofFaultKind::NoMemory));
    };
    take_codes(
        room,
        frames,
        &thesis,
        named.as_slice(),
        wanted.as_slice(),
        counted.codes.as_slice(),
    )
}

/// Checks a finished proof of the assertion at a place. After an error nothing is said of the table.
fn check_proof<'a, D: Declared<'a>>(
    table: &mut Table<'a>,
    room: &mut Stack,
    frames: &[Frame],
    declared: &D,
    place: usize,
    proof: &ProofWords<'a>,
) -> Result<(), ProofFault>
    requires sound { IsSound table.old }
    requires whole { IsWhole (D.scope declared.now) }
    requires within { place < length (D.scope declared.now).assertions }
    requires many { place ≤ length frames.now }
    requires frames { Lasts (words_of table.old) (λ name. AreFrames name (take place (D.scope declared.now).assertions) frames.now) }
    ensures keeps { OnOk result (Keeps table.old table.new) }
    ensures tells { (x : Assertion) → slice_get (D.scope declared.now).assertions place ≡ Some x
        → is_unfinished (seen_proof proof.now) ≡ false
        → TellsProof (take place (D.scope declared.now).assertions) x (seen_proof proof.now) result }
{
    let alloc = room.alloc();
    let Ok(mandatory) = declared.mandatory(alloc, place) else {
        return Err(fault(ProofFaultKind::NoMemory));
    };
    match count_labels(alloc, mandatory, proof) {
        Err(_) => Err(fault(ProofFaultKind::NoMemory)),
        Ok(None) => Err(fault(ProofFaultKind::UnknownStep)),
        Ok(Some(counted)) => check_counted(table, room, frames, declared, place, counted),
    }
}

/// Checks the assertion at a place over the frames of those before it: of an axiom, and of a theorem whose proof is unfinished, nothing is
/// asked. After an error nothing is said of the table.
///
/// # Errors
///
/// The first fault of its proof. The kinds `NoMemory` and `TooLong` say that memory ran out, or that the steps of the proof write down over
/// 2^28 symbols.
pub(crate) fn check_theorem<'a, D: Declared<'a>>(
    table: &mut Table<'a>,
    room: &mut Stack,
    frames: &[Frame],
    declared: &D,
    place: usize,
) -> Result<(), ProofFault>
    requires sound { IsSound table.old }
    requires whole { IsWhole (D.scope declared.now) }
    requires within { place < length (D.scope declared.now).assertions }
    requires many { place ≤ length frames.now }
    requires frames { Lasts (words_of table.old) (λ name. AreFrames name (take place (D.scope declared.now).assertions) frames.now) }
    ensures keeps { OnOk result (Keeps table.old table.new) }
    ensures tells { (x : Assertion) → slice_get (D.scope declared.now).assertions place ≡ Some x
        → TellsAssertion (take place (D.scope declared.now).assertions) x result }
{
    let Some(proof) = declared.proof(place) else {
        return Ok(());
    };
    if is_unfinished(proof) {
        return Ok(());
    }
    check_proof(table, room, frames, declared, place, proof)
}
