//! Which theorems are still told to be axioms behind a run.

ghost use Rattle.std.specs.Prelude.{◌≡◌, IfOk, OnOk, filter};
ghost use Rattle.std.specs.List.{list_any};
ghost use mathlib.Core.Bool.{not};
ghost use Rattle.library.specs.Edits.{cites, is_citation};
ghost use Rattle.mmsyntax.specs.ProofWords.{seen_step};
ghost use Rattle.source.specs.Scopes.{is_in};
ghost use Rattle.taking.specs.Reasons.{told_in};
ghost use Rattle.standins.specs.Ending.{IsSettled, released};
ghost use Rattle.standins.specs.Views.{seen_stand_ins};

use crate::standing::StandIn;
use intake::Taken;
use library::Ranked;
use mmsyntax::StepRef;
use sites::Indexed;
use std::alloc::{AllocError, Global};
use std::hash::RandomState;
use taking::Reason;

/// Whether a step cites a label.
fn is_citation(label: &[u8], step: StepRef<'_>) -> bool
    ensures { result ≡ is_citation label.now (seen_step step.entry) }
{
    match step {
        StepRef::Cite(cited) => label == cited,
        _ => false,
    }
}

/// Whether the proof of an entry cites a label.
fn cites(label: &[u8], entry: &Ranked) -> bool
    ensures { result ≡ cites label.now entry.now }
{
    let proof = &entry.assertion.proof;
    for i in 0..proof.len() {
        if is_citation(label, proof.step(i)) {
            return true;
        }
    }
    false
}

/// Whether the proof of some entry cites a label.
fn is_cited(label: &[u8], entries: &[Ranked]) -> bool
    ensures { result ≡ list_any (cites label.now) entries.now }
{
    for entry in entries {
        if cites(label, entry) {
            return true;
        }
    }
    false
}

/// The labels in the source of the theorems on whose axiom no entry of a library leans.
fn released<'s>(
    alloc: Global,
    keys: RandomState,
    stand_ins: &'s [StandIn],
    entries: &[Ranked],
) -> Result<Indexed<'s>, AllocError>
    ensures { IfOk result (λ made. made ≡ released (seen_stand_ins stand_ins.now) entries.now) }
{
    let mut labels = Vec::new(alloc);
    for stand_in in stand_ins {
        if !is_cited(stand_in.cited.as_slice(), entries) {
            labels.push(stand_in.source.as_slice())?;
        }
    }
    Indexed::new(alloc, keys, labels)
}

/// What is told, without these theorems.
fn others_told<'a>(
    alloc: Global,
    released: &Indexed<'_>,
    axioms: &[(&'a [u8], Reason)],
) -> Result<Vec<(&'a [u8], Reason)>, AllocError>
    ensures { IfOk result (λ made. told_in made.items ≡ filter (λ a. not (is_in released.now a.0)) (told_in axioms.now)) }
{
    let mut made = Vec::new(alloc);
    for told in axioms {
        if released.place(told.0).is_none() {
            made.push(*told)?;
        }
    }
    Ok(made)
}

/// Of a library that was taken those theorems are no longer told to be axioms that lean on no axiom in these entries.
pub(crate) fn settle<'a>(
    alloc: Global,
    keys: RandomState,
    stand_ins: &[StandIn],
    entries: &[Ranked],
    taken: &mut Taken<'a>,
) -> Result<(), AllocError>
    ensures { OnOk result (IsSettled (seen_stand_ins stand_ins.now) entries.now taken.old taken.new) }
{
    if stand_ins.is_empty() {
        return Ok(());
    }
    let released = released(alloc, keys, stand_ins, entries)?;
    let axioms = others_told(alloc, &released, taken.axioms.as_slice())?;
    taken.axioms = axioms;
    Ok(())
}
