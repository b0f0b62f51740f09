//! A library without its stand-ins.

ghost use Rattle.std.specs.Prelude.{◌≡◌, IfOk};
ghost use Rattle.std.specs.List.{list_any};
ghost use Rattle.mmsyntax.specs.ProofWords.{seen_step};
ghost use Rattle.standins.specs.Ending.{IsWithdrawn, axiom_labels, cites_one, freed, withdrawn};
ghost use Rattle.standins.specs.Views.{seen_stand_ins};

use crate::standing::StandIn;
use library::{PlainLibrary, Ranked};
use mmsyntax::{Assertion, Kind, Proof, StepRef};
use sites::Indexed;
use std::alloc::{AllocError, Global};
use std::hash::RandomState;

/// Whether a step cites one of these.
fn cites_one(axioms: &Indexed<'_>, step: StepRef<'_>) -> bool
    ensures { result ≡ cites_one axioms.now (seen_step step.entry) }
{
    match step {
        StepRef::Cite(label) => axioms.place(label).is_some(),
        _ => false,
    }
}

/// Whether a proof does.
fn leans(axioms: &Indexed<'_>, proof: &Proof) -> bool
    ensures { result ≡ list_any (cites_one axioms.now) proof.now }
{
    for i in 0..proof.len() {
        if cites_one(axioms, proof.step(i)) {
            return true;
        }
    }
    false
}

/// An assertion, which is an axiom where its proof cites one of these.
fn freed(
    alloc: Global,
    axioms: &Indexed<'_>,
    assertion: &Assertion,
) -> Result<Assertion, AllocError>
    ensures { IfOk result (λ made. made ≡ freed axioms.now assertion.now) }
{
    let same = assertion.copy(alloc)?;
    if !leans(axioms, &assertion.proof) {
        return Ok(same);
    }
    Ok(Assertion {
        kind: Kind::Axiom,
        proof: Proof::new(alloc),
        ..same
    })
}

/// The entries of a library without those that are called so, in which no proof cites one of these.
fn others(
    alloc: Global,
    axioms: &Indexed<'_>,
    entries: &[Ranked],
) -> Result<Vec<Ranked>, AllocError>
    ensures { IfOk result (λ made. made.items ≡ withdrawn axioms.now entries.now) }
{
    let mut made = Vec::new(alloc);
    for entry in entries {
        if axioms.place(entry.assertion.label.as_slice()).is_none() {
            made.push(Ranked {
                rank: entry.rank,
                assertion: freed(alloc, axioms, &entry.assertion)?,
            })?;
        }
    }
    Ok(made)
}

/// The labels of the axioms.
fn axiom_labels<'s>(
    alloc: Global,
    keys: RandomState,
    stand_ins: &'s [StandIn],
) -> Result<Indexed<'s>, AllocError>
    ensures { IfOk result (λ made. made ≡ axiom_labels (seen_stand_ins stand_ins.now)) }
{
    let mut labels = Vec::with_capacity(alloc, stand_ins.len())?;
    for stand_in in stand_ins {
        labels.push(stand_in.cited.as_slice())?;
    }
    Indexed::new(alloc, keys, labels)
}

/// A library without its stand-ins: a theorem that leans on one is an axiom. It verifies as the library does.
pub(crate) fn withdraw(
    alloc: Global,
    keys: RandomState,
    stand_ins: &[StandIn],
    library: PlainLibrary,
) -> Result<PlainLibrary, AllocError>
    ensures { IfOk result (IsWithdrawn (seen_stand_ins stand_ins.now) library) }
{
    // For the proof: the library is in export order.
    let _ordered = library.entries();
    if stand_ins.is_empty() {
        return Ok(library);
    }
    let axioms = axiom_labels(alloc, keys, stand_ins)?;
    let entries = others(alloc, &axioms, library.entries())?;
    let prelude = library.prelude().copy(alloc)?;
    Ok(PlainLibrary::sorted(prelude, library.slots(), entries))
}
