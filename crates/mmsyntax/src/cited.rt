//! Lists of labels that a proof cites.

ghost use Rattle.std.specs.Prelude.{◌≡◌, ◌<◌, ◌^◌, [], true, length, map, take, IfOk, slice_index_or};
ghost use Rattle.mmsyntax.specs.ProofWords.{replacing};

use crate::label::Label;
use crate::proof::PLACES;
use std::alloc::{AllocError, Global};

/// Whether a label stands at a place.
pub(crate) fn stands_at(labels: &[Label], place: usize, label: &[u8]) -> bool
    ensures { result ≡ true → (place < length labels.now) × (slice_index_or labels.now place [] ≡ label.now) }
{
    place < labels.len() && labels[place].as_slice() == label
}

/// The place of a label: the one that is guessed, if it stands there, and else one behind all others, where it is put.
///
/// # Errors
///
/// Want of memory. There is none for a list of 2^30 labels: it would take over 32 GB.
pub(crate) fn place_for(
    alloc: Global,
    labels: &mut Vec<Label>,
    guess: usize,
    label: &[u8],
) -> Result<u32, AllocError>
    ensures kept { take (length labels.old.items) labels.new.items ≡ labels.old.items }
    ensures small { IfOk result (λ n. n < 2 ^ 30) }
    ensures within { IfOk result (λ n. n < length labels.new.items) }
    ensures there { IfOk result (λ n. slice_index_or labels.new.items n [] ≡ label.now) }
{
    let place = if stands_at(labels.as_slice(), guess, label) {
        guess
    } else {
        let place = labels.len();
        labels.push(Label::from_slice(alloc, label)?)?;
        place
    };
    if place < PLACES as usize {
        Ok(place as u32)
    } else {
        Err(AllocError)
    }
}

/// Equal labels.
pub(crate) fn copy_labels(alloc: Global, labels: &[Label]) -> Result<Vec<Label>, AllocError>
    ensures { IfOk result (λ made. made.items ≡ labels.now) }
{
    let mut made = Vec::with_capacity(alloc, labels.len())?;
    for label in labels {
        made.push(label.copy(alloc)?)?;
    }
    Ok(made)
}

/// The label, or the new one where it is the old one.
fn replaced(alloc: Global, label: &Label, old: &[u8], new: &[u8]) -> Result<Label, AllocError>
    ensures { IfOk result (λ made. made ≡ replacing old.now new.now label.now) }
{
    if old == label.as_slice() {
        Label::from_slice(alloc, new)
    } else {
        label.copy(alloc)
    }
}

/// The labels with one in the place of another.
pub(crate) fn replaced_labels(
    alloc: Global,
    labels: &[Label],
    old: &[u8],
    new: &[u8],
) -> Result<Vec<Label>, AllocError>
    ensures { IfOk result (λ made. made.items ≡ map (replacing old.now new.now) labels.now) }
{
    let mut made = Vec::with_capacity(alloc, labels.len())?;
    for label in labels {
        made.push(replaced(alloc, label, old, new)?)?;
    }
    Ok(made)
}
