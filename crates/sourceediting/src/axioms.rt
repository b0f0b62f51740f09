//! Which assertions of a library are axioms behind the edits of a history.

ghost use Rattle.std.specs.Prelude.{◌≡◌, IfOk, filter_map, map};
ghost use Rattle.std.specs.Option.{option_map};
ghost use Rattle.source.specs.Views.{seen_words};
ghost use Rattle.library.specs.Edits.{is_axiom};
ghost use Rattle.sourceediting.specs.Axioms.{axiom_labels, axiom_label, axioms_then};
ghost use Rattle.sourceediting.specs.Views.{seen_followed, seen_living};

use crate::citing::marked;
use crate::following::Followed;
use giving::LabelMap;
use library::{PlainLibrary, Ranked};
use mmsyntax::{Assertion, Kind};
use std::alloc::{AllocError, Global};
use std::hash::RandomState;

/// Whether an assertion is an axiom.
fn is_axiom(assertion: &Assertion) -> bool
    ensures { result ≡ is_axiom assertion.now.kind }
{
    match assertion.kind {
        Kind::Axiom => true,
        Kind::Theorem => false,
    }
}

/// The labels of the axioms among assertions.
fn axiom_labels<'x>(alloc: Global, entries: &'x [Ranked]) -> Result<Vec<&'x [u8]>, AllocError>
    ensures { IfOk result (λ made. seen_words made.items ≡ axiom_labels (map (λ r. r.assertion) entries.now)) }
{
    let mut labels = Vec::new(alloc);
    for entry in entries {
        if is_axiom(&entry.assertion) {
            labels.push(entry.assertion.label.as_slice())?;
        }
    }
    Ok(labels)
}

/// The label of an assertion in the source then, if it is one of these axioms.
fn axiom_label<'h>(axioms: &LabelMap<'_>, followed: &Followed<'h>) -> Option<&'h [u8]>
    ensures { option_map (λ w. w.now) result ≡ axiom_label (map (λ c. c.0) axioms.now) (seen_followed followed.entry.now) }
{
    match axioms.text_for(followed.now) {
        Some(_) => Some(followed.label_then()),
        None => None,
    }
}

/// The labels in the source then of those of a library's assertions that have one of these labels in the library, in their order.
fn labels_among<'h>(
    alloc: Global,
    axioms: &LabelMap<'_>,
    living: &[Followed<'h>],
) -> Result<Vec<&'h [u8]>, AllocError>
    ensures { IfOk result (λ made. seen_words made.items
        ≡ filter_map (axiom_label (map (λ c. c.0) axioms.now)) (seen_living living.now)) }
{
    let mut found = Vec::new(alloc);
    for followed in living {
        if let Some(label) = axiom_label(axioms, followed) {
            found.push(label)?;
        }
    }
    Ok(found)
}

/// The labels in the source then of those of a library's assertions that are axioms in the edited library, in their order.
///
/// # Errors
///
/// Want of memory.
pub fn axioms_then<'x>(
    alloc: Global,
    keys: RandomState,
    edited: &'x PlainLibrary,
    living: &[Followed<'x>],
) -> Result<Vec<&'x [u8]>, AllocError>
    ensures { IfOk result (λ made. seen_words made.items
        ≡ axioms_then (map (λ r. r.assertion) edited.now.entries) (seen_living living.now)) }
{
    let labels = axiom_labels(alloc, edited.entries())?;
    let axioms = marked(alloc, keys, labels.as_slice())?;
    labels_among(alloc, &axioms, living)
}
