//! Which assertion would stand behind one that cites it.

ghost use Rattle.std.specs.Prelude.{◌≡◌, List, Some, IfOk, IfSome, IsTrue, length, slice_get};
ghost use Rattle.giving.specs.Staying.{changed, others};
ghost use Rattle.items.specs.declared.reading.Item.{Item as Found};
ghost use Rattle.source.specs.Scopes.{Assertion};
ghost use Rattle.givetext.specs.Causes.{Cites, StandInOrder};
ghost use Rattle.givetext.specs.Parts.{AreInOrder, AreNumbers, NamesLater};

use giving::LabelMap;
use items::{Item, Kind, read_items};
use source::Declared;
use sourceediting::proof_labels;
use std::alloc::{AllocError, Global};
use std::collections::HashMap;
use std::hash::RandomState;

/// The label that an assertion of the source has then.
fn label_then<'c>(changes: &'c LabelMap<'_>, label: &'c [u8]) -> &'c [u8]
    ensures { result.now ≡ changed changes.now label.now }
{
    match changes.text_for(label) {
        Some(other) => other,
        None => label,
    }
}

/// Whether of two assertions of a text, by their labels there, the first stands in front of the second.
fn are_in_order(places: &HashMap<&[u8], usize, RandomState>, first: &[u8], second: &[u8]) -> bool
    ensures { (fs : List Found) → AreNumbers fs places.now → IsTrue result → AreInOrder fs first.now second.now }
{
    match (places.get(first), places.get(second)) {
        (Some(place), Some(behind)) => place < behind,
        _ => false,
    }
}

/// The first label in the proof of the assertion at a place whose assertion stands behind it, by the places of assertions in the text with
/// the edits.
fn first_behind_at<'a, D: Declared<'a>>(
    declared: &D,
    changes: &LabelMap<'_>,
    places: &HashMap<&[u8], usize, RandomState>,
    place: usize,
) -> Option<&'a [u8]>
    ensures { (fs : List Found) (x : Assertion) → AreNumbers fs places.now
        → slice_get (D.scope declared.now).assertions place ≡ Some x → IfSome result (λ w. NamesLater changes.now fs w.now x) }
{
    let citing = label_then(changes, declared.label(place)?);
    for label in proof_labels(declared.proof(place)?) {
        if are_in_order(places, citing, label_then(changes, label)) {
            return Some(*label);
        }
    }
    None
}

/// The numbers of the assertions among items, by their labels.
fn numbers_of<'s>(
    alloc: Global,
    keys: RandomState,
    items: &[Item<'s>],
) -> Result<HashMap<&'s [u8], usize, RandomState>, AllocError>
    ensures { IfOk result (AreNumbers items.now) }
{
    let mut numbers = HashMap::with_hasher(alloc, keys);
    for (number, item) in items.iter().enumerate() {
        if let Kind::Assertion(label) = item.kind {
            numbers.insert(label, number)?;
        }
    }
    Ok(numbers)
}

/// The first assertion that isn't the library's, and cites one that stands behind it in the text with the edits: the label of the cited one
/// then, and its own.
pub(crate) fn first_behind<'c, 'a: 'c, D: Declared<'a>>(
    alloc: Global,
    keys: RandomState,
    declared: &D,
    changes: &'c LabelMap<'_>,
    own: &[bool],
    out: &[u8],
) -> Result<Option<(&'c [u8], &'c [u8])>, AllocError>
    requires { length own.now ≡ length (D.scope declared.now).assertions }
    ensures { IfOk result (λ found. IfSome found (λ p. StandInOrder out.now p.1.now p.0.now
        × Cites changes.now (others own.now (D.scope declared.now).assertions) p.1.now p.0.now)) }
{
    let Some(items) = read_items(alloc, out)? else {
        return Ok(None);
    };
    let places = numbers_of(alloc, keys, items.as_slice())?;
    for (place, is_own) in own.iter().enumerate() {
        if *is_own {
            continue;
        }
        if let Some(label) = first_behind_at(declared, changes, &places, place) {
            let Some(by) = declared.label(place) else {
                unreachable!()
            };
            return Ok(Some((label_then(changes, label), label_then(changes, by))));
        }
    }
    Ok(None)
}
