//! Which of the other assertions of a source is the first that doesn't stay.

ghost use Rattle.std.specs.Prelude.{◌≡◌, ◌↔◌, ◌<◌, length, slice_get, IfOk, IsTrue};
ghost use Rattle.giving.specs.Staying.{others, IsFirstNotStaying};
ghost use Rattle.giving.specs.Places.{StaysThere, SayTheSame, ArePlacesOfOthers};

use crate::alike::{are_hypotheses, are_pairs, are_words, has_proof};
use crate::label_map::LabelMap;
use source::Declared;
use std::alloc::{AllocError, Global};

/// Whether the assertion at a place says the same as one of another source: the same hypotheses, pairs and statement.
fn says_same<'a, D: Declared<'a>, E: Declared<'a>>(
    alloc: Global,
    old: &D,
    new: &E,
    place: usize,
    other: usize,
) -> Result<bool, AllocError>
    requires old { place < length (D.scope old.now).assertions }
    requires new { other < length (E.scope new.now).assertions }
    ensures { IfOk result (λ same. IsTrue same ↔ SayTheSame (slice_get (D.scope old.now).assertions place)
        (slice_get (E.scope new.now).assertions other)) }
{
    let (Some(statement), Some(expression)) = (old.statement(place), new.statement(other)) else {
        unreachable!()
    };
    if !are_words(statement, expression) {
        return Ok(false);
    }
    let hypotheses = old.mandatory(alloc, place)?;
    let others = new.mandatory(alloc, other)?;
    if !are_hypotheses(hypotheses, others) {
        return Ok(false);
    }
    let pairs = old.pairs(alloc, place)?;
    let restrictions = new.pairs(alloc, other)?;
    Ok(are_pairs(pairs.as_slice(), restrictions.as_slice()))
}

/// Whether the assertion at a place stays as one of another source.
fn stays<'a, D: Declared<'a>, E: Declared<'a>>(
    alloc: Global,
    changes: &LabelMap<'_>,
    old: &D,
    new: &E,
    place: usize,
    other: usize,
) -> Result<bool, AllocError>
    requires old { place < length (D.scope old.now).assertions }
    requires new { other < length (E.scope new.now).assertions }
    ensures { IfOk result (λ same. IsTrue same ↔ StaysThere changes.now (slice_get (D.scope old.now).assertions place)
        (slice_get (E.scope new.now).assertions other)) }
{
    let (Some(label), Some(name)) = (old.label(place), new.label(other)) else {
        unreachable!()
    };
    if !changes.leads(label, name) || !has_proof(changes, old.proof(place), new.proof(other)) {
        return Ok(false);
    }
    says_same(alloc, old, new, place, other)
}

/// The places of what flags don't choose.
fn places_of_others(alloc: Global, chosen: &[bool]) -> Result<Vec<usize>, AllocError>
    ensures { IfOk result (λ made. ArePlacesOfOthers chosen.now made.items) }
{
    let mut places = Vec::new(alloc);
    for (place, is_chosen) in chosen.iter().enumerate() {
        if !is_chosen {
            places.push(place)?;
        }
    }
    Ok(places)
}

/// The first of the assertions of a source that doesn't stay as it was, counted from 0 among those that flags don't choose, in their order;
/// `None` where each stays: it says the same as the one of the new source at its number, and its proof is the same but for changed labels.
///
/// Flags say of each assertion of either source whether it is chosen. It costs about as much as both sources have symbols, active
/// hypotheses and words of proofs.
///
/// # Errors
///
/// Want of memory for lists.
pub fn first_not_staying<'a, D: Declared<'a>, E: Declared<'a>>(
    alloc: Global,
    changes: &LabelMap<'_>,
    old: &D,
    new: &E,
    chosen: &[bool],
    taken: &[bool],
) -> Result<Option<usize>, AllocError>
    requires chosen { length chosen.now ≡ length (D.scope old.now).assertions }
    requires taken { length taken.now ≡ length (E.scope new.now).assertions }
    ensures { IfOk result (IsFirstNotStaying changes.now (others chosen.now (D.scope old.now).assertions)
        (others taken.now (E.scope new.now).assertions)) }
{
    let places = places_of_others(alloc, chosen)?;
    let others = places_of_others(alloc, taken)?;
    for (number, place) in places.iter().enumerate() {
        let Some(other) = others.get(number) else {
            return Ok(Some(number));
        };
        if !stays(alloc, changes, old, new, *place, *other)? {
            return Ok(Some(number));
        }
    }
    if places.len() < others.len() {
        return Ok(Some(places.len()));
    }
    Ok(None)
}
