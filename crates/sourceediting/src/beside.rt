//! Why something that is put in can't stand beside its neighbour in the library, which keeps its place.

ghost use Rattle.std.specs.Prelude.{◌≡◌, ◌≤◌, ◌<◌, ◌+◌, IfOk, IfSome, IsTrue, Some, length, map};
ghost use Rattle.arranging.specs.declared.headed.Side.TheVariants.{Behind, InFront};
ghost use Rattle.items.specs.Reading.{AreItems};
ghost use Rattle.sourceediting.specs.Refusals.{ArePut, HasCause, IsBeside, IsKnownAs, IsNumbered, IsPut, OnUnwritten};
ghost use Rattle.sourceediting.specs.Views.{seen_living};
ghost use Rattle.sourceediting.specs.declared.refusal.Refusal.TheVariants.{Unplaced};

use crate::citing::marked;
use crate::following::Followed;
use crate::holding::{is_same, known_as};
use crate::refusal::Refusal;
use arranging::{Coming, Neighbour, Side, Why, is_headed};
use items::{Item, Kind};
use library::Ranked;
use mmsyntax::Label;
use std::alloc::{AllocError, Global};
use std::hash::RandomState;

/// What became of the assertion with this label in the source, if it lives.
fn from_source<'x>(living: &[Followed<'x>], label: &[u8]) -> Option<Followed<'x>>
    ensures { IfSome result (λ f. IsKnownAs (seen_living living.now) f.now.now (Some label.now)) }
{
    for followed in living {
        if is_same(followed.source, Some(label)) {
            return Some(*followed);
        }
    }
    None
}

/// The number among the library's assertions of the one with a label, counted from 0.
fn number_of(entries: &[Ranked], label: &[u8]) -> Option<usize>
    ensures numbered { IfSome result (λ n. IsNumbered (map (λ r. r.assertion) entries.now) n label.now) }
    ensures within { IfSome result (λ n. n < length entries.now) }
{
    for number in 0..entries.len() {
        if entries[number].assertion.label.as_slice() == label {
            return Some(number);
        }
    }
    None
}

/// Whether the assertion with this label now was added, or moved.
fn is_put(living: &[Followed<'_>], label: &[u8]) -> bool
    ensures { IsTrue result → IsPut (seen_living living.now) label.now }
{
    let Some(followed) = known_as(living, label) else {
        return false;
    };
    followed.moved || followed.source.is_none()
}

/// Whether each of the library's assertions was, from a number up to another.
fn are_put(living: &[Followed<'_>], entries: &[Ranked], from: usize, to: usize) -> bool
    requires { to ≤ length entries.now }
    ensures { IsTrue result → ArePut (seen_living living.now) (map (λ r. r.assertion) entries.now) from to }
{
    for number in from..to {
        if !is_put(living, entries[number].assertion.label.as_slice()) {
            return false;
        }
    }
    true
}

/// Whether of two of the library's assertions the first stands behind the second, with none between that was neither added nor moved.
fn is_behind(living: &[Followed<'_>], entries: &[Ranked], number: usize, next: usize) -> bool
    requires { number < length entries.now }
    ensures { IsTrue result → IsBeside (seen_living living.now) (map (λ r. r.assertion) entries.now) number next Behind }
{
    next < number && are_put(living, entries, next + 1, number + 1)
}

/// Whether of two of the library's assertions the first stands in front of the second, and each in front of that was added or moved.
fn is_in_front(living: &[Followed<'_>], entries: &[Ranked], number: usize, next: usize) -> bool
    requires { next < length entries.now }
    ensures { IsTrue result → IsBeside (seen_living living.now) (map (λ r. r.assertion) entries.now) number next InFront }
{
    number < next && are_put(living, entries, 0, next)
}

/// Whether of two of the library's assertions the second is the neighbour of the first on a side of its own.
fn is_beside(
    living: &[Followed<'_>],
    entries: &[Ranked],
    number: usize,
    next: usize,
    side: Side,
) -> bool
    requires within { number < length entries.now }
    requires next { next < length entries.now }
    ensures { IsTrue result → IsBeside (seen_living living.now) (map (λ r. r.assertion) entries.now) number next side }
{
    match side {
        Side::Behind => is_behind(living, entries, number, next),
        Side::InFront => is_in_front(living, entries, number, next),
    }
}

/// Beside which assertion of a source something is put in. None where that isn't why it stands there.
fn neighbour_of<'s>(items: &[Item<'s>], why: Why<'_>) -> Option<Neighbour<'s>> {
    let (place, side) = match why {
        Why::Behind(place) => (place, Side::Behind),
        Why::First(place) => (place, Side::InFront),
        _ => return None,
    };
    match items.get(place)?.kind {
        Kind::Assertion(label) => Some(Neighbour { label, place, side }),
        _ => None,
    }
}

/// An assertion, by its label in the library, can't stand on this side of another.
fn told(alloc: Global, label: &[u8], next: &[u8], side: Side) -> Result<Refusal, AllocError>
    ensures { IfOk result (λ why. why ≡ Unplaced label.now next.now side) }
{
    let label = Label::from_slice(alloc, label)?;
    let next = Label::from_slice(alloc, next)?;
    Ok(Refusal::Unplaced { label, next, side })
}

/// Why the assertion with this number among those of the library, which is put in, can't stand beside its neighbour. None where it can, or
/// where the neighbour isn't why it stands there.
pub(crate) fn unplaced(
    alloc: Global,
    keys: RandomState,
    source: &[u8],
    items: &[Item<'_>],
    living: &[Followed<'_>],
    entries: &[Ranked],
    coming: Coming<'_>,
    number: usize,
) -> Result<Option<Refusal>, AllocError>
    requires items { AreItems source.now items.now }
    requires within { number < length entries.now }
    ensures cause { IfOk result (λ made. IfSome made (HasCause (seen_living living.now) (map (λ r. r.assertion) entries.now) source.now)) }
    ensures unwritten { IfOk result (λ made. IfSome made (OnUnwritten (λ _. ⊥))) }
{
    let Some(neighbour) = neighbour_of(items, coming.why) else {
        return Ok(None);
    };
    let Some(followed) = from_source(living, neighbour.label) else {
        return Ok(None);
    };
    let Some(next) = number_of(entries, followed.now) else {
        return Ok(None);
    };
    let none = marked(alloc, keys, &[])?;
    if !is_beside(living, entries, number, next, neighbour.side)
        || !is_headed(alloc, &none, source, items, neighbour)?
    {
        return Ok(None);
    }
    let label = entries[number].assertion.label.as_slice();
    let why = told(alloc, label, followed.now, neighbour.side)?;
    Ok(Some(why))
}
