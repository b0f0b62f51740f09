//! Whether a heading stands beside an assertion in the block around it: nothing can be put in under the same heading there.

ghost use Rattle.std.specs.Prelude.{◌≡◌, [], IfOk, IsTrue};
ghost use Rattle.leaving.specs.declared.part.Part.TheVariants.{Heading};
ghost use Rattle.items.specs.Reading.{AreItems};
ghost use Rattle.arranging.specs.Headed.{HasHeading, HasHeadingBehind, HasHeadingInFront, IsHeaded, IsOpenAt};
ghost use Rattle.arranging.specs.Places.{AreDepths};

use crate::checking::depths_of;
use crate::describing::parts_of;
use crate::held::is_labelled;
use giving::LabelMap;
use items::Item;
use leaving::Part;
use std::alloc::{AllocError, Global};

/// A side of an assertion.
#[derive(Clone, Copy, Debug, PartialEq, Eq)]
pub enum Side {
    /// Behind it.
    Behind,
    /// In front of it.
    InFront,
}

/// The assertion of a source that something would stand beside.
#[derive(Clone, Copy)]
pub struct Neighbour<'s> {
    /// Its label.
    pub label: &'s [u8],
    /// So many items of the source stand in front of it.
    pub place: usize,
    /// The side of it where that would stand.
    pub side: Side,
}

/// Whether an item is a heading.
fn is_heading(part: Part) -> bool
    ensures { IsTrue result → part ≡ Heading }
{
    matches!(part, Part::Heading)
}

/// Whether a block is open in front of an item.
fn is_open_at(parts: &[Part], depths: &[Option<usize>], place: usize) -> bool
    requires { AreDepths parts.now depths.now }
    ensures { IsTrue result → IsOpenAt parts.now place }
{
    match depths.get(place) {
        Some(Some(depth)) => *depth > 0,
        _ => false,
    }
}

/// Whether a heading stands behind an item, and a block is open up to it.
fn has_heading_behind(parts: &[Part], depths: &[Option<usize>], place: usize) -> bool
    requires { AreDepths parts.now depths.now }
    ensures { IsTrue result → HasHeadingBehind parts.now place }
{
    if place >= parts.len() {
        return false;
    }
    for at in place + 1..parts.len() {
        if !is_open_at(parts, depths, at) {
            return false;
        }
        if is_heading(parts[at]) {
            return true;
        }
    }
    false
}

/// Whether a heading stands in front of an item, and a block is open from there on.
fn has_heading_in_front(parts: &[Part], depths: &[Option<usize>], place: usize) -> bool
    requires { AreDepths parts.now depths.now }
    ensures { IsTrue result → HasHeadingInFront parts.now place }
{
    if place >= parts.len() {
        return false;
    }
    let mut at = place;
    while at > 0 {
        if !is_open_at(parts, depths, at) {
            return false;
        }
        at -= 1;
        if is_heading(parts[at]) {
            return true;
        }
    }
    false
}

/// Whether a heading stands on a side of an item, in the block around it.
fn has_heading(parts: &[Part], depths: &[Option<usize>], place: usize, side: Side) -> bool
    requires { AreDepths parts.now depths.now }
    ensures { IsTrue result → HasHeading side parts.now place }
{
    match side {
        Side::Behind => has_heading_behind(parts, depths, place),
        Side::InFront => has_heading_in_front(parts, depths, place),
    }
}

/// Whether among the items of a source the neighbour stands at its place with its label, and on its side a heading, in the block around it.
/// `none` has no labels.
///
/// It costs as much as looking at all items.
///
/// # Errors
///
/// Want of memory.
pub fn is_headed(
    alloc: Global,
    none: &LabelMap<'_>,
    source: &[u8],
    items: &[Item<'_>],
    neighbour: Neighbour<'_>,
) -> Result<bool, AllocError>
    requires items { AreItems source.now items.now }
    requires none { none.now ≡ [] }
    ensures { IfOk result (λ headed. IsTrue headed → IsHeaded source.now neighbour.entry.label.now neighbour.entry.side) }
{
    if !is_labelled(items, neighbour.place, neighbour.label) {
        return Ok(false);
    }
    let parts = parts_of(alloc, none, none, source, items)?;
    let depths = depths_of(alloc, parts.as_slice())?;
    let (parts, depths) = (parts.as_slice(), depths.as_slice());
    Ok(has_heading(parts, depths, neighbour.place, neighbour.side))
}
