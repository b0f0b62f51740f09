//! Whether something can't stand in front of an assertion, since it mentions a name that is declared behind that.

ghost use Rattle.std.specs.Prelude.{◌≡◌, ◌∷◌, [], ℕ, List, Some, IfOk, IsTrue, slice_get};
ghost use Rattle.items.specs.Items.{Item as Pieces, label_of};
ghost use Rattle.items.specs.Reading.{AreFound, AreItems};
ghost use Rattle.arranging.specs.Held.{IsHeldBehind};

use crate::checking::Checker;
use crate::coming::Coming;
use crate::describing::parts_of;
use giving::LabelMap;
use items::{Item, Kind};
use std::alloc::{AllocError, Global};

/// Whether the item at a place is an assertion with a label.
pub(crate) fn is_labelled(items: &[Item<'_>], place: usize, label: &[u8]) -> bool
    ensures { (text : List ℕ) (old : List Pieces) → AreFound text 0 items.now old → IsTrue result
        → (x : Pieces) × (slice_get old place ≡ Some x) × (label_of x ≡ label.now ∷ []) }
{
    let Some(item) = items.get(place) else {
        return false;
    };
    match item.kind {
        Kind::Assertion(other) => other == label,
        _ => false,
    }
}

/// Whether of the items of a source the one at a place is an assertion with a label, another one behind it declares a name, and what is put
/// in mentions that.
///
/// It costs as much as looking at all items.
///
/// # Errors
///
/// Want of memory.
pub fn is_held_behind(
    alloc: Global,
    none: &LabelMap<'_>,
    source: &[u8],
    items: &[Item<'_>],
    coming: Coming<'_>,
    label: &[u8],
    place: usize,
    declaration: usize,
    name: &[u8],
) -> Result<bool, AllocError>
    requires { AreItems source.now items.now }
    ensures { IfOk result (λ held. IsTrue held → IsHeldBehind source.now coming.entry label.now name.now) }
{
    if place >= declaration || declaration >= items.len() || !is_labelled(items, place, label) {
        return Ok(false);
    }
    let parts = parts_of(alloc, none, none, source, items)?;
    let checker = Checker::new(alloc, none, none, none, source, items, parts.as_slice())?;
    Ok(checker.declares(declaration, name) && checker.mentions(coming, name))
}
