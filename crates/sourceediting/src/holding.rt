//! Why something that is put in can't stand in front of its neighbour in the library, which keeps its place.

ghost use Rattle.std.specs.Prelude.{◌≡◌, ◌<◌, ℕ, List, Contains, IfOk, IfSome, IsTrue, Some, length, map};
ghost use Rattle.std.specs.Option.{option_map};
ghost use Rattle.mmtext.specs.Words.{Word};
ghost use Rattle.items.specs.Reading.{AreItems};
ghost use Rattle.arranging.specs.Arranged.{label_in_source};
ghost use Rattle.arranging.specs.Held.{IsHeldBehind};
ghost use Rattle.sourceediting.specs.Refusals.{HasCause, IsKnownAs, OnUnwritten};
ghost use Rattle.sourceediting.specs.Views.{seen_followed, seen_living};

use crate::citing::marked;
use crate::declaring::Declared;
use crate::filling::Known;
use crate::following::Followed;
use crate::refusal::Refusal;
use arranging::{Coming, is_held_behind};
use library::Ranked;
use mmsyntax::Label;
use std::alloc::{AllocError, Global};
use std::hash::RandomState;

/// One that was put behind the declaration of a name which it mentions.
#[derive(Clone, Copy)]
pub(crate) struct Held<'t> {
    /// Its number among the library's assertions, counted from 0.
    pub number: usize,
    /// Its number among those that are put in, counted from 0.
    pub coming: usize,
    pub needed: Declared<'t>,
}

/// What became of the assertion with this label now, if one lives.
pub(crate) fn known_as<'x>(living: &[Followed<'x>], label: &[u8]) -> Option<Followed<'x>>
    ensures { IfSome result (λ f. Contains (seen_living living.now) (seen_followed f) × (f.now.now ≡ label.now)) }
{
    for followed in living {
        if followed.now == label {
            return Some(*followed);
        }
    }
    None
}

/// Whether a label is there as the other one is.
pub(crate) fn is_same(one: Option<&[u8]>, other: Option<&[u8]>) -> bool
    ensures { IsTrue result → option_map (λ w. w.now) one.entry ≡ option_map (λ w. w.now) other.entry }
{
    match (one, other) {
        (Some(label), Some(name)) => label == name,
        (None, None) => true,
        _ => false,
    }
}

/// Whether one that is put in has this label in the library, another one that label, and what the first mentions is declared behind the
/// second, which stands at this place of the source.
fn is_held(
    alloc: Global,
    keys: RandomState,
    known: &Known<'_>,
    living: &[Followed<'_>],
    coming: Coming<'_>,
    needed: Declared<'_>,
    labels: (&[u8], &[u8]),
    place: usize,
) -> Result<bool, AllocError>
    requires { AreItems known.now.text.now known.now.items.items }
    ensures { IfOk result (λ held. IsTrue held → IsKnownAs (seen_living living.now) labels.entry.0.now (label_in_source coming.entry)
        × ((neighbour : Word) × IsKnownAs (seen_living living.now) labels.entry.1.now (Some neighbour)
        × IsHeldBehind known.now.text.now coming.entry neighbour needed.entry.name.now)) }
{
    let (label, next) = labels;
    let (Some(theirs), Some(other)) = (known_as(living, label), known_as(living, next)) else {
        return Ok(false);
    };
    let Some(neighbour) = other.source else {
        return Ok(false);
    };
    if !is_same(theirs.source, coming.source) {
        return Ok(false);
    }
    let none = marked(alloc, keys, &[])?;
    let items = known.items.as_slice();
    let declaration = needed.from.saturating_sub(1);
    is_held_behind(
        alloc,
        &none,
        known.text,
        items,
        coming,
        neighbour,
        place,
        declaration,
        needed.name,
    )
}

/// One that was put in can't stand in front of the next one that stays, which has this number in the library and stands at this place. None
/// where nothing that it mentions is declared behind that.
pub(crate) fn held_behind(
    alloc: Global,
    keys: RandomState,
    known: &Known<'_>,
    living: &[Followed<'_>],
    entries: &[Ranked],
    comings: &[Coming<'_>],
    held: Held<'_>,
    next: (usize, usize),
) -> Result<Option<Refusal>, AllocError>
    requires items { AreItems known.now.text.now known.now.items.items }
    requires order { held.number < next.0 }
    requires within { next.0 < length entries.now }
    requires comes { held.coming < length comings.now }
    ensures cause { IfOk result (λ made. IfSome made
        (HasCause (seen_living living.now) (map (λ r. r.assertion) entries.now) known.now.text.now)) }
    ensures unwritten { IfOk result (λ made. IfSome made (OnUnwritten (λ _. ⊥))) }
{
    let (number, place) = next;
    let (first, second) = (&entries[held.number], &entries[number]);
    let coming = comings[held.coming];
    let (label, next) = (&first.assertion.label, &second.assertion.label);
    let labels = (label.as_slice(), next.as_slice());
    if !is_held(
        alloc,
        keys,
        known,
        living,
        coming,
        held.needed,
        labels,
        place,
    )? {
        return Ok(None);
    }
    Ok(Some(Refusal::InFront {
        label: label.copy(alloc)?,
        next: next.copy(alloc)?,
        name: Label::from_slice(alloc, held.needed.name)?,
    }))
}
