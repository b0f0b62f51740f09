//! Where each label of a library stands: a map from labels to places.

ghost use Rattle.mmsyntax.specs.declared.limits.TheConstants.{MOST_ASSERTIONS};
ghost use Rattle.std.specs.Prelude.{◌≡◌, ◌∷◌, ◌++◌, ◌≤◌, [], Some, false, length, map, IsSome, IfNone, IfSome, IfOk, OnOk};
ghost use Rattle.std.specs.Str.{bytes_eq};
ghost use Rattle.mmsyntax.specs.Assertions.{Distinct};
ghost use Rattle.library.specs.Library.{label_of, ranked_from};
ghost use Rattle.library.specs.Edits.{has};
ghost use Rattle.library.specs.declared.library.Ranked.{Ranked as RankedView};
ghost use Rattle.mmframes.specs.Frames.{frame};
ghost use Rattle.catalog.specs.Entries.{living, standing, StandsIn};
ghost use Rattle.catalog.specs.Places.{IsIndex, HasOnly, KeepsLabels, FoundAt, Puts, StandsSomewhere, place_in};
ghost use Rattle.catalog.specs.Trunks.{AreTrunks};

use crate::trunks::{Trunks, enter_trunk, forget_trunk};
use library::Ranked;
use mmframes::frame_of;
use mmsyntax::{Assertion, Frame, Prelude};
use std::alloc::{AllocError, Global};
use std::collections::HashMap;
use std::hash::RandomState;

/// From the label of each assertion to its place in the list, counted from 0.
///
/// Labels that no assertion has any more may stand here during a transaction, with whatever place.
pub type Places = HashMap<Vec<u8>, usize, RandomState>;

/// The place of the assertion that has a label, if one has it: one look-up.
pub fn find_label(entries: &[Option<Ranked>], places: &Places, label: &[u8]) -> Option<usize>
    requires { IsIndex places.now entries.now }
    ensures { FoundAt entries.now label.now result }
{
    let place = *places.get(label)?;
    let entry = entries.get(place)?.as_ref()?;
    if entry.assertion.label.as_slice() == label {
        Some(place)
    } else {
        None
    }
}

/// The assertion that has a label, with its place, if one has it.
pub fn find_entry<'a>(
    entries: &'a [Option<Ranked>],
    places: &Places,
    label: &[u8],
) -> Option<(usize, &'a Ranked)>
    requires { IsIndex places.now entries.now }
    ensures none { IfNone result (has (living entries.now) label.now ≡ false) }
    ensures some { IfSome result (λ found. StandsIn entries.now found.0 found.1.now × (label_of found.1.now ≡ label.now)) }
{
    let place = find_label(entries, places, label)?;
    let entry = entries.get(place)?.as_ref()?;
    Some((place, entry))
}

/// The assertion at a place, if there is one.
pub fn entry_at(entries: &[Option<Ranked>], place: usize) -> Option<&Ranked>
    ensures none { IfNone result ((e : RankedView) → StandsIn entries.now place e → ⊥) }
    ensures some { IfSome result (λ e. StandsIn entries.now place e.now) }
{
    entries.get(place)?.as_ref()
}

/// Notes another place for a label that stands in the map. It takes no memory.
pub(crate) fn put_place(places: &mut Places, label: &[u8], place: usize)
    requires { IsSome (place_in places.old label.now) }
    ensures { Puts places.old label.now place places.new }
{
    if let Some(noted) = places.get_mut(label) {
        *noted = place;
    }
}

/// Drops a label from the maps, unless an assertion has it.
pub(crate) fn forget_label(
    entries: &[Option<Ranked>],
    places: &mut Places,
    trunks: &mut Trunks,
    label: &[u8],
)
    requires indexed { IsIndex places.old entries.now }
    requires trunks { AreTrunks trunks.old places.old }
    ensures indexed { IsIndex places.new entries.now }
    ensures trunks { AreTrunks trunks.new places.new }
    ensures fewer { KeepsLabels places.new places.old }
    ensures gone { IsSome (place_in places.new label.now) → StandsSomewhere entries.now label.now }
{
    if find_label(entries, places, label).is_none() {
        let _ = places.remove(label);
        forget_trunk(trunks, label);
    }
}

/// Puts an assertion behind the others. After an error the three may disagree.
pub(crate) fn add_entry(
    alloc: Global,
    entries: &mut Vec<Option<Ranked>>,
    places: &mut Places,
    trunks: &mut Trunks,
    entry: Ranked,
) -> Result<(), AllocError>
    requires indexed { IsIndex places.old entries.old.items }
    requires only { HasOnly places.old entries.old.items [] }
    requires trunks { AreTrunks trunks.old places.old }
    requires free { has (living entries.old.items) (label_of entry) ≡ false }
    ensures items { OnOk result (entries.new.items ≡ entries.old.items ++ Some entry ∷ []) }
    ensures indexed { OnOk result (IsIndex places.new entries.new.items) }
    ensures only { OnOk result (HasOnly places.new entries.new.items []) }
    ensures trunks { OnOk result (AreTrunks trunks.new places.new) }
{
    let label = entry.assertion.label.as_slice();
    let key = Vec::from_slice(alloc, label)?;
    enter_trunk(alloc, trunks, label)?;
    places.insert(key, entries.len())?;
    entries.push(Some(entry))?;
    Ok(())
}

/// The opening library of assertions: the k-th of them has the rank 100 k.
///
/// # Errors
///
/// Want of memory.
pub fn open_entries(
    alloc: Global,
    keys: RandomState,
    assertions: &[Assertion],
) -> Result<(Vec<Option<Ranked>>, Places, Trunks), AllocError>
    requires few { length assertions.now ≤ MOST_ASSERTIONS }
    requires distinct { Distinct bytes_eq (map label_of (ranked_from 1 assertions.now)) }
    ensures entries { IfOk result (λ made. made.0.items ≡ standing (ranked_from 1 assertions.now)) }
    ensures indexed { IfOk result (λ made. IsIndex made.1 made.0.items) }
    ensures only { IfOk result (λ made. HasOnly made.1 made.0.items []) }
    ensures trunks { IfOk result (λ made. AreTrunks made.2 made.1) }
{
    let mut entries = Vec::new(alloc);
    let mut places = HashMap::with_hasher(alloc, keys);
    let mut trunks = HashMap::with_hasher(alloc, keys);
    for (i, assertion) in assertions.iter().enumerate() {
        let entry = Ranked {
            rank: 100 * (i as u32 + 1),
            assertion: assertion.copy(alloc)?,
        };
        add_entry(alloc, &mut entries, &mut places, &mut trunks, entry)?;
    }
    Ok((entries, places, trunks))
}

/// The frames of assertions, in order.
///
/// # Errors
///
/// Want of memory.
pub fn open_frames(
    alloc: Global,
    prelude: &Prelude,
    assertions: &[Assertion],
) -> Result<Vec<Frame>, AllocError>
    ensures { IfOk result (λ made. made.items ≡ map (frame prelude.now) assertions.now) }
{
    let mut frames = Vec::new(alloc);
    for assertion in assertions {
        frames.push(frame_of(alloc, prelude, assertion)?)?;
    }
    Ok(frames)
}
