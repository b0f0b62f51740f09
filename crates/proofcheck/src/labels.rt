//! The place of the first assertion of a list with each label.

ghost use Rattle.std.specs.Prelude.{◌≡◌, List, ℕ, Some, None, true, if◌then◌else◌, All, IfOk, IfSome, OnOk};
ghost use Rattle.std.specs.HashMap.{get_by};
ghost use Rattle.std.specs.Str.{bytes_eq};
ghost use Rattle.proofcheck.specs.Reports.{first_of_two, place_from, IsHint};

use mmsyntax::Assertion;
use std::alloc::{AllocError, Global};
use std::collections::HashMap;
use std::hash::{BuildHasher, FoldHasher, Hasher, RandomState};
use std::marker::Model;

/// How many hints there are at least for each assertion.
const HINTS_EACH: usize = 4;

/// Adds the place of a label, if the label has none yet.
fn note_place(
    alloc: Global,
    places: &mut HashMap<Vec<u8>, usize, RandomState>,
    label: &[u8],
    place: usize,
) -> Result<(), AllocError>
    ensures { OnOk result ((q : List ℕ) → get_by (λ k. bytes_eq q k.items) places.new
        ≡ first_of_two (get_by (λ k. bytes_eq q k.items) places.old) (if bytes_eq label.now q then Some place else None)) }
{
    if places.contains_key(label) {
        return Ok(());
    }
    let key = Vec::from_slice(alloc, label)?;
    places.insert(key, place)?;
    Ok(())
}

/// The place of the first assertion with each label. The keys are those from which the map draws its hashes.
fn places_of(
    alloc: Global,
    keys: RandomState,
    assertions: &[Assertion],
) -> Result<HashMap<Vec<u8>, usize, RandomState>, AllocError>
    ensures { IfOk result (λ places. (label : List ℕ) →
        get_by (λ k. bytes_eq label k.items) places ≡ place_from 0 label assertions.now) }
{
    let mut places = HashMap::with_capacity_and_hasher(alloc, assertions.len(), keys)?;
    for (i, assertion) in assertions.iter().enumerate() {
        note_place(alloc, &mut places, assertion.label.as_slice(), i)?;
    }
    Ok(places)
}

/// Where the hint for a label is looked for first, among so many: by a quick hash.
fn bucket(seed: FoldHasher, count: usize, label: &[u8]) -> usize {
    let mut hasher = seed;
    hasher.write(label);
    hasher.finish() as usize & count.wrapping_sub(1)
}

/// Where it is looked for next: beside the first.
fn beside(bucket: usize) -> usize {
    bucket ^ 1
}

/// Where to put a hint: the first of the two slots, unless it is taken.
fn free_slot(hints: &[usize], bucket: usize, none: usize) -> usize {
    if bucket < hints.len() && hints[bucket] != none {
        beside(bucket)
    } else {
        bucket
    }
}

/// How many hints are made for so many assertions: a power of two.
fn count_hints(assertions: usize) -> usize {
    assertions
        .saturating_mul(HINTS_EACH)
        .checked_next_power_of_two()
        .unwrap_or(1)
}

/// Whether a label has this place.
fn is_place(places: &HashMap<Vec<u8>, usize, RandomState>, label: &[u8], place: usize) -> bool
    ensures { result ≡ true → get_by (λ k. bytes_eq label.now k.items) places.now ≡ Some place }
{
    match places.get(label) {
        None => false,
        Some(first) => *first == place,
    }
}

/// Hints for the quick hashes of labels: each is the place of the first assertion with its label, or none.
fn hints_of(
    alloc: Global,
    seed: FoldHasher,
    places: &HashMap<Vec<u8>, usize, RandomState>,
    assertions: &[Assertion],
) -> Result<Vec<usize>, AllocError>
    requires { (label : List ℕ) → get_by (λ k. bytes_eq label k.items) places.now ≡ place_from 0 label assertions.now }
    ensures { IfOk result (λ hints. All (IsHint assertions.now) hints.items) }
{
    let none = assertions.len();
    let mut hints = vec![in alloc; none; count_hints(none)]?;
    for (i, assertion) in assertions.iter().enumerate() {
        let label = assertion.label.as_slice();
        let slot = free_slot(hints.as_slice(), bucket(seed, hints.len(), label), none);
        if slot < hints.len() && is_place(places, label, i) {
            hints[slot] = i;
        }
    }
    Ok(hints)
}

/// The places of the labels of assertions. Contracts see the assertions.
///
/// Most labels are found by a hint: a place for a quick hash of the label, whose assertion has this label or another. The others are
/// found by a map whose hashes nobody can aim at.
#[derive(Drop)]
pub(crate) struct Places<'a> {
    assertions: &'a [Assertion],
    map: HashMap<Vec<u8>, usize, RandomState>,
    seed: FoldHasher,
    hints: Vec<usize>,
}

impl<'a> Model for Places<'a> {
    ghost use Rattle.std.specs.Prelude.{◌≡◌, List, ℕ, All};
    ghost use Rattle.std.specs.HashMap.{get_by};
    ghost use Rattle.std.specs.Str.{bytes_eq};
    ghost use Rattle.mmsyntax.specs.declared.statement.Assertion.{Assertion};
    ghost use Rattle.proofcheck.specs.Reports.{place_from, IsHint};

    ghost Value = { List Assertion };

    ghost view = { λ p. p.assertions.now };

    ghost invariant = { λ p. ((label : List ℕ) → get_by (λ k. bytes_eq label k.items) p.map ≡ place_from 0 label p.assertions.now)
        × All (IsHint p.assertions.now) p.hints.items };
}

impl<'a> Places<'a> {
    /// The places of the labels of these assertions.
    pub(crate) fn new(
        alloc: Global,
        keys: RandomState,
        assertions: &'a [Assertion],
    ) -> Result<Places<'a>, AllocError>
        ensures { IfOk result (λ places. places ≡ assertions.now) }
    {
        let map = places_of(alloc, keys, assertions)?;
        let mut seed = FoldHasher::default();
        seed.write_u64(keys.hash_one(0u64));
        let hints = hints_of(alloc, seed, &map, assertions)?;
        Ok(Places {
            assertions,
            map,
            seed,
            hints,
        })
    }

    /// The place that a slot hints at, if its assertion has the label.
    fn hinted_by(&self, slot: usize, label: &[u8]) -> Option<usize>
        ensures { IfSome result (λ i. place_from 0 label.now self.now ≡ Some i) }
    {
        let hint = *self.hints.get(slot)?;
        let assertion = self.assertions.get(hint)?;
        if assertion.label.as_slice() == label {
            Some(hint)
        } else {
            None
        }
    }

    /// The place that is hinted at for a label, if there is such a hint.
    fn hinted(&self, label: &[u8]) -> Option<usize>
        ensures { IfSome result (λ i. place_from 0 label.now self.now ≡ Some i) }
    {
        let slot = bucket(self.seed, self.hints.len(), label);
        match self.hinted_by(slot, label) {
            Some(place) => Some(place),
            None => self.hinted_by(beside(slot), label),
        }
    }

    /// The place of the first assertion with a label.
    pub(crate) fn find(&self, label: &[u8]) -> Option<usize>
        ensures { result ≡ place_from 0 label.now self.now }
    {
        match self.hinted(label) {
            Some(place) => Some(place),
            None => self.map.get(label).copied(),
        }
    }
}
