//! Whether what is put into a source may stand at its place, and is what it is said to be.

ghost use Rattle.std.specs.Prelude.{◌≡◌, ◌⊎◌, ◌≤◌, [], ◌∷◌, ◌++◌, ◌<◌, All, List, ℕ, Some, IfNone, IfOk, IfSome, IsTrue, length, slice_range, take};
ghost use Rattle.source.specs.Scopes.{is_in};
ghost use Rattle.leaving.specs.Leaving.{open_behind, IsBlock};
ghost use Rattle.items.specs.Items.{Item as Pieces};
ghost use Rattle.arranging.specs.Parts.{Edited};
ghost use Rattle.arranging.specs.Arranged.{AsItStood, IsParted, IsFrom, IsDescription, ends_described, labels_asserted, label_in_source};
ghost use Rattle.arranging.specs.Places.{AreDepths, IsFree, IsKnown, IsKnownOf, IsWhole, MayCome};

use crate::coming::Coming;
use crate::group::is_written;
use crate::sections::first_kept;
use giving::LabelMap;
use items::{Item, Kind};
use leaving::Part;
use std::alloc::{AllocError, Global};

/// How many blocks are open behind an item: none where one is closed that wasn't opened.
fn depth_behind(depth: usize, part: Part) -> Option<usize>
    ensures { IfSome result (λ now. open_behind depth (part ∷ []) ≡ Some now) }
{
    match part {
        Part::Opening => depth.checked_add(1),
        Part::Closing => depth.checked_sub(1),
        _ => Some(depth),
    }
}

/// The same, where it may be unknown how many are open in front of the item: then none is known behind it either.
fn depth_then(depth: Option<usize>, part: Part) -> Option<usize>
    ensures { IfSome result (λ now. (before : ℕ) × (depth ≡ Some before) × (open_behind before (part ∷ []) ≡ Some now)) }
{
    depth_behind(depth?, part)
}

/// How many blocks are open behind items.
fn open_behind(parts: &[Part]) -> Option<usize>
    ensures { IfSome result (λ depth. open_behind 0 parts.now ≡ Some depth) }
{
    let mut depth = 0;
    for part in parts {
        depth = depth_behind(depth, *part)?;
    }
    Some(depth)
}

/// Whether items are a block.
pub(crate) fn is_block(parts: &[Part]) -> bool
    ensures { IsTrue result → IsBlock parts.now }
{
    match parts {
        [Part::Opening, inside @ .., Part::Closing] => open_behind(inside) == Some(0),
        _ => false,
    }
}

/// Whether a description is the last of these.
fn ends_described(parts: &[Part]) -> bool
    ensures { result ≡ ends_described parts.now }
{
    match parts.last() {
        Some(last) => matches!(last, Part::Description),
        None => false,
    }
}

/// Whether items are what describes the one behind them, or nothing, and others in front of them.
fn is_description(before: &[Part], parts: &[Part]) -> bool
    ensures { IsTrue result → IsDescription before.now parts.now }
{
    match parts {
        [Part::Description] => true,
        [] => !ends_described(before),
        _ => false,
    }
}

/// Whether the last of these is described by all that is in front of it, if there is something, behind others.
fn is_described(before: &[Part], parts: &[Part]) -> bool
    ensures { IsTrue result → (x : Part) × (ps : List Part) × (parts.now ≡ ps ++ x ∷ []) × IsDescription before.now ps }
{
    match parts {
        [described @ .., _] => is_description(before, described),
        [] => false,
    }
}

/// Whether items are a block, or one item with what describes it, behind others.
fn is_whole(before: &[Part], parts: &[Part]) -> bool
    ensures { IsTrue result → IsWhole before.now parts.now }
{
    is_block(parts) || is_described(before, parts)
}

/// How many blocks are open in front of each item, and behind the last; none from where one is closed that wasn't opened.
pub(crate) fn depths_of(alloc: Global, parts: &[Part]) -> Result<Vec<Option<usize>>, AllocError>
    ensures { IfOk result (λ made. AreDepths parts.now made.items) }
{
    let mut depths = Vec::with_capacity(alloc, parts.len())?;
    let mut depth = Some(0);
    depths.push(depth)?;
    for part in parts {
        depth = depth_then(depth, *part);
        depths.push(depth)?;
    }
    Ok(depths)
}

/// What is known of the items of a source.
pub(crate) struct Checker<'c> {
    /// The labels of those that stand elsewhere then.
    pub moving: &'c LabelMap<'c>,
    /// Those that were moved.
    pub moved: &'c LabelMap<'c>,
    /// Those of all that live in the library.
    pub library: &'c LabelMap<'c>,
    pub text: &'c [u8],
    pub items: &'c [Item<'c>],
    pub parts: &'c [Part],
    /// How many stand in front of the first of the library's that keeps its place, if one does.
    pub first_kept: Option<usize>,
    /// How many blocks are open in front of each, and behind the last.
    depths: Vec<Option<usize>>,
}

// Proved once: a derived drop is written out at each exit of a function that holds such a value.
impl<'c> Drop for Checker<'c> {
    fn drop(self) {
        let Checker {
            moving: _,
            moved: _,
            library: _,
            text: _,
            items: _,
            parts: _,
            first_kept: _,
            depths: _,
        } = self;
    }
}

impl<'c> Checker<'c> {
    /// What is known of items, each of which plays a part.
    pub(crate) fn new(
        alloc: Global,
        moving: &'c LabelMap<'c>,
        moved: &'c LabelMap<'c>,
        library: &'c LabelMap<'c>,
        text: &'c [u8],
        items: &'c [Item<'c>],
        parts: &'c [Part],
    ) -> Result<Checker<'c>, AllocError>
        ensures { (e : Edited) (old : List Pieces) → IsKnownOf e text.now old moving.now moved.now library.now items.now parts.now
            → IfOk result (IsKnown e text.now old) }
    {
        let depths = depths_of(alloc, parts)?;
        Ok(Checker {
            moving,
            moved,
            library,
            text,
            items,
            parts,
            first_kept: first_kept(library, moving, items),
            depths,
        })
    }

    /// Whether no block is open in front of an item.
    fn is_outermost(&self, place: usize) -> bool
        ensures { (e : Edited) (source : List ℕ) (old : List Pieces) → IsKnown e source old self.now
            → IsTrue result → open_behind 0 (take place self.now.parts.now) ≡ Some 0 }
    {
        self.depths.get(place) == Some(&Some(0))
    }

    /// Whether the only assertion among items, from a place up to another, has this label.
    fn is_alone(&self, first: usize, end: usize, label: &[u8]) -> bool
        ensures { (e : Edited) (source : List ℕ) (old : List Pieces) → IsKnown e source old self.now
            → IsTrue result → labels_asserted (slice_range old first end) ≡ label.now ∷ [] }
    {
        let Some(items) = self.items.get(first..end) else {
            return false;
        };
        let mut is_found = false;
        for item in items {
            if let Kind::Assertion(other) = item.kind {
                if is_found || other != label {
                    return false;
                }
                is_found = true;
            }
        }
        is_found
    }

    /// Whether an assertion was moved.
    fn was_moved(&self, label: &[u8]) -> bool
        ensures { (e : Edited) (source : List ℕ) (old : List Pieces) → IsKnown e source old self.now
            → IsTrue result → IsTrue (is_in e.moved label.now) }
    {
        self.moved.text_for(label).is_some()
    }

    /// Whether an assertion goes as it stood.
    fn is_as_it_stood(&self, coming: Coming<'_>, label: &[u8]) -> bool
        ensures { (e : Edited) (source : List ℕ) (old : List Pieces) → IsKnown e source old self.now
            → IsTrue result → AsItStood e old label.now coming.entry }
    {
        let (Some(before), Some(unit)) = (
            self.parts.get(..coming.first),
            self.parts.get(coming.first..coming.end),
        ) else {
            return false;
        };
        if !self.was_moved(label)
            || !coming.front.is_empty()
            || !coming.back.is_empty()
            || !self.is_outermost(coming.first)
            || !self.is_alone(coming.first, coming.end, label)
        {
            return false;
        }
        is_whole(before, unit)
    }

    /// Whether a block is open in front of an item.
    fn is_inside(&self, place: usize) -> bool
        ensures { (e : Edited) (source : List ℕ) (old : List Pieces) → IsKnown e source old self.now
            → IsTrue result → open_behind 0 (take place self.now.parts.now) ≡ Some 0 → ⊥ }
    {
        match self.depths.get(place) {
            Some(Some(depth)) => *depth > 0,
            _ => false,
        }
    }

    /// Whether an assertion is written anew that leaves its block.
    fn is_parted(&self, coming: Coming<'_>, label: &[u8]) -> bool
        ensures { (e : Edited) (source : List ℕ) (old : List Pieces) → IsKnown e source old self.now
            → IsTrue result → IsParted e old label.now coming.entry }
    {
        let (Some(before), Some(unit), Some(item)) = (
            self.parts.get(..coming.first),
            self.parts.get(coming.first..coming.end),
            self.items.get(coming.end),
        ) else {
            return false;
        };
        let Kind::Assertion(other) = item.kind else {
            return false;
        };
        if other != label || !is_description(before, unit) || !is_written(coming) {
            return false;
        }
        self.is_inside(coming.end)
    }

    /// Whether what comes is what it is said to be.
    fn is_from(&self, coming: Coming<'_>) -> bool
        ensures { (e : Edited) (source : List ℕ) (old : List Pieces) → IsKnown e source old self.now
            → IsTrue result → IsFrom e old (label_in_source coming.entry) coming.entry }
    {
        match coming.source {
            None => coming.first == coming.end && is_written(coming),
            Some(label) => {
                self.moving.text_for(label).is_some()
                    && (self.is_as_it_stood(coming, label) || self.is_parted(coming, label))
            }
        }
    }

    /// Whether something may be put in at a place: outside of blocks, and not between a description and what that describes.
    pub(crate) fn is_free(&self, place: usize) -> bool
        ensures { (e : Edited) (source : List ℕ) (old : List Pieces) → IsKnown e source old self.now
            → IsTrue result → IsFree e old place }
    {
        match self.parts.get(..place) {
            Some(before) => self.is_outermost(place) && !ends_described(before),
            None => false,
        }
    }

    /// The number of the first of these that may not be put in, if one may not.
    pub(crate) fn first_misplaced(&self, comings: &[Coming<'_>]) -> Option<usize>
        ensures all { (e : Edited) (source : List ℕ) (old : List Pieces) → IsKnown e source old self.now → e.comings ≡ comings.now
            → IfNone result (All (MayCome e old) comings.now) }
        ensures one { IfSome result (λ number. number < length comings.now) }
    {
        for (number, coming) in comings.iter().enumerate() {
            if !self.is_free(coming.place)
                || !self.is_from(*coming)
                || !self.is_under(*coming, comings)
            {
                return Some(number);
            }
        }
        None
    }
}
