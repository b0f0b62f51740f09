//! Which assertions are to stand elsewhere in a source: those that were moved, and of a block in the middle of which something is put those
//! in front of it or those behind it.

ghost use Rattle.std.specs.Prelude.{◌≡◌, ◌++◌, ◌∷◌, [], List, All, Contains, IfOk, IfSome, OnOk, Some};
ghost use Rattle.sourceediting.specs.Following.{Followed as FollowedOf};
ghost use Rattle.sourceediting.specs.Refusals.{IsKnownAs};
ghost use Rattle.sourceediting.specs.Views.{seen_followed, seen_living, AreKnown, AreMembers, HasKnown};

use crate::citing::proof_labels;
use crate::following::Followed;
use crate::outline::Outline;
use crate::rearranging::Rearranged;
use giving::LabelMap;
use library::Ranked;
use source::Declared;
use std::alloc::{AllocError, Global};
use std::collections::HashMap;
use std::hash::RandomState;

/// The places of assertions, by their labels.
type Places<'x> = HashMap<&'x [u8], usize, RandomState>;

/// An assertion of the source: its label there, and in the library now.
type Member<'x> = (&'x [u8], &'x [u8]);

/// Those that are to stand elsewhere.
pub(crate) struct Moving<'x> {
    /// Their labels in the source, with those in the library now.
    pub labels: LabelMap<'x>,
    /// The same of those that go in front of the block that they leave.
    pub in_front: LabelMap<'x>,
}

// Proved once: a derived drop is written out at each exit of a function that holds such a value.
impl<'x> Drop for Moving<'x> {
    fn drop(self) {
        let Moving {
            labels: _,
            in_front: _,
        } = self;
    }
}

/// Whether one of these has one of these labels in the source.
fn have_one(members: &[Member<'_>], labels: &LabelMap<'_>) -> bool {
    for (source, _) in members {
        if labels.text_for(source).is_some() {
            return true;
        }
    }
    false
}

/// A block of the source of which assertions stay in their order.
struct Row<'x> {
    /// The outermost block; none outside of blocks.
    block: Option<usize>,
    members: Vec<Member<'x>>,
    /// How many of them stand in front of the first thing that is put among them, if something is.
    first: Option<usize>,
    /// How many stand in front of the last.
    last: usize,
    /// Whether something is put behind the last member.
    is_put: bool,
}

// Proved once: a derived drop is written out at each exit of a function that holds such a value.
impl<'x> Drop for Row<'x> {
    fn drop(self) {
        let Row {
            block: _,
            members: _,
            first: _,
            last: _,
            is_put: _,
        } = self;
    }
}

impl<'x> Row<'x> {
    /// A block of which no member was met.
    fn new(alloc: Global, block: Option<usize>) -> Row<'x>
        ensures { result.members.items ≡ [] }
    {
        Row {
            block,
            members: Vec::new(alloc),
            first: None,
            last: 0,
            is_put: false,
        }
    }

    /// One more member.
    fn push(&mut self, member: Member<'x>) -> Result<(), AllocError>
        ensures { OnOk result (self.new.members.items ≡ self.old.members.items ++ member.entry ∷ []) }
    {
        if self.is_put {
            self.last = self.members.len();
            self.first = self.first.or(Some(self.last));
            self.is_put = false;
        }
        self.members.push(member)?;
        Ok(())
    }

    /// Whether an assertion in this outermost block is of this row.
    fn goes_on(&self, block: Option<usize>) -> bool {
        block.is_some() && block == self.block
    }

    /// The members in front of the last thing that is put among them.
    fn front(&self) -> &[Member<'x>]
        ensures { (living : List FollowedOf) → AreMembers living self.now.members.items
            → AreMembers living result.now }
    {
        let end = self.last.min(self.members.len());
        &self.members.as_slice()[..end]
    }

    /// The members behind the first thing that is put among them.
    fn back(&self) -> &[Member<'x>]
        ensures { (living : List FollowedOf) → AreMembers living self.now.members.items
            → AreMembers living result.now }
    {
        let count = self.members.len();
        let begin = self.first.unwrap_or(count).min(count);
        &self.members.as_slice()[begin..]
    }

    /// Whether those in front go in front of the block: where no theorem that was taken as an axiom is among them, and those behind are
    /// more, or can't go behind it.
    fn front_leaves(&self, told: &LabelMap<'_>, cited: &LabelMap<'_>) -> bool {
        let back = self.back();
        !have_one(self.front(), told)
            && (self.last < back.len() || have_one(back, told) || have_one(back, cited))
    }
}

/// The assertions of the opening, by their labels now: those that were added have none.
fn opened_by_now<'x>(
    alloc: Global,
    keys: RandomState,
    living: &[Followed<'x>],
) -> Result<Places<'x>, AllocError> {
    let mut places = HashMap::with_hasher(alloc, keys);
    for (k, followed) in living.iter().enumerate() {
        if followed.source.is_some() {
            places.insert(followed.now, k)?;
        }
    }
    Ok(places)
}

/// What became of the assertion of the opening that has this label now, if one has it.
fn opened_as<'l, 'x>(
    opened: &Places<'_>,
    living: &'l [Followed<'x>],
    label: &[u8],
) -> Option<&'l Followed<'x>>
    ensures { IfSome result (λ f. Contains (seen_living living.now) (seen_followed f.now)) }
{
    match opened.get(label) {
        Some(place) => living.get(*place),
        None => None,
    }
}

/// Whether the assertions of the opening stand in another order in the edited library.
fn has_another_order(opened: &Places<'_>, entries: &[Ranked]) -> bool {
    let mut last = 0;
    for entry in entries {
        if let Some(place) = opened.get(entry.assertion.label.as_slice()) {
            if *place < last {
                return true;
            }
            last = *place;
        }
    }
    false
}

/// How far the assertions of the edited library were walked over, in its order.
struct LibraryWalk<'x> {
    /// Those that were moved.
    moved: Vec<Member<'x>>,
    /// The blocks among whose members something is put.
    parted: Vec<Row<'x>>,
    row: Row<'x>,
}

// Proved once: a derived drop is written out at each exit of a function that holds such a value.
impl<'x> Drop for LibraryWalk<'x> {
    fn drop(self) {
        let LibraryWalk {
            moved: _,
            parted: _,
            row: _,
        } = self;
    }
}

/// Those of these rows that leave them, and of these those that go in front of their block.
fn part<'x>(
    rows: &[Row<'x>],
    told: &LabelMap<'_>,
    cited: &LabelMap<'_>,
    leaving: &mut Vec<Member<'x>>,
    in_front: &mut Vec<Member<'x>>,
) -> Result<(), AllocError>
    ensures { (living : List FollowedOf) → All (λ r. AreMembers living r.members.items) rows.now
        → AreMembers living leaving.old.items → OnOk result (AreMembers living leaving.new.items) }
{
    for row in rows {
        if row.front_leaves(told, cited) {
            leaving.extend_from_slice(row.front())?;
            in_front.extend_from_slice(row.front())?;
        } else {
            leaving.extend_from_slice(row.back())?;
        }
    }
    Ok(())
}

impl<'x> LibraryWalk<'x> {
    /// Before any assertion.
    fn new(alloc: Global) -> LibraryWalk<'x>
        ensures { (living : List FollowedOf) → HasKnown living result }
    {
        LibraryWalk {
            moved: Vec::new(alloc),
            parted: Vec::new(alloc),
            row: Row::new(alloc, None),
        }
    }

    /// One that was moved.
    fn put_moved(&mut self, member: Member<'x>) -> Result<(), AllocError>
        ensures { (living : List FollowedOf) → HasKnown living self.old → IsKnownAs living member.entry.1.now (Some member.entry.0.now)
            → OnOk result (HasKnown living self.new) }
    {
        self.row.is_put = true;
        self.moved.push(member)?;
        Ok(())
    }

    /// Another row begins, if what comes next isn't in the block of this one.
    fn go_on(&mut self, alloc: Global, block: Option<usize>) -> Result<(), AllocError>
        ensures { (living : List FollowedOf) → HasKnown living self.old → OnOk result (HasKnown living self.new) }
    {
        if self.row.goes_on(block) {
            return Ok(());
        }
        self.begin(Row::new(alloc, block))
    }

    /// One that wasn't, in this outermost block.
    fn pass(
        &mut self,
        alloc: Global,
        block: Option<usize>,
        member: Member<'x>,
    ) -> Result<(), AllocError>
        ensures { (living : List FollowedOf) → HasKnown living self.old → IsKnownAs living member.entry.1.now (Some member.entry.0.now)
            → OnOk result (HasKnown living self.new) }
    {
        self.go_on(alloc, block)?;
        self.row.push(member)?;
        Ok(())
    }

    /// The next assertion of the edited library, of which this became if it was there at the opening. `is_other` says whether the order is
    /// another one than the old.
    fn take(
        &mut self,
        alloc: Global,
        outline: &Outline<'_>,
        places: &Places<'_>,
        followed: Option<&Followed<'x>>,
        is_other: bool,
    ) -> Result<(), AllocError>
        ensures { (living : List FollowedOf) → HasKnown living self.old
            → IfSome followed.entry (λ f. Contains living (seen_followed f.now)) → OnOk result (HasKnown living self.new) }
    {
        let Some(followed) = followed else {
            self.row.is_put = true;
            return Ok(());
        };
        let Some(source) = followed.source else {
            return Ok(());
        };
        let member = (source, followed.now);
        if is_other && followed.moved {
            return self.put_moved(member);
        }
        let place = places.get(source);
        let block = place.and_then(|place| outline.outermost_at(*place));
        self.pass(alloc, block, member)
    }

    /// Another row begins, and the former ends.
    fn begin(&mut self, next: Row<'x>) -> Result<(), AllocError>
        ensures { (living : List FollowedOf) → HasKnown living self.old → next.entry.members.items ≡ []
            → OnOk result (HasKnown living self.new) }
    {
        let row = std::mem::replace(&mut self.row, next);
        if row.first.is_some() {
            self.parted.push(row)?;
        }
        Ok(())
    }

    /// Those that were moved, and those that leave their rows.
    fn into_moving(
        self,
        alloc: Global,
        keys: RandomState,
        told: &LabelMap<'_>,
        cited: &LabelMap<'_>,
    ) -> Result<Moving<'x>, AllocError>
        ensures { (living : List FollowedOf) → HasKnown living self.entry → IfOk result (λ made. AreKnown living made.labels) }
    {
        let LibraryWalk {
            moved: mut leaving,
            parted,
            row: _,
        } = self;
        let mut in_front = Vec::new(alloc);
        part(parted.as_slice(), told, cited, &mut leaving, &mut in_front)?;
        drop(parted);
        let labels = LabelMap::new(alloc, keys, leaving)?;
        let in_front = LabelMap::new(alloc, keys, in_front)?;
        Ok(Moving { labels, in_front })
    }
}

/// Walks over the assertions of the edited library. Where the order is the old one nothing was moved.
fn walk_over<'x>(
    alloc: Global,
    keys: RandomState,
    outline: &Outline<'_>,
    places: &Places<'_>,
    edits: &Rearranged<'x>,
) -> Result<LibraryWalk<'x>, AllocError>
    ensures { IfOk result (HasKnown (seen_living edits.now.planned.living.now)) }
{
    let entries = edits.planned.edited.entries();
    let opened = opened_by_now(alloc, keys, edits.planned.living)?;
    let is_other = has_another_order(&opened, entries);
    let mut walk = LibraryWalk::new(alloc);
    for entry in entries {
        let label = entry.assertion.label.as_slice();
        let followed = opened_as(&opened, edits.planned.living, label);
        walk.take(alloc, outline, places, followed, is_other)?;
    }
    walk.begin(Row::new(alloc, None))?;
    Ok(walk)
}

/// Of each block of a source: whether something is put among its members.
fn are_parted(
    alloc: Global,
    outline: &Outline<'_>,
    parted: &[Row<'_>],
) -> Result<Vec<bool>, AllocError> {
    let mut flags = vec![in alloc; false; outline.blocks()]?;
    for row in parted {
        if let Some(block) = row.block
            && let Some(flag) = flags.get_mut(block)
        {
            *flag = true;
        }
    }
    Ok(flags)
}

/// Whether the assertion at a place stands in one of these outermost blocks.
fn stands_in<'a, D: Declared<'a>>(
    declared: &D,
    outline: &Outline<'_>,
    places: &Places<'_>,
    blocks: &[bool],
    place: usize,
) -> bool {
    let Some(label) = declared.label(place) else {
        return false;
    };
    let block = places
        .get(label)
        .and_then(|place| outline.outermost_at(*place));
    match block {
        Some(block) => blocks.get(block).copied().unwrap_or(false),
        None => false,
    }
}

/// Labels, each beside itself.
fn push_labels<'a>(pairs: &mut Vec<Member<'a>>, labels: &[&'a [u8]]) -> Result<(), AllocError> {
    for label in labels {
        pairs.push((*label, *label))?;
    }
    Ok(())
}

/// The labels that proofs name in these outermost blocks, of assertions that aren't the library's, each beside itself.
fn cited_in<'a, D: Declared<'a>>(
    alloc: Global,
    declared: &D,
    outline: &Outline<'_>,
    places: &Places<'_>,
    blocks: &[bool],
    own: &[bool],
) -> Result<Vec<Member<'a>>, AllocError> {
    let mut pairs = Vec::new(alloc);
    for (place, is_own) in own.iter().enumerate() {
        if *is_own || !stands_in(declared, outline, places, blocks, place) {
            continue;
        }
        if let Some(proof) = declared.proof(place) {
            push_labels(&mut pairs, proof_labels(proof))?;
        }
    }
    Ok(pairs)
}

/// The labels that proofs name in the blocks of these rows, of assertions that aren't the library's.
fn cited_beside<'a, D: Declared<'a>>(
    alloc: Global,
    keys: RandomState,
    declared: &D,
    outline: &Outline<'_>,
    places: &Places<'_>,
    parted: &[Row<'_>],
    own: &[bool],
) -> Result<LabelMap<'a>, AllocError> {
    let blocks = are_parted(alloc, outline, parted)?;
    let pairs = cited_in(alloc, declared, outline, places, blocks.as_slice(), own)?;
    LabelMap::new(alloc, keys, pairs)
}

/// The assertions of a source that are to stand elsewhere.
///
/// Where something is put between members of a block, those in front of it leave the block, or those behind it: whichever are fewer and
/// can. None that a proof in the block cites which isn't the library's can go behind it, and no theorem that was taken as an axiom can
/// leave it.
pub(crate) fn moving_of<'x, 'a, D: Declared<'a>>(
    alloc: Global,
    keys: RandomState,
    declared: &D,
    outline: &Outline<'_>,
    edits: &Rearranged<'x>,
) -> Result<Moving<'x>, AllocError>
    ensures { IfOk result (λ made. AreKnown (seen_living edits.now.planned.living.now) made.labels) }
{
    let places = outline.by_label(alloc, keys)?;
    let walk = walk_over(alloc, keys, outline, &places, edits)?;
    let parted = walk.parted.as_slice();
    let own = edits.planned.own;
    let cited = cited_beside(alloc, keys, declared, outline, &places, parted, own)?;
    walk.into_moving(alloc, keys, edits.planned.told, &cited)
}
