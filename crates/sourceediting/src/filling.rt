//! What is put into a source: theorems that were added, and those that stand elsewhere then. Each stands behind what stands before it in
//! the library's order, or else in front of the first of those that stay; but one that goes in front of the block which it leaves stands
//! there, and so does what is put behind it. None stands in front of what declares a symbol that it mentions, nor between a description
//! and what that describes.

ghost use Rattle.std.specs.Prelude.{◌≡◌, ◌<◌, ◌⊎◌, ◌+◌, ℕ, IfErr, IfOk, IfSome, OnOk, Some, length, map};
ghost use Rattle.items.specs.Reading.{AreItems};
ghost use Rattle.sourceediting.specs.Filled.{ArePuts, IsFilledTo};
ghost use Rattle.sourceediting.specs.Refusals.{HasCause, OnUnwritten};
ghost use Rattle.sourceediting.specs.Views.{seen_living};

use crate::declaring::{Declarations, Declared, later, needed_by};
use crate::following::Followed;
use crate::holding::{Held, held_behind};
use crate::outline::{Outline, Stretch};
use crate::refusal::Refusal;
use arranging::{Coming, Why};
use giving::LabelMap;
use items::Item;
use leaving::Part;
use library::Ranked;
use sourcewriting::Written;
use std::alloc::{AllocError, Global};
use std::collections::HashMap;
use std::hash::RandomState;

/// A source by its items.
pub(crate) struct Known<'s> {
    pub text: &'s [u8],
    pub items: Vec<Item<'s>>,
    /// The part that each plays, where nothing leaves.
    pub parts: Vec<Part>,
    pub outline: Outline<'s>,
    pub declarations: Declarations<'s>,
}

// Proved once: a derived drop is written out at each exit of a function that holds such a value.
impl<'s> Drop for Known<'s> {
    fn drop(self) {
        let Known {
            text: _,
            items: _,
            parts: _,
            outline: _,
            declarations: _,
        } = self;
    }
}

impl<'s> Known<'s> {
    /// Behind so many items: a byte of the text.
    fn behind(&self, count: usize) -> usize {
        match count.checked_sub(1) {
            Some(last) => self.items.get(last).map_or(0, |item| item.end),
            None => 0,
        }
    }

    /// The text of items.
    fn text_of(&self, stretch: Stretch) -> &'s [u8] {
        let range = self.behind(stretch.first)..self.behind(stretch.end);
        self.text.get(range).unwrap_or(b"")
    }

    /// The last place up to this one that doesn't stand between a description and what that describes.
    fn apart(&self, place: usize) -> usize {
        let mut at = place;
        for part in self.parts.as_slice().iter().take(place).rev() {
            if *part != Part::Description {
                break;
            }
            at = at.saturating_sub(1);
        }
        at
    }
}

/// One that is put in.
#[derive(Drop)]
pub(crate) struct Piece<'x> {
    /// Its label in the source: none of one that is added.
    pub source: Option<&'x [u8]>,
    /// The text in front of the items that go along, and that behind them.
    pub text: Written,
    /// The items that go along.
    pub unit: Stretch,
    /// Whether it goes in front of the block which it leaves.
    pub is_in_front: bool,
    /// Of the names that it mentions, the one that is declared last.
    needed: Option<Declared<'x>>,
}

impl<'x> Piece<'x> {
    /// One with this label in the source, if it has one, and with these items of the source between its text.
    pub(crate) fn new(
        known: &Known<'x>,
        source: Option<&'x [u8]>,
        text: Written,
        unit: Stretch,
        is_in_front: bool,
    ) -> Piece<'x> {
        let declarations = &known.declarations;
        let front = needed_by(declarations, text.front.as_slice());
        let inside = needed_by(declarations, known.text_of(unit));
        let back = needed_by(declarations, text.back.as_slice());
        Piece {
            source,
            text,
            unit,
            is_in_front,
            needed: later(later(front, inside), back),
        }
    }
}

/// Those that are put in, by their labels in the library now.
pub(crate) type Texts<'x> = HashMap<&'x [u8], Piece<'x>, RandomState>;

/// The labels in the source of those that stay, by those in the library now.
fn staying_by_now<'x>(
    alloc: Global,
    keys: RandomState,
    living: &[Followed<'x>],
    moving: &LabelMap<'_>,
) -> Result<HashMap<&'x [u8], &'x [u8], RandomState>, AllocError> {
    let mut labels = HashMap::with_hasher(alloc, keys);
    for followed in living {
        if let Some(source) = followed.source
            && moving.text_for(source).is_none()
        {
            labels.insert(followed.now, source)?;
        }
    }
    Ok(labels)
}

/// An assertion of the library that stays.
#[derive(Clone, Copy)]
struct Staying {
    /// So many items stand in front of it.
    place: usize,
    /// The outermost block around it, or else itself with what describes it.
    whole: Stretch,
}

/// Where the assertion with a label stands. None where it isn't there.
fn staying_at(
    outline: &Outline<'_>,
    numbers: &HashMap<&[u8], usize, RandomState>,
    label: &[u8],
) -> Option<Staying> {
    let number = numbers.get(label)?;
    let standing = outline.assertions.get(*number)?;
    Some(Staying {
        place: standing.place,
        whole: outline.whole(standing),
    })
}

/// Where the assertions of a library stand that stay, in the library's order. None for the others.
fn staying_of(
    alloc: Global,
    keys: RandomState,
    known: &Known<'_>,
    living: &[Followed<'_>],
    moving: &LabelMap<'_>,
    entries: &[Ranked],
) -> Result<Vec<Option<Staying>>, AllocError> {
    let labels = staying_by_now(alloc, keys, living, moving)?;
    let numbers = known.outline.by_label(alloc, keys)?;
    let mut places = Vec::new(alloc);
    for entry in entries {
        let staying = match labels.get(entry.assertion.label.as_slice()) {
            Some(label) => staying_at(&known.outline, &numbers, label),
            None => None,
        };
        places.push(staying)?;
    }
    Ok(places)
}

/// The first of these that stays.
fn first_of(places: &[Option<Staying>]) -> Option<Staying> {
    for staying in places {
        if staying.is_some() {
            return *staying;
        }
    }
    None
}

/// Puts those that come behind so many others in front of a block which the first of them leaves.
fn put_in_front(comings: &mut [Coming<'_>], first: usize, place: usize, block: Stretch) {
    for coming in comings.iter_mut().skip(first) {
        coming.place = place;
        coming.why = Why::Block(block.first, block.end);
    }
}

/// What is put in, in the order of its places.
#[derive(Drop)]
pub(crate) struct Puts<'t> {
    pub comings: Vec<Coming<'t>>,
    /// Of each its number among the library's assertions, counted from 0.
    pub numbers: Vec<usize>,
}

/// How far the library's assertions were walked over, in its order.
#[derive(Drop)]
struct Filling<'t> {
    comings: Vec<Coming<'t>>,
    /// Of each its number among the library's assertions, counted from 0.
    numbers: Vec<usize>,
    /// Where the last of those ends that stay, or the declaration of a name that one mentions which was put in.
    at: usize,
    /// Which of these it is.
    why: Why<'t>,
    /// How many come before those that wait for the next that stays.
    waiting: Option<usize>,
    /// The last one that was put in farther behind, for what it mentions.
    held: Option<Held<'t>>,
}

impl<'t> Filling<'t> {
    /// Before any of them.
    fn new(alloc: Global, known: &Known<'_>, first: Option<Staying>) -> Filling<'t>
        ensures { IsFilledTo 0 result }
    {
        let (at, why) = match first {
            Some(first) => (known.apart(first.whole.first), Why::First(first.place)),
            None => (known.apart(known.items.len()), Why::Alone),
        };
        Filling {
            comings: Vec::new(alloc),
            numbers: Vec::new(alloc),
            at,
            why,
            waiting: None,
            held: None,
        }
    }

    /// Goes behind the declaration of what one mentions that is put in, and has this number.
    fn go_behind(&mut self, number: usize, needed: Declared<'t>)
        ensures comings { self.new.comings ≡ self.old.comings }
        ensures numbers { self.new.numbers ≡ self.old.numbers }
        ensures held { IfSome self.new.held (λ h. (self.old.held ≡ Some h)
            ⊎ ((h.number ≡ number) × (h.coming ≡ length self.old.comings.items))) }
    {
        if self.at < needed.from {
            self.at = needed.from;
            let item = needed.from.saturating_sub(1);
            self.why = Why::Declared(item, needed.name, self.comings.len());
            let coming = self.comings.len();
            self.held = Some(Held {
                number,
                coming,
                needed,
            });
        }
    }

    /// One that is put in, which has this number.
    fn put(&mut self, number: usize, piece: &'t Piece<'_>) -> Result<(), AllocError>
        requires { IsFilledTo number self.old }
        ensures { OnOk result (IsFilledTo (number + 1) self.new) }
    {
        if let Some(needed) = piece.needed {
            self.go_behind(number, needed);
        }
        if piece.is_in_front && self.waiting.is_none() {
            self.waiting = Some(self.comings.len());
        }
        self.comings.push(Coming {
            source: piece.source,
            place: self.at,
            why: self.why,
            front: piece.text.front.as_slice(),
            first: piece.unit.first,
            end: piece.unit.end,
            back: piece.text.back.as_slice(),
        })?;
        self.numbers.push(number)?;
        Ok(())
    }

    /// The one that was put in farther behind, and would have to stand in front of one that stays, if there is one.
    fn held_before(&self, staying: Staying) -> Option<Held<'t>>
        ensures { IfSome result (λ h. self.now.held ≡ Some h) }
    {
        match self.held {
            Some(held) if staying.whole.first < held.needed.from => Some(held),
            _ => None,
        }
    }

    /// One that stays, in front of which something may be put in at this place.
    fn pass(&mut self, staying: Staying, apart: usize)
        ensures { (count : ℕ) → IsFilledTo count self.old → IsFilledTo count self.new }
    {
        let whole = staying.whole;
        if let Some(first) = self.waiting {
            let place = self.at.max(apart);
            put_in_front(self.comings.as_mut_slice(), first, place, whole);
        }
        self.waiting = None;
        self.held = None;
        if self.at <= whole.end {
            self.at = whole.end;
            self.why = Why::Behind(staying.place);
        }
    }
}

/// Why one that was put in can't stand in front of one that stays, which has this number in the library. None where it can.
fn refused_before(
    alloc: Global,
    keys: RandomState,
    known: &Known<'_>,
    living: &[Followed<'_>],
    entries: &[Ranked],
    filling: &Filling<'_>,
    number: usize,
    staying: Staying,
) -> Result<Option<Refusal>, AllocError>
    requires items { AreItems known.now.text.now known.now.items.items }
    requires within { number < length entries.now }
    requires filled { IsFilledTo number filling.now }
    ensures cause { IfOk result (λ made. IfSome made
        (HasCause (seen_living living.now) (map (λ r. r.assertion) entries.now) known.now.text.now)) }
    ensures unwritten { IfOk result (λ made. IfSome made (OnUnwritten (λ _. ⊥))) }
{
    let Some(held) = filling.held_before(staying) else {
        return Ok(None);
    };
    let comings = filling.comings.as_slice();
    let next = (number, staying.place);
    held_behind(alloc, keys, known, living, entries, comings, held, next)
}

/// What is put in, in the order of its places.
///
/// # Errors
///
/// One that would have to stand in front of what declares a name which it mentions, with its neighbour; want of memory.
pub(crate) fn puts_of<'t>(
    alloc: Global,
    keys: RandomState,
    known: &Known<'_>,
    living: &[Followed<'_>],
    moving: &LabelMap<'_>,
    entries: &[Ranked],
    texts: &'t Texts<'_>,
) -> Result<Puts<'t>, Refusal>
    requires { AreItems known.now.text.now known.now.items.items }
    ensures puts { IfOk result (ArePuts (length entries.now)) }
    ensures refused { IfErr result (HasCause (seen_living living.now) (map (λ r. r.assertion) entries.now) known.now.text.now) }
    ensures unwritten { IfErr result (OnUnwritten (λ _. ⊥)) }
{
    let places = staying_of(alloc, keys, known, living, moving, entries)?;
    let mut filling = Filling::new(alloc, known, first_of(places.as_slice()));
    for (number, entry) in entries.iter().enumerate() {
        let label = entry.assertion.label.as_slice();
        if let Some(piece) = texts.get(label) {
            filling.put(number, piece)?;
        } else if let Some(Some(staying)) = places.get(number) {
            let why = refused_before(
                alloc, keys, known, living, entries, &filling, number, *staying,
            )?;
            if let Some(why) = why {
                return Err(why);
            }
            filling.pass(*staying, known.apart(staying.whole.first));
        }
    }
    let Filling {
        comings,
        numbers,
        ..
    } = filling;
    Ok(Puts { comings, numbers })
}
