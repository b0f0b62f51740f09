//! Which blocks have nothing left, and where they end: found from the back of the items to their front.

ghost use Rattle.std.specs.Prelude.{◌≡◌, ℕ, ◌+◌, ◌^◌, ◌<◌, ◌≤◌, List, ◌∷◌, length, reverse, IfOk};
ghost use Rattle.leaving.specs.declared.part.Part.{Part as AnyPart};
ghost use Rattle.leaving.specs.Ends.{IsBehind, counted, left_of, rest_of, pop_left, left_at, lefts};

use crate::part::{Fate, Part};
use std::alloc::{AllocError, Global};

/// How many assertions stand among items.
#[derive(Clone, Copy)]
pub(crate) struct Counts {
    pub all: usize,
    /// Of those: that stay.
    pub staying: usize,
    /// That are put in elsewhere.
    pub moving: usize,
}

impl Counts {
    /// With one more item.
    fn with(self, part: Part) -> Counts
        requires room { self.all + 1 < 2 ^ 64 }
        requires within { (self.staying ≤ self.all) × (self.moving ≤ self.all) }
        ensures { result ≡ counted part self }
    {
        let Part::Assertion(fate) = part else {
            return self;
        };
        Counts {
            all: self.all + 1,
            staying: self.staying + usize::from(fate == Fate::Stays),
            moving: self.moving + usize::from(fate == Fate::Moves),
        }
    }
}

/// The end of a block: a `$}`.
#[derive(Clone, Copy)]
pub(crate) struct BlockEnd {
    /// Behind it: how many items stand up to there.
    pub end: usize,
    /// The assertions behind it.
    pub behind: Counts,
}

/// A block that has nothing left.
#[derive(Clone, Copy)]
pub(crate) struct Left {
    /// Behind its `$}`: how many items stand up to there.
    pub end: usize,
    /// Whether all its assertions are deleted.
    pub is_deleted: bool,
    /// Whether it has one assertion.
    pub is_single: bool,
}

/// A block that ends there, in front of whose inside these assertions stand behind its `${`: if it has nothing left.
fn left_of(block: BlockEnd, from: Counts) -> Option<Left>
    ensures { result ≡ left_of block from }
{
    if from.staying != block.behind.staying || from.all == block.behind.all {
        return None;
    }
    Some(Left {
        end: block.end,
        is_deleted: from.moving == block.behind.moving,
        is_single: from.all.saturating_sub(block.behind.all) == 1,
    })
}

/// What stands behind a place.
#[derive(Drop)]
pub(crate) struct Behind {
    /// The ends of the blocks that begin in front of it, the nearest last.
    pub ends: Vec<BlockEnd>,
    pub counts: Counts,
}

impl Behind {
    /// Goes over the `${` of a block in front of it: the block, if it has nothing left.
    fn open(&mut self) -> Option<Left>
        ensures left { result ≡ pop_left self.old }
        ensures ends { reverse self.new.ends.items ≡ rest_of (reverse self.old.ends.items) }
        ensures counts { self.new.counts ≡ self.old.counts }
    {
        let block = self.ends.pop()?;
        left_of(block, self.counts)
    }

    /// Goes over the item in front of it, which stands at that place: the block that begins there, if it has nothing left.
    fn take_in(&mut self, place: usize, part: Part) -> Result<Option<Left>, AllocError>
        requires place { place + 1 < 2 ^ 64 }
        requires room { self.old.counts.all + 1 < 2 ^ 64 }
        requires within { (self.old.counts.staying ≤ self.old.counts.all) × (self.old.counts.moving ≤ self.old.counts.all) }
        ensures { IfOk result (λ left. (total : ℕ) (xs : List AnyPart) → place + 1 + length xs ≡ total → IsBehind total xs self.old
            → (left ≡ left_at total part xs) × IsBehind total (part ∷ xs) self.new) }
    {
        match part {
            Part::Closing => {
                self.ends.push(BlockEnd {
                    end: place + 1,
                    behind: self.counts,
                })?;
                Ok(None)
            }
            Part::Opening => Ok(self.open()),
            _ => {
                self.counts = self.counts.with(part);
                Ok(None)
            }
        }
    }
}

/// Of each item: the block that begins there, if it has nothing left.
pub(crate) fn lefts_of(alloc: Global, parts: &[Part]) -> Result<Vec<Option<Left>>, AllocError>
    ensures { IfOk result (λ made. made.items ≡ lefts (length parts.now) parts.now) }
{
    let mut lefts = Vec::with_capacity(alloc, parts.len())?;
    let mut behind = Behind {
        ends: Vec::new(alloc),
        counts: Counts {
            all: 0,
            staying: 0,
            moving: 0,
        },
    };
    for place in (0..parts.len()).rev() {
        lefts.push(behind.take_in(place, parts[place])?)?;
    }
    lefts.reverse();
    Ok(lefts)
}
