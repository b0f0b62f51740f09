//! Who leaves.

ghost use Rattle.std.specs.Prelude.{◌≡◌, ◌+◌, ◌^◌, ◌<◌, cond, nat_lt, [], IfOk, IfSome};
ghost use Rattle.leaving.specs.Leaving.{AreGoing, goes_alone, is_comment, leaves, first_leaves};
ghost use Rattle.leaving.specs.Ends.{open_after, takes_comments, reach_at};

use crate::blocks::{Left, lefts_of};
use crate::part::{Fate, Part};
use std::alloc::{AllocError, Global};

/// Whether an assertion leaves its place.
fn leaves(fate: Fate) -> bool
    ensures { result ≡ leaves fate }
{
    fate != Fate::Stays
}

/// Whether an assertion that leaves comes first.
fn first_leaves(after: &[Part]) -> bool
    ensures { result ≡ first_leaves after.now }
{
    match after.first() {
        Some(Part::Assertion(fate)) => leaves(*fate),
        _ => false,
    }
}

/// Whether an item is an assertion that leaves, or describes one, in front of these.
fn goes_alone(part: Part, after: &[Part]) -> bool
    ensures { result ≡ goes_alone part after.now }
{
    match part {
        Part::Assertion(fate) => leaves(fate),
        Part::Description => first_leaves(after),
        _ => false,
    }
}

/// How far items were walked over, and how far the blocks reach that have nothing left.
#[derive(Clone, Copy)]
pub(crate) struct Reach {
    /// How many blocks are open: none where one was closed that wasn't opened.
    pub depth: Option<usize>,
    /// So many items stand up to the end of the farthest such block.
    pub any: usize,
    /// The same of those that take their comments along.
    pub commented: usize,
}

/// How many blocks are open behind an item, from how many are in front of it.
fn open_after(depth: Option<usize>, part: Part) -> Option<usize>
    requires { IfSome depth (λ n. n + 1 < 2 ^ 64) }
    ensures { result ≡ open_after depth part }
{
    let open = depth?;
    match part {
        Part::Opening => Some(open + 1),
        Part::Closing => open.checked_sub(1),
        _ => depth,
    }
}

impl Left {
    /// Whether it takes its comments along, where so many blocks are open in front of it.
    fn takes_comments(self, depth: Option<usize>) -> bool
        ensures { result ≡ takes_comments depth self }
    {
        self.is_deleted || (depth == Some(0) && self.is_single)
    }
}

impl Reach {
    /// At an item, where such a block may begin.
    fn at(self, left: Option<Left>) -> Reach
        ensures { result ≡ reach_at self left }
    {
        let Some(left) = left else {
            return self;
        };
        Reach {
            depth: self.depth,
            any: self.any.max(left.end),
            commented: if left.takes_comments(self.depth) {
                self.commented.max(left.end)
            } else {
                self.commented
            },
        }
    }

    /// Whether the item at a place stands in a block that takes it along.
    fn takes(self, place: usize, part: Part) -> bool
        ensures { result ≡ nat_lt place (cond (is_comment part) self.commented self.any) }
    {
        match part {
            Part::Description | Part::Heading => place < self.commented,
            _ => place < self.any,
        }
    }
}

/// Of each item: whether it leaves. It costs about as much as there are items.
///
/// # Errors
///
/// Want of memory.
pub fn goes_of(alloc: Global, parts: &[Part]) -> Result<Vec<bool>, AllocError>
    ensures { IfOk result (λ goes. AreGoing [] parts.now goes.items) }
{
    let lefts = lefts_of(alloc, parts)?;
    let mut reach = Reach {
        depth: Some(0),
        any: 0,
        commented: 0,
    };
    let mut goes = Vec::with_capacity(alloc, parts.len())?;
    for (k, part) in parts.iter().enumerate() {
        reach = reach.at(lefts[k]);
        goes.push(goes_alone(*part, &parts[k + 1..]) || reach.takes(k, *part))?;
        reach.depth = open_after(reach.depth, *part);
    }
    Ok(goes)
}
