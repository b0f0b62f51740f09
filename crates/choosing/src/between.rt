//! The assertions between two, and in front of them what their proofs cite.

ghost use Rattle.std.specs.Prelude.{◌≡◌, ◌<◌, ◌≤◌, ◌+◌, ◌++◌, ◌-◌, true, false, length, take, replicate, IfOk};
ghost use Rattle.source.specs.Scopes.{is_in};
ghost use Rattle.source.specs.Whole.{IsWhole};
ghost use Rattle.prooftrees.specs.Frames.{Holds};
ghost use Rattle.choosing.specs.Choices.{needed_by_all, between};
ghost use Rattle.choosing.specs.Marks.{AreMarked};

use crate::marks::mark_needed;
use crate::wish::Selection;
use prooftrees::Frames;
use source::Declared;
use std::alloc::{AllocError, Global};
use std::hash::RandomState;

/// The assertions that the proofs of those from one place to another need.
///
/// Each of these proofs is read once. After an error nothing is said of the frames.
pub(crate) fn needed_between<'a, D: Declared<'a>>(
    alloc: Global,
    keys: RandomState,
    declared: &D,
    frames: &mut Frames,
    begin: usize,
    last: usize,
) -> Result<Vec<bool>, AllocError>
    requires whole { IsWhole (D.scope declared.now) }
    requires frames { Holds (D.scope declared.now).assertions frames.old }
    requires order { begin ≤ last }
    requires within { last < length (D.scope declared.now).assertions }
    ensures frames { IfOk result (λ _. Holds (D.scope declared.now).assertions frames.new) }
    ensures wanted { IfOk result (λ wanted. AreMarked (D.scope declared.now).assertions
        (is_in (needed_by_all (take begin (D.scope declared.now).assertions) (between begin last (D.scope declared.now).assertions)))
        wanted.items) }
{
    let mut wanted = vec![in alloc; false; declared.assertions()]?;
    for place in begin..last + 1 {
        mark_needed(alloc, keys, declared, frames, place, &mut wanted)?;
    }
    Ok(wanted)
}

/// Those from one place to another are chosen, and in front of them those that are wanted there.
pub(crate) fn selected(
    wanted: Vec<bool>,
    begin: usize,
    last: usize,
) -> Result<Selection, AllocError>
    requires order { begin ≤ last }
    requires within { last < length wanted.items }
    ensures front { IfOk result (λ sel. sel.front.items ≡ take begin wanted.items ++ replicate (length wanted.items - begin) false) }
    ensures chosen { IfOk result (λ sel. sel.chosen.items ≡ take begin wanted.items
        ++ (replicate (last + 1 - begin) true ++ replicate (length wanted.items - (last + 1)) false)) }
{
    let count = wanted.len();
    let mut front = wanted;
    front.truncate(begin);
    let mut chosen = front.clone()?;
    chosen.resize(last + 1, true)?;
    chosen.resize(count, false)?;
    front.resize(count, false)?;
    Ok(Selection { chosen, front })
}
