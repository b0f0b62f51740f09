//! What some assertions need: the nearest first, as long as there is room.

ghost use Rattle.std.specs.Prelude.{◌≡◌, ◌<◌, List, nat_lt, filter, length, reverse, slice_get, true, IfOk};
ghost use mathlib.Core.Bool.{not};
ghost use Rattle.mmtext.specs.Words.{Word};
ghost use Rattle.source.specs.Scopes.{is_in};
ghost use Rattle.source.specs.Whole.{IsWhole};
ghost use Rattle.prooftrees.specs.Frames.{Holds};
ghost use Rattle.choosing.specs.Choices.{nearest, have_room};
ghost use Rattle.choosing.specs.Marks.{AreMarked, AreWidened};

use crate::marks::{count_marked, mark_needed};
use prooftrees::Frames;
use source::Declared;
use std::alloc::{AllocError, Global};
use std::hash::RandomState;

/// Whether so many are marked at most.
fn have_room(marks: &[bool], most: usize) -> bool
    ensures { result ≡ not (nat_lt most (length (filter (λ b. b) marks.now))) }
{
    count_marked(marks) <= most
}

/// What is wanted with what the assertion at a place needs, where all of it has room, and else what was wanted.
///
/// Its proof is read once. After an error nothing is said of the frames.
fn widened<'a, D: Declared<'a>>(
    alloc: Global,
    keys: RandomState,
    declared: &D,
    frames: &mut Frames,
    place: usize,
    wanted: Vec<bool>,
    most: usize,
) -> Result<Vec<bool>, AllocError>
    requires whole { IsWhole (D.scope declared.now) }
    requires within { place < length (D.scope declared.now).assertions }
    requires frames { Holds (D.scope declared.now).assertions frames.old }
    requires long { length wanted.items ≡ length (D.scope declared.now).assertions }
    ensures frames { IfOk result (λ _. Holds (D.scope declared.now).assertions frames.new) }
    ensures long { IfOk result (λ after. length after.items ≡ length wanted.items) }
    ensures widened { IfOk result (λ after. (ws : List Word) → AreMarked (D.scope declared.now).assertions (is_in ws) wanted.items
        → AreWidened most (D.scope declared.now).assertions place ws after.items (slice_get (D.scope declared.now).assertions place)) }
{
    let mut more = wanted.clone()?;
    mark_needed(alloc, keys, declared, frames, place, &mut more)?;
    if have_room(&more, most) {
        return Ok(more);
    }
    Ok(wanted)
}

/// The assertions that are asked for, and the nearest of those that their proofs need: as many as have room, so many in all. A proof that
/// needs more than has room takes none of it.
///
/// Each proof that is needed is read once. After an error nothing is said of the frames.
pub(crate) fn choose_nearest<'a, D: Declared<'a>>(
    alloc: Global,
    keys: RandomState,
    declared: &D,
    frames: &mut Frames,
    asked: Vec<bool>,
    most: usize,
) -> Result<Vec<bool>, AllocError>
    requires whole { IsWhole (D.scope declared.now) }
    requires frames { Holds (D.scope declared.now).assertions frames.old }
    requires long { length asked.items ≡ length (D.scope declared.now).assertions }
    ensures frames { IfOk result (λ _. Holds (D.scope declared.now).assertions frames.new) }
    ensures chosen { IfOk result (λ chosen. (ws : List Word) → AreMarked (D.scope declared.now).assertions (is_in ws) asked.items
        → AreMarked (D.scope declared.now).assertions
        (is_in (nearest (have_room most (D.scope declared.now).assertions) ws (reverse (D.scope declared.now).assertions))) chosen.items) }
{
    let mut wanted = asked;
    for place in (0..wanted.len()).rev() {
        if wanted[place] {
            wanted = widened(alloc, keys, declared, frames, place, wanted, most)?;
        }
    }
    Ok(wanted)
}
