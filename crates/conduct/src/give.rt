//! How edits are given back: three files are read, and what is answered is told.

ghost use Rattle.std.specs.Prelude.{is_some, ◌≡◌, ◌∷◌, [], List, length, map};
ghost use Rattle.conduct.specs.Ending.{EndsBy};
ghost use Rattle.conduct.specs.Gives.{IsGiveTold, IsAnsweredGive, IsGiveDone};
ghost use Rattle.outside.specs.Events.{Event, Adds};

use crate::manner::Manner;
use crate::means::Means;
use crate::reading::{INPUT_TWICE, is_input_twice, read_all, tell_unread};
use crate::telling::{misuse, print_out, refuse};
use commandline::GiveOrder;
use following::Follow;
use givetext::{Paths, Returned, answer_give};
use outside::World;
use std::alloc::AllocError;
use std::hash::RandomState;
use std::thread::Threads;

/// Tells an answer: what is printed, or the line of the refusal.
fn tell_given<W: World>(world: &mut W, told: &Returned) -> u8
    ensures { (es : List Event) × Adds (W.done world.old) (W.done world.new) es × IsGiveTold told.now es result }
{
    match told {
        Returned::Printed(out) => print_out(world, Manner::Full, out.as_slice()),
        Returned::Refused(line) => refuse(world, line.as_str()),
    }
}

/// Gives the edits of a history back, by the texts of three files, and tells the answer.
fn answer_given<R: Threads + Sync, W: World, F: Follow>(
    means: &Means<'_, R, F>,
    world: &mut W,
    keys: Option<RandomState>,
    order: GiveOrder<'_>,
    texts: &[Vec<u8>],
) -> Result<u8, AllocError>
    requires { length texts.now ≡ 3 }
    ensures { (es : List Event) × Adds (W.done world.old) (W.done world.new) es
        × EndsBy (IsAnsweredGive (is_some keys) (order.entry.source.now ∷ order.entry.library.now ∷ order.entry.history.now ∷ [])
        (map (λ t. t.items) texts.now)) es result }
{
    let Some(keys) = keys else {
        return Ok(refuse(world, "no random numbers"));
    };
    let paths = Paths {
        source: order.source,
        library: order.library,
        history: order.history,
    };
    let (source, library, history) = (
        texts[0].as_slice(),
        texts[1].as_slice(),
        texts[2].as_slice(),
    );
    let (rt, alloc, watch) = (means.rt, means.alloc, means.watch);
    match answer_give(rt, alloc, keys, paths, source, library, history, watch) {
        Ok(told) => Ok(tell_given(world, &told)),
        Err(_) => Err(AllocError),
    }
}

/// Does what an order to give back asks for. Who follows is told how far that is.
///
/// # Errors
///
/// Memory ran out, before anything was printed or said.
pub fn follow_give<R: Threads + Sync, W: World, F: Follow>(
    means: &Means<'_, R, F>,
    world: &mut W,
    keys: Option<RandomState>,
    order: GiveOrder<'_>,
) -> Result<u8, AllocError>
    ensures { (es : List Event) × Adds (W.done world.old) (W.done world.new) es
        × EndsBy (IsGiveDone (is_some keys) order.entry.source.now order.entry.library.now order.entry.history.now) es result }
{
    let paths = [order.source, order.library, order.history];
    if is_input_twice(&paths) {
        return Ok(misuse(world, INPUT_TWICE));
    }
    let mut texts = Vec::new(means.alloc);
    if let Err(unread) = read_all(world, means.alloc, Manner::Full, &paths, &mut texts) {
        return tell_unread(world, Manner::Full, unread);
    }
    answer_given(means, world, keys, order, texts.as_slice())
}
