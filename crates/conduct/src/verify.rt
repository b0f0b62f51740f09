//! How all proofs of a source are checked: it is read, and what is answered is told.

ghost use Rattle.std.specs.Prelude.{is_some, List};
ghost use Rattle.conduct.specs.Ending.{EndsBy};
ghost use Rattle.conduct.specs.Verifies.{IsVerifyTold, IsAnsweredVerify, IsVerifyDone};
ghost use Rattle.outside.specs.Events.{Event, Adds};

use crate::manner::Manner;
use crate::means::Means;
use crate::reading::say_unread;
use crate::telling::{print_out, refuse};
use commandline::VerifyOrder;
use following::Follow;
use outside::{Trouble, World};
use std::alloc::AllocError;
use std::hash::RandomState;
use std::thread::Threads;
use verifytext::{Verdict, answer_verify};

/// Tells a verdict: what is printed, or the line of the refusal.
fn tell_verdict<W: World>(world: &mut W, told: &Verdict) -> u8
    ensures { (es : List Event) × Adds (W.done world.old) (W.done world.new) es × IsVerifyTold told.now es result }
{
    match told {
        Verdict::Verified(line) => print_out(world, Manner::Full, line.as_bytes()),
        Verdict::Refused(line) => refuse(world, line.as_str()),
    }
}

/// Checks the proofs of the source in an order's file, and tells the verdict.
fn answer_source<R: Threads + Sync, W: World, F: Follow + Sync>(
    means: &Means<'_, R, F>,
    world: &mut W,
    keys: Option<RandomState>,
    order: VerifyOrder<'_>,
    source: &[u8],
) -> Result<u8, AllocError>
    ensures { (es : List Event) × Adds (W.done world.old) (W.done world.new) es
        × EndsBy (IsAnsweredVerify (is_some keys) order.entry.path.now source.now) es result }
{
    let Some(keys) = keys else {
        return Ok(refuse(world, "no random numbers"));
    };
    match answer_verify(
        means.rt,
        means.alloc,
        keys,
        order.path,
        source,
        order.workers,
        means.watch,
    ) {
        Ok(told) => Ok(tell_verdict(world, &told)),
        Err(_) => Err(AllocError),
    }
}

/// Does what an order to verify asks for. Who follows is told how far that is.
///
/// # Errors
///
/// Memory ran out, before anything was printed or said.
pub fn follow_verify<R: Threads + Sync, W: World, F: Follow + Sync>(
    means: &Means<'_, R, F>,
    world: &mut W,
    keys: Option<RandomState>,
    order: VerifyOrder<'_>,
) -> Result<u8, AllocError>
    ensures { (es : List Event) × Adds (W.done world.old) (W.done world.new) es
        × EndsBy (IsVerifyDone (is_some keys) order.entry.path.now) es result }
{
    match world.read(means.alloc, Manner::Full.origin(order.path)) {
        Ok(source) => answer_source(means, world, keys, order, source.as_slice()),
        Err(Trouble::NoMemory) => Err(AllocError),
        Err(Trouble::Refused(why)) => {
            say_unread(world, Manner::Full, order.path, why);
            Ok(1)
        }
    }
}
