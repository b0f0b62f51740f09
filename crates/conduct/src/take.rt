//! How a library is taken: its source is read, and what is answered is told.

ghost use Rattle.std.specs.Prelude.{is_some, ◌≡◌, [], List, Option, IfOk, IfSome, IsNone, map, option_map};
ghost use Rattle.choosing.specs.declared.wish.Wish.{Wish as WishOfTake};
ghost use Rattle.conduct.specs.Ending.{EndsBy};
ghost use Rattle.conduct.specs.Takes.{IsTakeTold, IsWishOf, IsAnsweredTake, IsTakeFollowed, IsTakeDone};
ghost use Rattle.outside.specs.Events.{Event, Adds};

use crate::manner::Manner;
use crate::means::Means;
use crate::reading::say_unread;
use crate::telling::{misuse, print_out, refuse};
use choosing::Wish;
use commandline::TakeOrder;
use following::Follow;
use outside::{Trouble, World};
use std::alloc::{AllocError, Global};
use std::hash::RandomState;
use std::thread::Threads;
use taketext::{Told, answer_take};

/// The bytes of labels.
fn label_bytes<'a>(alloc: Global, labels: &[&'a str]) -> Result<Vec<&'a [u8]>, AllocError>
    ensures { IfOk result (λ v. map (λ w. w.now) v.items ≡ map (λ l. l.now) labels.now) }
{
    let mut words = Vec::new(alloc);
    for label in labels {
        words.push(label.as_bytes())?;
    }
    Ok(words)
}

/// What is wished for without `--for`. None where only one of `--from` and `--to` is given.
fn range_of<'w>(from: Option<&'w str>, to: Option<&'w str>) -> Option<Wish<'w>>
    ensures some { IfSome result (IsWishOf [] (option_map (λ s. s.now) from.entry) (option_map (λ s. s.now) to.entry)) }
    ensures none { IsNone result → (w : WishOfTake)
        → IsWishOf [] (option_map (λ s. s.now) from.entry) (option_map (λ s. s.now) to.entry) w → ⊥ }
{
    match (from, to) {
        (None, None) => Some(Wish::All),
        (Some(from), Some(to)) => Some(Wish::Between(from.as_bytes(), to.as_bytes())),
        (None, Some(_)) | (Some(_), None) => None,
    }
}

/// What is wished for. None where the options don't go together.
fn wish_of<'w>(
    words: &'w [&'w [u8]],
    from: Option<&'w str>,
    to: Option<&'w str>,
) -> Option<Wish<'w>>
    ensures some { IfSome result (IsWishOf (map (λ w. w.now) words.entry.now)
        (option_map (λ s. s.now) from.entry) (option_map (λ s. s.now) to.entry)) }
    ensures none { IsNone result → (w : WishOfTake) → IsWishOf (map (λ w. w.now) words.entry.now)
        (option_map (λ s. s.now) from.entry) (option_map (λ s. s.now) to.entry) w → ⊥ }
{
    if words.is_empty() {
        return range_of(from, to);
    }
    match (from, to) {
        (None, None) => Some(Wish::For(words)),
        _ => None,
    }
}

/// Tells an answer: what is printed, or the line of the refusal.
fn tell_taken<W: World>(world: &mut W, told: &Told) -> u8
    ensures { (es : List Event) × Adds (W.done world.old) (W.done world.new) es × IsTakeTold told.now es result }
{
    match told {
        Told::Printed(out) => print_out(world, Manner::Full, out.as_slice()),
        Told::Refused(line) => refuse(world, line.as_str()),
    }
}

/// Takes a library from the text of the file at a path, and tells the answer.
fn answer_source<R: Threads + Sync, W: World, F: Follow>(
    means: &Means<'_, R, F>,
    world: &mut W,
    keys: Option<RandomState>,
    path: &str,
    source: &[u8],
    wish: Wish<'_>,
) -> Result<u8, AllocError>
    ensures { (es : List Event) × Adds (W.done world.old) (W.done world.new) es
        × EndsBy (IsAnsweredTake (is_some keys) path.now source.now wish.entry) es result }
{
    let Some(keys) = keys else {
        return Ok(refuse(world, "no random numbers"));
    };
    match answer_take(means.rt, means.alloc, keys, path, source, wish, means.watch) {
        Ok(told) => Ok(tell_taken(world, &told)),
        Err(_) => Err(AllocError),
    }
}

/// Reads the source at a path, and takes a library of it.
fn take_source<R: Threads + Sync, W: World, F: Follow>(
    means: &Means<'_, R, F>,
    world: &mut W,
    keys: Option<RandomState>,
    path: &str,
    wish: Wish<'_>,
) -> Result<u8, AllocError>
    ensures { (es : List Event) × Adds (W.done world.old) (W.done world.new) es
        × EndsBy (IsTakeFollowed (is_some keys) path.now wish.entry) es result }
{
    match world.read(means.alloc, Manner::Full.origin(path)) {
        Ok(source) => answer_source(means, world, keys, path, source.as_slice(), wish),
        Err(Trouble::NoMemory) => Err(AllocError),
        Err(Trouble::Refused(why)) => {
            say_unread(world, Manner::Full, path, why);
            Ok(1)
        }
    }
}

/// Does what an order to take asks for. Who follows is told how far that is.
///
/// # Errors
///
/// Memory ran out, before anything was printed or said.
pub fn follow_take<R: Threads + Sync, W: World, F: Follow>(
    means: &Means<'_, R, F>,
    world: &mut W,
    keys: Option<RandomState>,
    order: &TakeOrder<'_>,
) -> Result<u8, AllocError>
    ensures { (es : List Event) × Adds (W.done world.old) (W.done world.new) es
        × EndsBy (IsTakeDone (is_some keys) order.now.path.now (map (λ l. l.now) order.now.labels.items)
        (option_map (λ s. s.now) order.now.from) (option_map (λ s. s.now) order.now.to)) es result }
{
    let Ok(words) = label_bytes(means.alloc, order.labels.as_slice()) else {
        return Err(AllocError);
    };
    let Some(wish) = wish_of(words.as_slice(), order.from, order.to) else {
        return Ok(misuse(world, "--from and --to go together, without --for"));
    };
    take_source(means, world, keys, order.path, wish)
}
