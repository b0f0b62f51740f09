//! How a command line is done: which command its words ask for, and what is done where they are none.

ghost use Rattle.std.specs.Prelude.{is_some, ◌≢◌, ℕ, List, Option, map, string_bytes};
ghost use Rattle.checking.specs.declared.task.Task.{Task};
ghost use Rattle.clap.specs.Words.{Text, kind_of, subcommand_rows_of};
ghost use Rattle.commandline.specs.Orders.{AsksFor};
ghost use Rattle.commandline.specs.GiveOrders.{AsksToGive};
ghost use Rattle.commandline.specs.VerifyOrders.{AsksToVerify};
ghost use Rattle.commandline.specs.EditOrders.{AsksToEdit};
ghost use Rattle.conduct.specs.Ending.{EndsBy};
ghost use Rattle.outside.specs.Events.{Event, Adds};
ghost use Rattle.program.specs.Obeying.{IsShown, IsMatched, IsObeyed, Obeys};

use crate::edit::follow_edit;
use clap::ArgMatches;
use clap::error::ErrorKind;
use commandline::{command_line, edit_of, give_of, order_of, take_of, verify_of};
use conduct::{
    Manner, Means, follow_give, follow_order, follow_take, follow_verify, refuse, tell_unprinted,
};
use following::Follow;
use jobs::Watch;
use outside::World;
use std::alloc::AllocError;
use std::hash::RandomState;
use std::sync::Wait;
use std::thread::Threads;

/// Shows what the parser of command lines says.
fn show_usage<W: World>(world: &mut W, error: &clap::Error) -> u8
    ensures { (es : List Event) × Adds (W.done world.old) (W.done world.new) es × IsShown error.now es result }
{
    match world.show(error) {
        Ok(()) if error.use_stderr() => 2,
        Ok(()) => 0,
        Err(why) => tell_unprinted(world, Manner::Full, why),
    }
}

/// Takes a library where that is what was found in the words of a command line. Who follows is told how far that is.
fn obey_take<R: Threads + Sync, W: World, F: Follow>(
    means: &Means<'_, R, F>,
    world: &mut W,
    keys: Option<RandomState>,
    matches: &ArgMatches<'_>,
) -> Result<u8, AllocError>
    requires asks { (task : Task) → AsksFor (subcommand_rows_of matches.now) task → ⊥ }
    requires gives { (source library history : Text) → AsksToGive (subcommand_rows_of matches.now) source library history → ⊥ }
    requires verifies { (path : Text) (workers : Option ℕ) → AsksToVerify (subcommand_rows_of matches.now) path workers → ⊥ }
    requires edits { (path : Text) (workers : ℕ) (room : Option ℕ) → AsksToEdit (subcommand_rows_of matches.now) path workers room → ⊥ }
    ensures { (es : List Event) × Adds (W.done world.old) (W.done world.new) es
        × EndsBy (IsMatched (is_some keys) (subcommand_rows_of matches.now)) es result }
{
    match take_of(means.alloc, matches) {
        Ok(Some(order)) => follow_take(means, world, keys, &order),
        Ok(None) => Ok(refuse(world, "the command line cannot be read")),
        Err(_) => Err(AllocError),
    }
}

/// Checks the proofs of a source, or takes a library of it, where one of these is what was found in the words of a command line. Who
/// follows is told how far that is.
fn obey_source<R: Threads + Sync, W: World, F: Follow + Sync>(
    means: &Means<'_, R, F>,
    world: &mut W,
    keys: Option<RandomState>,
    matches: &ArgMatches<'_>,
) -> Result<u8, AllocError>
    requires asks { (task : Task) → AsksFor (subcommand_rows_of matches.now) task → ⊥ }
    requires edits { (path : Text) (workers : ℕ) (room : Option ℕ) → AsksToEdit (subcommand_rows_of matches.now) path workers room → ⊥ }
    requires gives { (source library history : Text) → AsksToGive (subcommand_rows_of matches.now) source library history → ⊥ }
    ensures { (es : List Event) × Adds (W.done world.old) (W.done world.new) es
        × EndsBy (IsMatched (is_some keys) (subcommand_rows_of matches.now)) es result }
{
    match verify_of(matches) {
        Some(order) => follow_verify(means, world, keys, order),
        None => obey_take(means, world, keys, matches),
    }
}

/// Gives edits back, checks the proofs of a source, or takes a library of it, where one of these is what was found in the words of a
/// command line. Who follows is told how far that is.
fn obey_other<R: Threads + Sync, W: World, F: Follow + Sync>(
    means: &Means<'_, R, F>,
    world: &mut W,
    keys: Option<RandomState>,
    matches: &ArgMatches<'_>,
) -> Result<u8, AllocError>
    requires asks { (task : Task) → AsksFor (subcommand_rows_of matches.now) task → ⊥ }
    requires edits { (path : Text) (workers : ℕ) (room : Option ℕ) → AsksToEdit (subcommand_rows_of matches.now) path workers room → ⊥ }
    ensures { (es : List Event) × Adds (W.done world.old) (W.done world.new) es
        × EndsBy (IsMatched (is_some keys) (subcommand_rows_of matches.now)) es result }
{
    match give_of(matches) {
        Some(order) => follow_give(means, world, keys, order),
        None => obey_source(means, world, keys, matches),
    }
}

/// Edits a source by scripts, where that is what was found in the words of a command line, or else one of those that need no run. Who
/// watches is told of the run, and how far the work on the source is. It may wait.
fn obey_edit<R: Threads + Wait + Sync, W: World, V: Watch + Follow + Sync>(
    means: &Means<'_, R, V>,
    world: &mut W,
    keys: Option<RandomState>,
    matches: &ArgMatches<'_>,
) -> Result<u8, AllocError>
    requires { (task : Task) → AsksFor (subcommand_rows_of matches.now) task → ⊥ }
    ensures { (es : List Event) × Adds (W.done world.old) (W.done world.new) es
        × EndsBy (IsMatched (is_some keys) (subcommand_rows_of matches.now)) es result }
{
    match edit_of(means.alloc, matches) {
        Ok(Some(order)) => Ok(follow_edit(means, world, keys, &order)),
        Ok(None) => obey_other(means, world, keys, matches),
        Err(_) => Err(AllocError),
    }
}

/// Does what was found in the words of a command line. It may wait.
fn obey_matches<R: Threads + Wait + Sync, W: World, V: Watch + Follow + Sync>(
    means: &Means<'_, R, V>,
    world: &mut W,
    keys: Option<RandomState>,
    matches: &ArgMatches<'_>,
) -> Result<u8, AllocError>
    ensures { (es : List Event) × Adds (W.done world.old) (W.done world.new) es
        × EndsBy (IsMatched (is_some keys) (subcommand_rows_of matches.now)) es result }
{
    match order_of(means.alloc, matches) {
        Ok(Some(order)) => follow_order(means, world, keys, &order),
        Ok(None) => obey_edit(means, world, keys, matches),
        Err(_) => Err(AllocError),
    }
}

/// Tells why the words of a command line have no matches.
fn tell_usage<W: World>(world: &mut W, error: &clap::Error) -> Result<u8, AllocError>
    ensures { (es : List Event) × Adds (W.done world.old) (W.done world.new) es
        × EndsBy (λ done status. (kind_of error.now ≢ ErrorKind.OutOfMemory) × IsShown error.now done status) es result }
{
    match error.kind() {
        ErrorKind::OutOfMemory => Err(AllocError),
        _ => Ok(show_usage(world, error)),
    }
}

/// Does what a command line asks for. It may wait.
fn try_obey<'a, R: Threads + Wait + Sync, W: World, V: Watch + Follow + Sync>(
    means: &Means<'_, R, V>,
    world: &mut W,
    keys: Option<RandomState>,
    words: &'a [String],
) -> Result<u8, AllocError>
    ensures { (es : List Event) × Adds (W.done world.old) (W.done world.new) es
        × EndsBy (IsObeyed (is_some keys) (map string_bytes words.entry.now)) es result }
{
    let Ok(line) = command_line(means.alloc) else {
        return Err(AllocError);
    };
    match line.try_get_matches_from(words) {
        Ok(matches) => obey_matches(means, world, keys, &matches),
        Err(error) => tell_usage(world, &error),
    }
}

/// Does what the words of a command line ask for, of which the first is the program's name, and answers the status that the program ends
/// with. Who watches is told of a run, and how far the work on a source is. It may wait.
///
/// All files are read, in their order, before anything else is done; a history is written before anything is printed; on the standard
/// output stands nothing unless all is well, or just that can't be written; and where the status is 1, one line on the standard error says
/// why.
pub fn obey<R: Threads + Wait + Sync, W: World, V: Watch + Follow + Sync>(
    means: &Means<'_, R, V>,
    world: &mut W,
    keys: Option<RandomState>,
    words: &[String],
) -> u8
    ensures { (es : List Event) × Adds (W.done world.old) (W.done world.new) es
        × Obeys (is_some keys) (map string_bytes words.now) es result }
{
    match try_obey(means, world, keys, words) {
        Ok(status) => status,
        Err(_) => refuse(world, "no memory"),
    }
}
