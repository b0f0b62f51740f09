//! How a job is done: the files of its order are read, and what is answered is told.

ghost use Rattle.std.specs.Prelude.{is_some, ◌++◌, List, Option, Some, codes, map, option_map};
ghost use Rattle.commandline.specs.Orders.{AsksWithin};
ghost use Rattle.conduct.specs.Ending.{EndsBy};
ghost use Rattle.conduct.specs.Comparing.{AreCompared};
ghost use Rattle.conduct.specs.Jobs.{IsWritten, IsTold, IsJobAnswered, IsAnswered, IsReadAndAnswered, IsFollowed, history_clashes};
ghost use Rattle.jobs.specs.Jobs.{AreWithin};
ghost use Rattle.outside.specs.Events.{Event, Adds};

use crate::comparing::first_same;
use crate::manner::Manner;
use crate::means::Means;
use crate::reading::{read_all, tell_unread};
use crate::telling::{print_out, refuse, tell_unwritten};
use commandline::Order;
use jobs::{Answered, Job, RunOptions, Watch, answer, job_of, options_of};
use outside::World;
use std::alloc::{AllocError, Global};
use std::hash::RandomState;
use std::sync::Wait;
use std::thread::Threads;

/// Writes the history of a run to its file, and then prints what the run prints.
fn save_and_print<W: World>(
    world: &mut W,
    alloc: Global,
    path: &str,
    history: &[u8],
    out: &[u8],
) -> u8
    ensures { (es : List Event) × Adds (W.done world.old) (W.done world.new) es
        × IsWritten (Some path.now) history.now out.now es result }
{
    match world.write(alloc, path, history) {
        Ok(()) => print_out(world, Manner::Short, out),
        Err(why) => tell_unwritten(world, Manner::Short, path, &why),
    }
}

/// Tells an answer: what is printed, behind the history where a file is named for it, or the line of the fault.
fn tell<W: World>(world: &mut W, alloc: Global, history: Option<&str>, told: &Answered) -> u8
    ensures { (es : List Event) × Adds (W.done world.old) (W.done world.new) es
        × IsTold (option_map (λ s. s.now) history.entry) told.now es result }
{
    match told {
        Answered::Refused(line) => refuse(world, line.as_str()),
        Answered::Done(printed) => match history {
            Some(path) => save_and_print(
                world,
                alloc,
                path,
                printed.history.as_slice(),
                printed.out.as_slice(),
            ),
            None => print_out(world, Manner::Short, printed.out.as_slice()),
        },
    }
}

/// Does a job on the files of an order, and tells the answer. It may wait.
fn answer_job<R: Threads + Wait + Sync, W: World, V: Watch + Sync>(
    means: &Means<'_, R, V>,
    world: &mut W,
    keys: RandomState,
    order: &Order<'_>,
    job: &Job,
    options: RunOptions,
) -> Result<u8, AllocError>
    requires { AreWithin job.now }
    ensures { (es : List Event) × Adds (W.done world.old) (W.done world.new) es × EndsBy (IsJobAnswered
        (map (λ p. p.now) order.now.paths.items) (option_map (λ s. s.now) order.now.history) options job.now) es result }
{
    let paths = order.paths.as_slice();
    match answer(
        means.rt,
        means.alloc,
        keys,
        job,
        options,
        paths,
        means.watch,
    ) {
        Ok(told) => Ok(tell(world, means.alloc, order.history, &told)),
        Err(_) => Err(AllocError),
    }
}

/// Does the job of an order on the texts of its files, and tells the answer. It may wait.
fn answer_texts<R: Threads + Wait + Sync, W: World, V: Watch + Sync>(
    means: &Means<'_, R, V>,
    world: &mut W,
    keys: Option<RandomState>,
    order: &Order<'_>,
    texts: Vec<Vec<u8>>,
) -> Result<u8, AllocError>
    requires { AsksWithin order.now.task }
    ensures { (es : List Event) × Adds (W.done world.old) (W.done world.new) es × EndsBy (IsAnswered (is_some keys) order.now.task
        (map (λ p. p.now) order.now.paths.items) (option_map (λ s. s.now) order.now.history) (map (λ t. t.items) texts.items)) es result }
{
    let Some(job) = job_of(order.task, texts) else {
        return Ok(refuse(world, "the command line cannot be read"));
    };
    let Some(keys) = keys else {
        return Ok(refuse(world, "no random numbers"));
    };
    let options = options_of(order.task);
    answer_job(means, world, keys, order, &job, options)
}

/// Reads the files of an order, and does its job on their texts. It may wait.
fn read_and_answer<R: Threads + Wait + Sync, W: World, V: Watch + Sync>(
    means: &Means<'_, R, V>,
    world: &mut W,
    keys: Option<RandomState>,
    order: &Order<'_>,
) -> Result<u8, AllocError>
    requires { AsksWithin order.now.task }
    ensures { (es : List Event) × Adds (W.done world.old) (W.done world.new) es × EndsBy (IsReadAndAnswered (is_some keys) order.now.task
        (map (λ p. p.now) order.now.paths.items) (option_map (λ s. s.now) order.now.history)) es result }
{
    let paths = order.paths.as_slice();
    let mut texts = Vec::new(means.alloc);
    if let Err(unread) = read_all(world, means.alloc, Manner::Short, paths, &mut texts) {
        return tell_unread(world, Manner::Short, unread);
    }
    answer_texts(means, world, keys, order, texts)
}

/// The path of the history where it leads to a file that is read.
fn history_clash<'a, W: World>(
    world: &mut W,
    history: Option<&'a str>,
    paths: &[&str],
) -> Option<&'a str>
    ensures { (es : List Event) × Adds (W.done world.old) (W.done world.new) es
        × AreCompared (history_clashes (option_map (λ s. s.now) history.entry) (map (λ p. p.now) paths.now)) es
        (option_map (λ p. p.now ++ codes ": cannot write") result) }
{
    let path = history?;
    match first_same(world, path, paths) {
        Some(_) => Some(path),
        None => None,
    }
}

/// Does what an order asks for: checks, runs or replays. Who watches is told of a run. It may wait.
///
/// # Errors
///
/// Memory ran out, before anything was written, printed or said.
pub fn follow_order<R: Threads + Wait + Sync, W: World, V: Watch + Sync>(
    means: &Means<'_, R, V>,
    world: &mut W,
    keys: Option<RandomState>,
    order: &Order<'_>,
) -> Result<u8, AllocError>
    requires { AsksWithin order.now.task }
    ensures { (es : List Event) × Adds (W.done world.old) (W.done world.new) es × EndsBy (IsFollowed (is_some keys) order.now.task
        (map (λ p. p.now) order.now.paths.items) (option_map (λ s. s.now) order.now.history)) es result }
{
    match history_clash(world, order.history, order.paths.as_slice()) {
        Some(path) => {
            world.say_of(path, "cannot write");
            Ok(1)
        }
        None => read_and_answer(means, world, keys, order),
    }
}
