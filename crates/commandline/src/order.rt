//! What a command line asks for.

ghost use Rattle.std.specs.Prelude.{◌≡◌, ◌<◌, ◌^◌, ◌++◌, codes, ℕ, IfOk, OnOk, IfSome, IsNone, Option, map, option_map};
ghost use Rattle.clap.specs.Words.{all_of, first_of, found_of, one_of, rows_of, subcommand_rows_of};
ghost use Rattle.checking.specs.declared.task.Task.{Task as TaskOfJob};
ghost use Rattle.commandline.specs.Orders.{IsNumber, IsNumberIfGiven, HasLimits, IsTaskOf, AsksFor, IsOrder, listed, all_listed, paths_of, history_of};

use crate::arguments::{ROOM, WORKERS};
use checking::Task;
use clap::ArgMatches;
use std::alloc::{AllocError, Global};

/// What a command line asks for.
#[derive(Drop)]
pub struct Order<'a> {
    pub task: Task,
    /// The paths of the texts: the database, then the scripts or the history.
    pub paths: Vec<&'a str>,
    /// Where a run writes its history.
    pub history: Option<&'a str>,
}

/// The name of the subcommand, and what was found for its arguments.
pub(crate) fn subcommand_in<'m, 'a>(
    matches: &'m ArgMatches<'a>,
) -> Option<(&'a str, &'m ArgMatches<'a>)>
    ensures { option_map (λ p. (p.0.now, rows_of (found_of p.1.now))) result ≡ subcommand_rows_of matches.now }
{
    matches.subcommand()
}

/// The first value of an argument.
pub(crate) fn text_in<'a>(of: &ArgMatches<'a>, id: &str) -> Option<&'a str>
    ensures { option_map (λ s. s.now) result ≡ first_of id.now (rows_of (found_of of.now)) }
{
    of.get_str(id)
}

/// All values of an argument.
pub(crate) fn texts_in<'m, 'a>(of: &'m ArgMatches<'a>, id: &str) -> Option<&'m [&'a str]>
    ensures { option_map (λ s. map (λ v. v.now) s.now) result ≡ all_of id.now (rows_of (found_of of.now)) }
{
    of.get_strs(id)
}

/// The number that an argument has. None where it has none below 2^64.
fn number_in(of: &ArgMatches<'_>, id: &str) -> Option<usize>
    ensures some { IfSome result (IsNumber (one_of id.now (rows_of (found_of of.now)))) }
    ensures none { IsNone result → (n : ℕ) → n < 2 ^ 64 → IsNumber (one_of id.now (rows_of (found_of of.now))) n → ⊥ }
{
    of.get_one::<usize>(id)
}

/// The number that an argument has, if it is given. None where it has a text that writes none below 2^64.
pub(crate) fn number_if_given(of: &ArgMatches<'_>, id: &str) -> Option<Option<usize>>
    ensures some { IfSome result (IsNumberIfGiven (one_of id.now (rows_of (found_of of.now)))) }
    ensures none { IsNone result → (n : Option ℕ) → IfSome n (λ m. m < 2 ^ 64)
        → IsNumberIfGiven (one_of id.now (rows_of (found_of of.now))) n → ⊥ }
{
    of.try_get_one::<usize>(id).ok()
}

/// How many workers a run has, and for how many words its store has room, if that is given. None beyond their limits.
pub(crate) fn limits_in(of: &ArgMatches<'_>) -> Option<(usize, Option<usize>)>
    ensures some { IfSome result (λ r. HasLimits (rows_of (found_of of.now)) r.0 r.1) }
    ensures none { IsNone result → (workers : ℕ) (room : Option ℕ) → HasLimits (rows_of (found_of of.now)) workers room → ⊥ }
{
    let workers = number_in(of, "workers")?;
    let room = number_if_given(of, "room")?;
    if workers < 1 || workers > WORKERS || room.is_some_and(|words| words > ROOM) {
        return None;
    }
    Some((workers, room))
}

/// The task of a run.
fn run_in(of: &ArgMatches<'_>) -> Option<Task>
    ensures some { IfSome result (IsTaskOf (codes "run") (rows_of (found_of of.now))) }
    ensures none { IsNone result → (workers : ℕ) (room : Option ℕ) → HasLimits (rows_of (found_of of.now)) workers room → ⊥ }
{
    let (workers, room) = limits_in(of)?;
    Some(Task::Run {
        workers,
        room,
        history: text_in(of, "history").is_some(),
    })
}

/// The task of a subcommand. None where it has no such name, or the numbers of a run are beyond their limits.
fn task_in(name: &str, of: &ArgMatches<'_>) -> Option<Task>
    ensures some { IfSome result (IsTaskOf name.now (rows_of (found_of of.now))) }
    ensures none { IsNone result → (task : TaskOfJob) → IsTaskOf name.now (rows_of (found_of of.now)) task → ⊥ }
{
    if name == "check" {
        Some(Task::Check)
    } else if name == "replay" {
        Some(Task::Replay)
    } else if name == "run" {
        run_in(of)
    } else {
        None
    }
}

/// Puts a text behind others, if there is one.
fn put_one<'a>(paths: &mut Vec<&'a str>, path: Option<&'a str>) -> Result<(), AllocError>
    ensures { OnOk result (map (λ p. p.now) paths.new.items ≡ map (λ p. p.now) paths.old.items
        ++ listed (option_map (λ s. s.now) path.entry)) }
{
    if let Some(path) = path {
        paths.push(path)?;
    }
    Ok(())
}

/// Puts texts behind others, if there are some.
pub(crate) fn put_all<'a>(
    paths: &mut Vec<&'a str>,
    texts: Option<&[&'a str]>,
) -> Result<(), AllocError>
    ensures { OnOk result (map (λ p. p.now) paths.new.items ≡
        map (λ p. p.now) paths.old.items ++ all_listed (option_map (λ s. map (λ v. v.now) s.now) texts.entry)) }
{
    match texts {
        Some(texts) => paths.extend_from_slice(texts),
        None => Ok(()),
    }
}

/// The paths of the files that a task reads.
fn paths_in<'a>(alloc: Global, task: Task, of: &ArgMatches<'a>) -> Result<Vec<&'a str>, AllocError>
    ensures { IfOk result (λ v. map (λ p. p.now) v.items ≡ paths_of task (rows_of (found_of of.now))) }
{
    let mut paths = Vec::new(alloc);
    put_one(&mut paths, text_in(of, "DB"))?;
    match task {
        Task::Check => {}
        Task::Run { .. } => put_all(&mut paths, texts_in(of, "SCRIPT"))?,
        Task::Replay => put_one(&mut paths, text_in(of, "HISTORY"))?,
    }
    Ok(paths)
}

/// Where a task writes its history.
fn history_in<'a>(task: Task, of: &ArgMatches<'a>) -> Option<&'a str>
    ensures { option_map (λ s. s.now) result ≡ history_of task (rows_of (found_of of.now)) }
{
    match task {
        Task::Run { .. } => text_in(of, "history"),
        Task::Check | Task::Replay => None,
    }
}

/// The order that a command line gives: its database first, then its scripts or its history. None where it asks for no task.
///
/// # Errors
///
/// Want of memory.
pub fn order_of<'a>(
    alloc: Global,
    matches: &ArgMatches<'a>,
) -> Result<Option<Order<'a>>, AllocError>
    ensures some { IfOk result (λ given. IfSome given (λ order. IsOrder (subcommand_rows_of matches.now)
        order.task (map (λ p. p.now) order.paths.items) (option_map (λ s. s.now) order.history))) }
    ensures none { IfOk result (λ given. IsNone given → (task : TaskOfJob) → AsksFor (subcommand_rows_of matches.now) task → ⊥) }
{
    let Some((name, of)) = subcommand_in(matches) else {
        return Ok(None);
    };
    let Some(task) = task_in(name, of) else {
        return Ok(None);
    };
    Ok(Some(Order {
        task,
        paths: paths_in(alloc, task, of)?,
        history: history_in(task, of),
    }))
}
