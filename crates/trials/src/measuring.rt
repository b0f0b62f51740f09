//! What is measured of this repository's crates, for the programs of `benches/`: `workbench cells|check|words|sessions|meets|all WORD..`.
//!
//! `cells` measures libraries in cells, `check` reading and checking, `words` transactions over shared words, `sessions` scripts by
//! many threads, and `meets` tells what scripts meet at once; the further words are told at each. `all DB SCRIPT SCRIPTS..` does a
//! small run of each but the last, and prints the same on the standard output each time: the first script is done over cells, the others
//! by two sessions. The status is 1 where something fails, and 2 where the words aren't understood.

ghost use Rattle.std.specs.Prelude.{All};
ghost use Rattle.library.specs.Fitting.{CommandFits};

use crate::files::{read_db, read_scripts};
use crate::{cell_work, check_work, meet_work, mutex_work, session_work, word_work};
use library::Script;
use mmstatement::Database;
use std::fmt::Display;
use std::hash::RandomState;
use std::process::ExitCode;
use std::random::RandomSource;
use std::rt::{Clock, Files};
use std::sync::Wait;
use std::thread::Threads;
use std::time::CpuClock;

/// How a run ends.
#[derive(Clone, Copy, PartialEq)]
pub enum Ending {
    /// It was done.
    Done,
    /// Something failed: status 1.
    Failed,
    /// The words weren't understood: status 2.
    Misused,
}

impl Ending {
    /// The status of the program.
    pub fn status(self) -> ExitCode {
        match self {
            Ending::Done => ExitCode::SUCCESS,
            Ending::Failed => ExitCode::from(1),
            Ending::Misused => ExitCode::from(2),
        }
    }
}

/// What is said where the words aren't understood.
const USAGE: &str =
    "usage: workbench check DB, or cells check|open|back DB, or cells editor|cells DB SCRIPT, \
or words disjoint|uniform|hot|read CELLS TRANSACTIONS THREADS, or sessions sessions|mutex THREADS DB SCRIPT.., by 1 to 64 threads, \
or meets DB SCRIPT.., of 1 to 64 scripts, or all DB SCRIPT SCRIPTS..";

/// What is said where something fails.
const FAILURE: &str =
    "a file cannot be read, a text has a fault, or there is no room, no memory, no thread or no clock";

/// Prints the line that a run ends with. None where it can't be printed.
pub(crate) fn finish(rt: &impl Print, line: impl Display + Drop) -> Option<Ending> {
    match rt.println(line) {
        Ok(()) => Some(Ending::Done),
        Err(_) => None,
    }
}

/// Does a task with a database and scripts. It may wait.
fn do_task<R>(
    rt: &R,
    keys: RandomState,
    task: &str,
    threads: usize,
    db: &str,
    scripts: &[String],
) -> Option<Ending>
where
    R: AllocGlobal + Files + Print + Eprint + Clock + CpuClock + Threads + Wait + Sync,
{
    let db = read_db(rt, keys, db)?;
    let scripts = read_scripts(rt, db.prelude(), scripts)?;
    do_over(rt, keys, task, threads, &db, scripts.as_slice())
}

/// Does a task with a database and scripts over it. It may wait.
fn do_over<R>(
    rt: &R,
    keys: RandomState,
    task: &str,
    threads: usize,
    db: &Database,
    scripts: &[Script],
) -> Option<Ending>
where
    R: AllocGlobal + Print + Eprint + Clock + CpuClock + Threads + Wait + Sync,
    requires fit { All (All (All (CommandFits db.now.prelude))) scripts.now }
{
    match task {
        "sessions" => session_work::run(rt, keys, db, scripts, threads),
        "mutex" => mutex_work::run(rt, keys, db, scripts, threads),
        "meets" => meet_work::run(rt, keys, db, scripts),
        _ => cell_work::run(rt, keys, db, scripts, task),
    }
}

/// Does `sessions TASK THREADS DB SCRIPT..`. It may wait.
fn do_sessions<R>(rt: &R, keys: RandomState, words: &[String]) -> Option<Ending>
where
    R: AllocGlobal + Files + Print + Eprint + Clock + CpuClock + Threads + Wait + Sync,
{
    let [task, threads, db, scripts @ ..] = words else {
        return Some(Ending::Misused);
    };
    let threads = threads.as_str().parse().ok()?;
    do_task(rt, keys, task.as_str(), threads, db.as_str(), scripts)
}

/// Does `TASK DB SCRIPT..`, by one thread or by one for each script. It may wait.
fn do_one<R>(rt: &R, keys: RandomState, words: &[String]) -> Option<Ending>
where
    R: AllocGlobal + Files + Print + Eprint + Clock + CpuClock + Threads + Wait + Sync,
{
    let [task, db, scripts @ ..] = words else {
        return Some(Ending::Misused);
    };
    do_task(rt, keys, task.as_str(), 1, db.as_str(), scripts)
}

/// Does a small run of each subject. It may wait.
fn do_all<R>(rt: &R, keys: RandomState, words: &[String]) -> Option<Ending>
where
    R: AllocGlobal + Files + Print + Eprint + Clock + CpuClock + Threads + Wait + Sync,
{
    let [db, scripts @ ..] = words else {
        return Some(Ending::Misused);
    };
    let (first, others) = scripts.split_at_checked(1)?;
    check_work::run(rt, keys, db.as_str())?;
    do_task(rt, keys, "cells", 1, db.as_str(), first)?;
    word_work::run(rt, "hot", 8, 100, 2)?;
    do_task(rt, keys, "sessions", 2, db.as_str(), others)
}

/// Does what these words ask for, of which the first is the subject. It may wait.
fn do_subject<R>(rt: &R, keys: RandomState, words: &[String]) -> Option<Ending>
where
    R: AllocGlobal + Files + Print + Eprint + Clock + CpuClock + Threads + Wait + Sync,
{
    let [subject, behind @ ..] = words else {
        return Some(Ending::Misused);
    };
    match subject.as_str() {
        "check" => match behind {
            [db] => check_work::run(rt, keys, db.as_str()),
            _ => Some(Ending::Misused),
        },
        "cells" => do_one(rt, keys, behind),
        "meets" => do_one(rt, keys, words),
        "words" => word_work::obey(rt, behind),
        "sessions" => do_sessions(rt, keys, behind),
        "all" => do_all(rt, keys, behind),
        _ => Some(Ending::Misused),
    }
}

/// Does what these words ask for; none is a failure. It may wait.
fn obey<R>(rt: &R, words: &[String]) -> Option<Ending>
where
    R: AllocGlobal
        + RandomSource
        + Files
        + Print
        + Eprint
        + Clock
        + CpuClock
        + Threads
        + Wait
        + Sync,
{
    let keys = RandomState::new(rt).ok()?;
    do_subject(rt, keys, words)
}

/// Does what the words of a command line ask for, of which the first is the subject. It may wait.
///
/// What fails, also for want of memory, is told on the standard error, and ends as [`Ending::Failed`].
pub fn measure<R>(rt: &R, words: &[String]) -> Ending
where
    R: AllocGlobal
        + RandomSource
        + Files
        + Print
        + Eprint
        + Clock
        + CpuClock
        + Threads
        + Wait
        + Sync,
{
    let ending = obey(rt, words).unwrap_or(Ending::Failed);
    let _ = match ending {
        Ending::Done => Ok(()),
        Ending::Failed => rt.eprintln(FAILURE),
        Ending::Misused => rt.eprintln(USAGE),
    };
    ending
}
